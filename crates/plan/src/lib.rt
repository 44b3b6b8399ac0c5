// Layer desk. A desk sheet, checked line by line: where its sections stand, or its first fault.
#![tactic(auto)]

pub mod job;
pub mod line;
pub mod sections;

pub use job::Job;
pub use sections::check;
