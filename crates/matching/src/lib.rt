// Layer verdicts. A claim against a reference output: its lines, whether it covers the vertices, and the three methods of matching.
#![tactic(auto)]

pub mod close;
pub mod coefficients;
pub mod judged;
pub mod kinds;
pub mod numbers;
pub mod reading;

pub use judged::Verdict;
