// Layer text, its reading half. Counts, identifiers, decimals, weights, and the lines that are made of them.
#![tactic(auto)]

pub mod count;
pub mod decimal;
pub mod distance;
pub mod ident;
pub mod line;
pub mod weighed;
pub mod weight;

pub use count::Scan;
pub use line::{Cursor, Fault};
