// Layer desk. The lines that the desk program prints: a refused line, a job's head, and a result line for each vertex. Its writers are
// total, as those of `write` are: they store what there is room for.
//
// Stays: each writer takes the lent area `out` and the place `at` apart, as those of `write` do. A struct of both would hold a `&mut`,
// and each clause would then have to name the borrow besides the bytes.
#![tactic(auto)]

pub mod refused;
pub mod results;

pub use refused::put_refused;
pub use results::{put_head, put_pairs, put_ratios};
