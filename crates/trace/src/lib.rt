// Layer host. The calls for a C or Rust host: numbers and slices go in, one number comes out.
#![tactic(auto)]

mod code;
pub mod four_kernels;
pub mod group_book;
pub mod judging;
mod lent;
pub mod loading;
