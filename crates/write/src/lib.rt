// Layer text, its writing half. Bytes, counts, identifiers and millionths into a lent area. A writer takes a place and answers the next
// one. It stores what there is room for and no more, so none needs room to be there: `put_at` says the rest.
#![tactic(auto)]

pub mod bytes;
pub mod millionths;
pub mod numbers;

pub use bytes::{put, put_bytes};
pub use millionths::put_millionths;
pub use numbers::{put_number, put_signed};
