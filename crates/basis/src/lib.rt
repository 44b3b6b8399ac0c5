// Layer basis. What every layer of the engine says. Refusals, the order of signed numbers, one element of an area, an area filled, cleared
// or copied, the limits that several layers share.
#![tactic(auto)]

pub mod area;
pub mod limits;
pub mod order;
pub mod refusal;

pub use refusal::Refusal;
