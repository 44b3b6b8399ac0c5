// Layer verdicts. The verdict on a claimed result: a kernel's reference output, and the claim against it.
#![tactic(auto)]

pub mod claims;
pub mod each;
pub mod verdict;

pub use matching::Verdict;
