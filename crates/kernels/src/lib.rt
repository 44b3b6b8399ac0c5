// Layer kernels. What the kernels share: their numbers and names, and a refusal.
#![tactic(auto)]

ghost use Rattle.std.specs.Prelude.{◌≡◌};
ghost use Rattle.basis.specs.Refusal.{refuses, plain};
ghost use Rattle.kernels.specs.Answer.{says};
ghost use Rattle.kernels.specs.Kernel.{Named};

use basis::Refusal;

// Stays: kernels as numbers too. Calls of the host's and the proved verdict call name a kernel by its number, and answer on every number.
pub const BFS: usize = 1;

pub const WCC: usize = 2;

pub const CDLP: usize = 3;

pub const LCC: usize = 4;

pub const SSSP: usize = 5;

// One of the kernels.
#[derive(Clone, Copy, Debug, PartialEq, Eq)]
pub enum Kernel {
    Bfs,
    Wcc,
    Cdlp,
    Lcc,
    Sssp,
}

// A number that is no kernel's.
#[derive(Clone, Copy, Debug, PartialEq, Eq)]
pub struct UnknownKernel(pub usize);

impl TryFrom<usize> for Kernel {
    type Error = UnknownKernel;

    ghost try_from_gives = { Named };

    fn try_from(number: usize) -> Result<Self, UnknownKernel> {
        match number {
            BFS => Ok(Kernel::Bfs),
            WCC => Ok(Kernel::Wcc),
            CDLP => Ok(Kernel::Cdlp),
            LCC => Ok(Kernel::Lcc),
            SSSP => Ok(Kernel::Sssp),
            _ => Err(UnknownKernel(number)),
        }
    }
}

// A refusal of a kernel meets no line.
pub fn refused(number: usize) -> Result<(), Refusal>
    ensures { says result ≡ refuses (plain number) }
{
    Err(Refusal::plain(number))
}
