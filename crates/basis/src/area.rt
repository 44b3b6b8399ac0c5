// One element of an area, and an area filled, cleared or copied.
ghost use Rattle.std.specs.Prelude.{◌≡◌, length, get_or, replicate, pos};
ghost use Rattle.basis.specs.Area.{cleared, cleared_z, copied};

use crate::order::lesser;

// `Area.infinity`, as a result area holds it.
pub const UNREACHABLE: i64 = 9223372036854775807;

// The number at a place, 0 past the end.
pub fn number_at(area: &[usize], i: usize) -> usize
    ensures { result ≡ get_or area.now i 0 }
{
    area.get(i).copied().unwrap_or(0)
}

// Every place gets the value.
pub fn fill<T: Copy>(area: &mut [T], value: T)
    ensures { area.new ≡ replicate (length area.old) value }
{
    for place in area {
        *place = value;
    }
}

// A number whose areas are cleared, with its zero.
pub trait Zero: Copy {
    ghost ZERO: { Self };

    const ZERO: Self;
}

impl Zero for usize {
    ghost ZERO = { 0 };

    const ZERO: usize = 0;
}

impl Zero for i64 {
    ghost ZERO = { pos 0 };

    const ZERO: i64 = 0;
}

// Every place is zero.
pub fn clear<T: Zero>(area: &mut [T])
    ensures { area.new ≡ replicate (length area.old) T.ZERO }
{
    fill(area, T::ZERO);
}

// The first n numbers of an area to the front of another, as many as both have.
pub fn copy(from: &[usize], n: usize, to: &mut [usize])
    ensures { to.new ≡ copied n from.now to.old }
{
    let most = lesser(n, lesser(from.len(), to.len()));
    for i in 0..most {
        to[i] = from[i];
    }
}
