// The order of signed numbers, in functions of values: whoever compares identifiers calls these. And the lesser of two lengths.
// Stays: public functions beside `<`, `==` and `min`, since `less`, `same` and `lesser` promise the definitions that the laws speak of.
ghost use Rattle.std.specs.Prelude.{◌≡◌, min};
ghost use Rattle.std.specs.Int.Signed.{lt_z};
ghost use Rattle.basis.specs.Order.{same_z};

// Is the first below the second?
pub fn less(a: i64, b: i64) -> bool
    ensures { result ≡ lt_z a b }
{
    a < b
}

// Are the two the same?
pub fn same(a: i64, b: i64) -> bool
    ensures { result ≡ same_z a b }
{
    a == b
}

// The lesser of two numbers.
pub fn lesser(a: usize, b: usize) -> usize
    ensures { result ≡ min a b }
{
    a.min(b)
}
