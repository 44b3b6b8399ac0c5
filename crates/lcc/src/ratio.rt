// Euclid's rule, and a fraction in lowest terms.
ghost use Rattle.std.specs.Prelude.{◌≡◌};
ghost use Rattle.lcc.specs.Ratio.{gcd_of, lowest};

#[derive(Clone, Copy, Debug, PartialEq, Eq)]
pub struct Ratio {
    pub numerator: usize,
    pub denominator: usize,
}

// The greatest common divisor; that of a and 0 is a.
pub fn gcd(a: usize, b: usize) -> usize
    ensures { result ≡ gcd_of a b }
{
    if b == 0 {
        return a;
    }
    gcd(b, a % b)
}

// a / b in lowest terms. There is no 0 / 0, which stays.
pub fn reduced(a: usize, b: usize) -> Ratio
    ensures { result ≡ lowest a b }
{
    let g = gcd(a, b);
    if g == 0 {
        return Ratio {
            numerator: 0,
            denominator: 0,
        };
    }
    Ratio {
        numerator: a / g,
        denominator: b / g,
    }
}
