// Two whole numbers in lowest terms.
ghost use Rattle.std.specs.Prelude.{◌≡◌, ◌<◌};
ghost use Rattle.clock.specs.Lowest.{common_divisor, lowest};

// p divided by q. Both are 0 where there is no rate, as `none-there` promises, and not an empty case.
#[derive(Clone, Copy, PartialEq, Eq, Default, Debug)]
pub struct Terms {
    pub p: u32,
    pub q: u32,
}

// The greatest number that divides both, by Euclid: the second and what it leaves of the first have the same common divisors. No index is
// counted: it ends where nothing is left over.
fn common_divisor(a: u32, b: u32) -> u32
    requires { 0 < b }
    ensures { result ≡ common_divisor a b }
{
    let (mut larger, mut smaller) = (a, b);
    while smaller != 0 {
        (larger, smaller) = (smaller, larger % smaller);
    }
    larger
}

// A number divided by another, in lowest terms; both 0 where the other is.
pub fn lowest_terms(a: u32, b: u32) -> Terms
    ensures { result ≡ lowest a b }
{
    if b == 0 {
        return Terms::default();
    }
    let divisor = common_divisor(a, b);
    Terms {
        p: a / divisor,
        q: b / divisor,
    }
}
