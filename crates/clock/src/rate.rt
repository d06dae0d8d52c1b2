// The rate that a denominator byte and a numerator byte say.
ghost use Rattle.std.specs.Prelude.{◌≡◌};
ghost use Rattle.clock.specs.Clock.{dot_clock};
ghost use Rattle.clock.specs.Clock.{denominator as denominatorOf, divisor as divisor_of, product as productOf};

pub fn denominator(d: u16) -> u32
    ensures { result ≡ denominatorOf d }
{
    u32::from(d / 2 % 128)
}

// 14,318,180 Hz times the numerator.
pub fn product(n: u16) -> u32
    ensures { result ≡ productOf n }
{
    14318180 * u32::from(n % 128)
}

// The denominator, or twice it if the post-scalar bit is set.
pub fn divisor(d: u16) -> u32
    ensures { result ≡ divisor_of d }
{
    if d % 2 == 1 {
        2 * denominator(d)
    } else {
        denominator(d)
    }
}

// The rate in Hz, or that there is none. One division, and so one rounding: both numbers are whole and below 2^32.
pub fn dot_clock(d: u16, n: u16) -> Option<f64>
    ensures { result ≡ dot_clock d n }
{
    if denominator(d) == 0 {
        return None;
    }
    Some(f64::from(product(n)) / f64::from(divisor(d)))
}
