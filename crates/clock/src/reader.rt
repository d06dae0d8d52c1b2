// The dot clock of a register file.
ghost use Rattle.std.specs.Prelude.{◌≡◌};
ghost use Rattle.clock.specs.Clock.{read_clock, terms_of};

use crate::rate::{denominator, divisor, dot_clock, product};
use crate::terms::{Terms, lowest_terms};
use file::{Answer, File, MISC, is_sound};

// The first of the four denominators with post-scalars, and of the four numerators.
const SR0B: usize = 15;

const SR1B: usize = 21;

// What the selected clock's registers say: the rate, and beside it the two whole numbers.
// No `Result`: of a file that isn't sound `clock-unsound` promises 12 with no rate and both numbers 0.
#[derive(Clone, Copy)]
pub struct ClockRead {
    pub answer: Answer,
    pub clock: Option<f64>,
    pub terms: Terms,
}

// Gives the two whole numbers of the denominator byte `d` and the numerator byte `n`, in lowest terms; both 0 where there is no rate. That is asked
// first: the product and the divisor are worked out for a rate alone.
pub fn terms_of(d: u16, n: u16) -> Terms
    ensures { result ≡ terms_of d n }
{
    if denominator(d) == 0 {
        return Terms::default();
    }
    lowest_terms(product(n), divisor(d))
}

// The dot clock that MISC[3:2] selects.
pub fn clock(file: File) -> ClockRead
    ensures { result ≡ read_clock file }
{
    if !is_sound(file) {
        return ClockRead {
            answer: Answer::NotSound,
            clock: None,
            terms: Terms::default(),
        };
    }
    let selected = usize::from(file.registers[MISC] / 4 % 4);
    let d = file.registers[SR0B + selected];
    let n = file.registers[SR1B + selected];
    ClockRead {
        answer: Answer::Done(0),
        clock: dot_clock(d, n),
        terms: terms_of(d, n),
    }
}
