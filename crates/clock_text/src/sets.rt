// What a register set says.
ghost use Rattle.std.specs.Prelude.{◌≡◌};
ghost use Rattle.clock_text.specs.Sets.{set_of};

use clock::{Terms, terms_of};
use file::Answer;

// What a set of three bytes says: a rate in lowest terms, or that there is none. It has a denominator byte, a numerator byte with bit 7 clear and a zero;
// anything else, and so a fragment, is refused with 2.
#[tactic(auto, unfolding(crate::specs::Sets::set_of, crate::specs::Sets::set_clock, bits::specs::Store::bit))]
pub fn set_clock(set: &[u8]) -> Result<Option<Terms>, Answer>
    ensures { result ≡ set_of set.now }
{
    let &[d, n, 0] = set else {
        return Err(Answer::Malformed);
    };
    if n >= 128 {
        return Err(Answer::Malformed);
    }
    let terms = terms_of(u16::from(d), u16::from(n));
    if terms.q == 0 {
        return Ok(None);
    }
    Ok(Some(terms))
}
