// What is counted of register sets.
ghost use Rattle.std.specs.Prelude.{◌≡◌};
ghost use Rattle.clock_text.specs.Parts.{Countable};
ghost use Rattle.clock_text.specs.Sets.{below, counting, larger, no_tally, smaller};

use clock::Terms;
use file::Answer;

// How many sets have a rate, have none and are refused, and the largest and the smallest rate, if there is one.
#[derive(Clone, Copy)]
pub struct Tally {
    pub rates: u64,
    pub nones: u64,
    pub refused: u64,
    pub largest: Option<Terms>,
    pub smallest: Option<Terms>,
}

// A rate is below another, by whole numbers.
#[tactic(auto, unfolding(crate::specs::Sets::below))]
fn is_below(a: Terms, b: Terms) -> bool
    ensures { result ≡ below a b }
{
    u64::from(a.p) * u64::from(b.q) < u64::from(b.p) * u64::from(a.q)
}

// The new rate, if the largest so far is below it or there is none.
#[tactic(auto, unfolding(crate::specs::Sets::better))]
fn larger(largest: Option<Terms>, new: Terms) -> Terms
    ensures { result ≡ larger largest new }
{
    match largest {
        Some(old) if !is_below(old, new) => old,
        _ => new,
    }
}

// The new rate, if it is below the smallest so far or there is none.
#[tactic(auto, unfolding(crate::specs::Sets::better))]
fn smaller(smallest: Option<Terms>, new: Terms) -> Terms
    ensures { result ≡ smaller smallest new }
{
    match smallest {
        Some(old) if !is_below(new, old) => old,
        _ => new,
    }
}

impl Tally {
    // Nothing is counted yet.
    #[tactic(auto, unfolding(crate::specs::Sets::no_tally))]
    pub fn none() -> Tally
        ensures { result ≡ no_tally }
    {
        Tally {
            rates: 0,
            nones: 0,
            refused: 0,
            largest: None,
            smallest: None,
        }
    }

    // One set more; each count has room for it.
    #[tactic(auto, unfolding(crate::specs::Sets::counting))]
    pub(crate) fn counting(mut self, clock: Result<Option<Terms>, Answer>) -> Tally
        requires { Countable self 1 }
        ensures { result ≡ counting self clock }
    {
        match clock {
            Ok(Some(terms)) => {
                self.rates += 1;
                self.largest = Some(larger(self.largest, terms));
                self.smallest = Some(smaller(self.smallest, terms));
            }
            Ok(None) => self.nones += 1,
            Err(_) => self.refused += 1,
        }
        self
    }
}
