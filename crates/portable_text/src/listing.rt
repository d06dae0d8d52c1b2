// A list of fourteen numbers, byte by byte.
ghost use Rattle.std.specs.Prelude.{◌≡◌};
ghost use Rattle.portable_text.specs.Scan.{begun, ended, stepped, with_digit, with_space};
ghost use Rattle.portable_text.specs.Numbers.{listed_in};

use portable::Timing;

// How far a list is read: how many numbers have ended, the one at hand so far if it has a digit, and those that have ended, in fixed memory.
#[derive(Clone, Copy)]
struct Scan {
    count: usize,
    value: Option<u32>,
    numbers: [u32; 14],
}

impl Scan {
    // Before the first byte.
    #[tactic(auto, unfolding(crate::specs::Scan::begun))]
    fn begun() -> Scan
        ensures { result ≡ begun }
    {
        Scan {
            count: 0,
            value: None,
            numbers: [0; 14],
        }
    }

    // A digit behind the number at hand; what is above 65,535 is held as that.
    #[tactic(auto, unfolding(crate::specs::Scan::with_digit))]
    fn with_digit(mut self, b: u8) -> Scan
        ensures { result ≡ with_digit self b }
    {
        let digit = u32::from(b.saturating_sub(b'0'));
        let before = self.value.unwrap_or(0);
        self.value = Some(before.saturating_mul(10).saturating_add(digit).min(65535));
        self
    }

    // A space ends a number that has a digit, but not the fourteenth.
    #[tactic(auto, unfolding(crate::specs::Scan::with_space, crate::specs::Scan::spaced_behind))]
    fn with_space(mut self) -> Option<Scan>
        ensures { result ≡ with_space self }
    {
        let value = self.value?;
        if self.count >= 13 {
            return None;
        }
        self.numbers[self.count] = value;
        self.count += 1;
        self.value = None;
        Some(self)
    }

    // One byte further; none where no list begins so.
    #[tactic(auto, unfolding(crate::specs::Scan::stepped, modes::specs::Form::digit))]
    fn stepped(self, b: u8) -> Option<Scan>
        ensures { result ≡ stepped self b }
    {
        match b {
            b' ' => self.with_space(),
            b'0'..=b'9' => Some(self.with_digit(b)),
            _ => None,
        }
    }

    // The end of the text ends the fourteenth number.
    #[tactic(auto, unfolding(crate::specs::Scan::ended, crate::specs::Scan::ended_behind))]
    fn ended(mut self) -> Option<Timing>
        ensures { result ≡ ended self }
    {
        let value = self.value?;
        if self.count != 13 {
            return None;
        }
        self.numbers[13] = value;
        Some(Timing::of(self.numbers))
    }
}

// The numbers of a text that is a list of fourteen, decimal, with one space between.
pub fn read_list(text: &[u8]) -> Option<Timing>
    ensures { result ≡ listed_in text.now }
{
    let mut scan = Scan::begun();
    for b in text {
        scan = scan.stepped(*b)?;
    }
    scan.ended()
}
