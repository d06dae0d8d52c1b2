// What a mode says to a file: its fifteen timing numbers, and the bits of MISC.
ghost use Rattle.std.specs.Prelude.{◌≡◌, ◌%◌, eqb, min};
ghost use Rattle.modes.specs.Form.{every};
ghost use Rattle.mode_file.specs.Said.{flag_bits, flag_store, clamped_said};

use file::{Effect, MISC};
use modes::Mode;
use timing::{Clocks, Scanlines, Timing};

// Each of these numbers is a multiple of 8.
#[tactic(auto, unfolding(modes::specs::Form::every))]
pub fn eights(numbers: &[u32]) -> bool
    ensures { result ≡ every (λ n. eqb (n % 8) 0) numbers.now }
{
    numbers.iter().all(|n| n % 8 == 0)
}

// A number of 16 bits; one that is larger becomes 65535, which no number of a line may be either.
fn clamped(n: u32) -> u16
    ensures { result ≡ min n 65535 }
{
    n.min(65535) as u16
}

// The fifteen numbers of a mode. Eight pixels are a character clock.
pub fn timing_said(numbers: [u32; 8]) -> Timing
    ensures { result ≡ clamped_said numbers }
{
    let display = clamped(numbers[0] / 8);
    let total = clamped(numbers[3] / 8);
    let lines = clamped(numbers[4]);
    let all_lines = clamped(numbers[7]);
    Timing {
        h_total: Clocks(total),
        h_display: Clocks(display),
        h_blank_start: Clocks(display),
        h_blank_end: Clocks(total),
        h_sync_start: Clocks(clamped(numbers[1] / 8)),
        h_sync_end: Clocks(clamped(numbers[2] / 8)),
        v_total: Scanlines(all_lines),
        v_display: Scanlines(lines),
        v_blank_start: Scanlines(lines),
        v_blank_end: Scanlines(all_lines),
        v_sync_start: Scanlines(clamped(numbers[5])),
        v_sync_end: Scanlines(clamped(numbers[6])),
        line_compare: Scanlines(1023),
        offset: display,
        screen_start: 0,
    }
}

// MISC[6] and [7]: 1 is minus. Four numbers, as `mode_text` has four texts: what they have in common is the match.
#[tactic(auto, unfolding(crate::specs::Said::flag_bits))]
fn flag_bits(h_minus: bool, v_minus: bool) -> u16
    ensures { result ≡ flag_bits h_minus v_minus }
{
    match (h_minus, v_minus) {
        (true, true) => 0xC0,
        (true, false) => 0x40,
        (false, true) => 0x80,
        (false, false) => 0,
    }
}

// The flags' store, by the one rule.
#[tactic(auto, unfolding(crate::specs::Said::flag_store, crate::specs::Said::flag_reach))]
pub fn flag_store(h_minus: bool, v_minus: bool) -> Effect
    ensures { result ≡ flag_store h_minus v_minus }
{
    Effect::Store {
        flips: false,
        register: MISC,
        reach: 0xC0,
        value: flag_bits(h_minus, v_minus),
    }
}
