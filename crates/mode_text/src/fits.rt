// Whether a file, a name and a clock have a line.
ghost use Rattle.std.specs.Prelude.{◌≡◌, ◌&&◌, leb};
ghost use Rattle.modes.specs.Form.{every, name_byte};
ghost use Rattle.mode_text.specs.Out.{clock_fits, name_fits, numbers_out, of_form};

use modes::name_byte;
use timing::Timing;

// Each byte is one that a name may have.
#[tactic(auto, unfolding(modes::specs::Form::every))]
fn named(name: &[u8]) -> bool
    ensures { result ≡ every name_byte name.now }
{
    name.iter().all(|b| name_byte(*b))
}

// One to 32 of them.
#[tactic(auto, unfolding(crate::specs::Out::name_fits))]
fn name_fits(name: &[u8]) -> bool
    ensures { result ≡ name_fits name.now }
{
    1 <= name.len() && name.len() <= 32 && named(name)
}

#[tactic(auto, unfolding(crate::specs::Out::clock_fits))]
fn clock_fits(khz: u32) -> bool
    ensures { result ≡ clock_fits khz }
{
    1 <= khz && khz <= 999999
}

// Name and clock are of the form, and there is room for every line.
pub fn is_asked(name: &[u8], khz: u32, room: usize) -> bool
    ensures { result ≡ (name_fits name.now && clock_fits khz && leb 256 room) }
{
    name_fits(name) && clock_fits(khz) && 256 <= room
}

// The timing is what its own eight numbers say.
#[tactic(auto, unfolding(crate::specs::Out::of_form, crate::specs::Out::form_tests, modes::specs::Form::every))]
pub fn of_form(timing: Timing) -> bool
    ensures { result ≡ of_form timing }
{
    timing.h_blank_start.0 == timing.h_display.0
        && timing.h_blank_end.0 == timing.h_total.0
        && timing.v_blank_start.0 == timing.v_display.0
        && timing.v_blank_end.0 == timing.v_total.0
        && timing.line_compare.0 == 1023
        && timing.offset == timing.h_display.0
        && timing.screen_start == 0
}

// The eight numbers of a line, pixels and scanlines: eight pixels are a character clock.
#[tactic(auto, unfolding(crate::specs::Out::numbers_out))]
pub fn numbers_out(timing: Timing) -> [u32; 8]
    ensures { result ≡ numbers_out timing }
{
    [
        8 * u32::from(timing.h_display.0),
        8 * u32::from(timing.h_sync_start.0),
        8 * u32::from(timing.h_sync_end.0),
        8 * u32::from(timing.h_total.0),
        u32::from(timing.v_display.0),
        u32::from(timing.v_sync_start.0),
        u32::from(timing.v_sync_end.0),
        u32::from(timing.v_total.0),
    ]
}
