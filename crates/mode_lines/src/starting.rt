// The file that each line is read into.
ghost use Rattle.std.specs.Prelude.{◌≡◌};
ghost use Rattle.mode_lines.specs.Start.{start_file};

use file::{CR1B, Chip, Effect, File};

// Gives the file at power-on; a `wide` one has CR1B[5]=1. Both chips have the same timing.
pub fn start_file(wide: bool) -> File
    ensures { result ≡ start_file wide }
{
    if !wide {
        return File::power_on(Chip::Gd5464);
    }
    let store = Effect::Store {
        flips: false,
        register: CR1B,
        reach: 0x20,
        value: 0x20,
    };
    store.apply(File::power_on(Chip::Gd5464))
}
