// Whether two files are of one chip.
ghost use Rattle.std.specs.Prelude.{◌≡◌};
ghost use Rattle.file.specs.Chips.{same_chip};

use file::File;

// The two files are of one chip.
#[tactic(auto, unfolding(file::specs::Chips::same_chip))]
pub fn on_one_chip(current: File, wanted: File) -> bool
    ensures { result ≡ same_chip current.state.chip wanted.state.chip }
{
    current.state.chip == wanted.state.chip
}
