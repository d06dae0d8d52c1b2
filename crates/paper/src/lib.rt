// The start of 01's worked examples, made by the file type's power-on constructor and its mask constants.
#![tactic(auto)]

ghost use Rattle.std.specs.Prelude.{◌≡◌};
ghost use Rattle.paper.specs.Examples.{set_register, started, opened as openedSettings};

use file::{Chip, File, PCI04, REGISTERS};

// A register set by its mask constant on the file's chip; a number that no register has changes nothing.
pub fn set_register(file: File, number: usize, value: u16) -> File
    ensures { result ≡ set_register number value file }
{
    let mut set = file;
    let state = file.state;
    let chip = state.chip;
    if number < REGISTERS {
        let old = set.registers[number];
        set.registers[number] = bits::store(File::stored_bits(chip, number), old, value);
    }
    set
}

// 'From power-on with PCI04=0003h unless said.'
pub fn opened(chip: Chip) -> File
    ensures { result ≡ started chip openedSettings }
{
    set_register(File::power_on(chip), PCI04, 0x0003)
}
