// The classes of slots, by what may refuse them before their place is asked, and the code for each in a file of these registers.
ghost use Rattle.std.specs.Prelude.{◌≡◌, cond};
ghost use Rattle.quick.specs.Classes.{codes_of};

use file::{MISC, PCI04, REGISTERS};

pub const CLASSES: usize = 8;

fn code_where(off: bool, code: u8, otherwise: u8) -> u8
    ensures { result ≡ cond off code otherwise }
{
    if off { code } else { otherwise }
}

// Config space; ports; those of 3B?h, and of 3D?h; MMIO.
pub fn codes_of(registers: &[u16; REGISTERS]) -> [u8; CLASSES]
    ensures { result ≡ codes_of registers.now }
{
    let enables = registers[PCI04];
    let ports = enables % 2 == 0;
    let mmio = enables / 2 % 2 == 0;
    let colour = registers[MISC] % 2 == 1;
    [
        0,
        code_where(ports, 3, 0),
        code_where(ports, 3, code_where(colour, 5, 0)),
        code_where(ports, 3, code_where(colour, 0, 5)),
        code_where(mmio, 3, 0),
        0,
        0,
        0,
    ]
}
