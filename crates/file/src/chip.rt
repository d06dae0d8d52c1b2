ghost use Rattle.std.specs.Prelude.{◌≡◌};
ghost use Rattle.file.specs.Chips.{pci02, v_port_shown, v_port_at_power_on};
ghost use Rattle.file.specs.Names.{capture_ystart};
ghost use Rattle.file.specs.Registers.{stored_bits};

use crate::groups::v_port;

// The chip that a file is of, chosen when it is made. No access changes it.
#[derive(Clone, Copy, Debug, PartialEq, Eq)]
pub enum Chip {
    Gd5462,
    Gd5464,
}

// Each function is one fact that the rules tell of a chip, with a definition of its own (`file/specs/Chips.antt`).
impl Chip {
    // What PCI02 reads.
    pub fn device_id(self) -> u16
        ensures { result ≡ pci02 self }
    {
        match self {
            Chip::Gd5462 => 0x00D0,
            Chip::Gd5464 => 0x00D4,
        }
    }

    // The bits of 10Ch that read 1, whatever is stored.
    pub fn v_port_shown(self) -> u16
        ensures { result ≡ v_port_shown self }
    {
        match self {
            Chip::Gd5462 => 0x0C00,
            Chip::Gd5464 => 0x0000,
        }
    }

    // What 10Ch stores at power-on.
    pub fn v_port_at_power_on(self) -> u16
        ensures { result ≡ v_port_at_power_on self }
    {
        match self {
            Chip::Gd5462 => 0x0090,
            Chip::Gd5464 => 0x0000,
        }
    }

    // The bits that 10Ch stores: it is V-Port Control on the 5462 and Capture Y Start on the 5464.
    pub fn v_port_stored(self) -> u16
        ensures { result ≡ stored_bits self capture_ystart }
    {
        match self {
            Chip::Gd5462 => v_port::V_PORT_CONTROL,
            Chip::Gd5464 => v_port::CAPTURE_Y_START,
        }
    }
}
