ghost use Rattle.std.specs.Prelude.{◌≡◌, ◌<◌};
ghost use Rattle.file.specs.File.{power_on};
ghost use Rattle.file.specs.Registers.{stored_bits, stored_table};

use crate::chip::Chip;
use crate::groups::{
    core_attribute, core_crtc, core_general, core_graphics, core_sequencer, extended_crtc,
    extended_pci, extended_sequencer, v_port, video_pipeline,
};
use crate::numbered::CAPTURE_Y_START;
use crate::palette::Colour;
use crate::state::State;

// How many registers a file has, and how many entries its palette and its bank have.
pub const REGISTERS: usize = 108;

pub const PALETTE: usize = 256;

pub const BANK: usize = 16;

// The register file. The registers are those of 01's list of stored bits and then 02's V-Port registers, by their numbers; the state is everything else but the colours.
#[derive(Clone, Copy, Debug, PartialEq, Eq)]
pub struct File {
    pub registers: [u16; REGISTERS],
    pub palette: [Colour; PALETTE],
    pub bank: [Colour; BANK],
    pub state: State,
}

impl File {
    // The bits that each register stores on the 5464, by its number; the 5462 differs at 10Ch.
    pub const STORED: [u16; REGISTERS] = [
        core_general::MISC,
        core_sequencer::SRX,
        core_crtc::CRX,
        core_graphics::GRX,
        core_attribute::ARX,
        core_general::PIXEL_MASK,
        extended_pci::PCI04,
        core_sequencer::SR0,
        core_sequencer::SR1,
        core_sequencer::SR2,
        core_sequencer::SR3,
        core_sequencer::SR4,
        extended_sequencer::SR7,
        extended_sequencer::SR9,
        extended_sequencer::SRA,
        extended_sequencer::SR0B,
        extended_sequencer::SR0C,
        extended_sequencer::SR0D,
        extended_sequencer::SR0E,
        extended_sequencer::SR14,
        extended_sequencer::SR15,
        extended_sequencer::SR1B,
        extended_sequencer::SR1C,
        extended_sequencer::SR1D,
        extended_sequencer::SR1E,
        core_crtc::CR0,
        core_crtc::CR1,
        core_crtc::CR2,
        core_crtc::CR3,
        core_crtc::CR4,
        core_crtc::CR5,
        core_crtc::CR6,
        core_crtc::CR7,
        core_crtc::CR8,
        core_crtc::CR9,
        core_crtc::CRA,
        core_crtc::CRB,
        core_crtc::CRC,
        core_crtc::CRD,
        core_crtc::CRE,
        core_crtc::CRF,
        core_crtc::CR10,
        core_crtc::CR11,
        core_crtc::CR12,
        core_crtc::CR13,
        core_crtc::CR14,
        core_crtc::CR15,
        core_crtc::CR16,
        core_crtc::CR17,
        core_crtc::CR18,
        extended_crtc::CR19,
        extended_crtc::CR1A,
        extended_crtc::CR1B,
        extended_crtc::CR1D,
        extended_crtc::CR1E,
        core_graphics::GR0,
        core_graphics::GR1,
        core_graphics::GR2,
        core_graphics::GR3,
        core_graphics::GR4,
        core_graphics::GR5,
        core_graphics::GR6,
        core_graphics::GR7,
        core_graphics::GR8,
        core_attribute::AR0,
        core_attribute::AR1,
        core_attribute::AR2,
        core_attribute::AR3,
        core_attribute::AR4,
        core_attribute::AR5,
        core_attribute::AR6,
        core_attribute::AR7,
        core_attribute::AR8,
        core_attribute::AR9,
        core_attribute::ARA,
        core_attribute::ARB,
        core_attribute::ARC,
        core_attribute::ARD,
        core_attribute::ARE,
        core_attribute::ARF,
        core_attribute::AR10,
        core_attribute::AR11,
        core_attribute::AR12,
        core_attribute::AR13,
        core_attribute::AR14,
        video_pipeline::B0,
        video_pipeline::B8,
        video_pipeline::BC,
        video_pipeline::C0,
        video_pipeline::CC,
        video_pipeline::CE,
        video_pipeline::D0,
        video_pipeline::D2,
        video_pipeline::D4,
        video_pipeline::D5,
        video_pipeline::E0,
        video_pipeline::E2,
        video_pipeline::E4,
        video_pipeline::E6,
        video_pipeline::E8,
        v_port::BUFFER_0_X,
        v_port::BUFFER_1_X,
        v_port::BUFFER_0_Y,
        v_port::BUFFER_1_Y,
        v_port::CAPTURE_X_START,
        v_port::CAPTURE_X_STOP,
        v_port::CAPTURE_Y_START,
        v_port::CAPTURE_Y_STOP,
    ];

    // Every stored bit and entry 0, but for 10Ch of the 5462; the toggle at index, the pointer at address 0, write mode, red, nothing held.
    pub fn power_on(chip: Chip) -> File
        ensures { result ≡ power_on chip }
    {
        let mut registers = [0; REGISTERS];
        registers[CAPTURE_Y_START] = chip.v_port_at_power_on();
        let black = Colour {
            red: 0,
            green: 0,
            blue: 0,
        };
        File {
            registers,
            palette: [black; PALETTE],
            bank: [black; BANK],
            state: State::power_on(chip),
        }
    }

    // The stored bits of every register on a chip by value, for those who lend them: a constant that is indexed is copied first.
    pub fn stored(chip: Chip) -> [u16; REGISTERS]
        ensures { result ≡ stored_table chip }
    {
        let mut stored = File::STORED;
        stored[CAPTURE_Y_START] = chip.v_port_stored();
        stored
    }

    // The bits that a register stores on a chip, by its number; none of a number that no register has.
    pub fn stored_bits(chip: Chip, number: usize) -> u16
        ensures { result ≡ stored_bits chip number }
    {
        File::stored(chip).get(number).copied().unwrap_or(0)
    }
}
