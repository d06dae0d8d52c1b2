// Registers with their roads, one a row. A row's hexadecimal digits: kind, width, three of the address, three of the port
// that selects an index (000: none), two of the index, two of the register's number.
ghost use Rattle.std.specs.Prelude.{◌≡◌, [], ◌∷◌, map, ◌+◌, ◌*◌, ◌≤◌, length, get_or};
ghost use Rattle.plan.specs.Appended.{Appended};
ghost use Rattle.plan.specs.EngineRows.{index_port, index_by, road_of};
ghost use Rattle.roads.specs.Roads.{register_roads, closing_roads};
ghost use Rattle.roads.specs.RoadRecords.{selecting, along};

use crate::records::{port_write, put};
use access::Record;

// How many registers nothing else waits for.
const PLAIN: usize = 99;

const REGISTER_ROWS: [u64; PLAIN] = [
    0x5_1_0A0_000_00_05, // pixel mask
    0x5_1_000_000_00_19, // CR0
    0x5_1_004_000_00_1A, // CR1
    0x5_1_008_000_00_1B, // CR2
    0x5_1_00C_000_00_1C, // CR3
    0x5_1_010_000_00_1D, // CR4
    0x5_1_014_000_00_1E, // CR5
    0x5_1_018_000_00_1F, // CR6
    0x5_1_01C_000_00_20, // CR7
    0x5_1_020_000_00_21, // CR8
    0x5_1_024_000_00_22, // CR9
    0x5_1_028_000_00_23, // CRA
    0x5_1_02C_000_00_24, // CRB
    0x5_1_030_000_00_25, // CRC
    0x5_1_034_000_00_26, // CRD
    0x5_1_038_000_00_27, // CRE
    0x5_1_03C_000_00_28, // CRF
    0x5_1_040_000_00_29, // CR10
    0x5_1_048_000_00_2B, // CR12
    0x5_1_04C_000_00_2C, // CR13
    0x5_1_050_000_00_2D, // CR14
    0x5_1_054_000_00_2E, // CR15
    0x5_1_058_000_00_2F, // CR16
    0x5_1_05C_000_00_30, // CR17
    0x5_1_060_000_00_31, // CR18
    0x5_1_064_000_00_32, // CR19
    0x5_1_06C_000_00_34, // CR1B
    0x5_1_074_000_00_35, // CR1D
    0x5_1_078_000_00_36, // CR1E
    0x5_1_0B8_000_00_56, // B8
    0x5_1_0BC_000_00_57, // BC
    0x5_2_0C0_000_00_58, // C0
    0x5_2_0CC_000_00_59, // CC
    0x5_2_0CE_000_00_5A, // CE
    0x5_2_0D0_000_00_5B, // D0
    0x5_2_0D2_000_00_5C, // D2
    0x5_1_0D4_000_00_5D, // D4
    0x5_1_0D5_000_00_5E, // D5
    0x5_2_0E0_000_00_5F, // E0
    0x5_2_0E2_000_00_60, // E2
    0x5_2_0E4_000_00_61, // E4
    0x5_2_0E6_000_00_62, // E6
    0x5_2_0E8_000_00_63, // E8
    0x5_2_100_000_00_64, // 100
    0x5_2_102_000_00_65, // 102
    0x5_2_104_000_00_66, // 104
    0x5_2_106_000_00_67, // 106
    0x5_2_108_000_00_68, // 108
    0x5_2_10A_000_00_69, // 10A
    0x5_2_10C_000_00_6A, // 10C
    0x5_2_10E_000_00_6B, // 10E
    0x3_1_3C5_3C4_00_07, // SR0
    0x3_1_3C5_3C4_01_08, // SR1
    0x3_1_3C5_3C4_02_09, // SR2
    0x3_1_3C5_3C4_03_0A, // SR3
    0x3_1_3C5_3C4_04_0B, // SR4
    0x3_1_3C5_3C4_07_0C, // SR7
    0x3_1_3C5_3C4_09_0D, // SR9
    0x3_1_3C5_3C4_0A_0E, // SRA
    0x3_1_3C5_3C4_0B_0F, // SR0B
    0x3_1_3C5_3C4_0C_10, // SR0C
    0x3_1_3C5_3C4_0D_11, // SR0D
    0x3_1_3C5_3C4_0E_12, // SR0E
    0x3_1_3C5_3C4_14_13, // SR14
    0x3_1_3C5_3C4_15_14, // SR15
    0x3_1_3C5_3C4_1B_15, // SR1B
    0x3_1_3C5_3C4_1C_16, // SR1C
    0x3_1_3C5_3C4_1D_17, // SR1D
    0x3_1_3C5_3C4_1E_18, // SR1E
    0x3_1_3CF_3CE_00_37, // GR0
    0x3_1_3CF_3CE_01_38, // GR1
    0x3_1_3CF_3CE_02_39, // GR2
    0x3_1_3CF_3CE_03_3A, // GR3
    0x3_1_3CF_3CE_04_3B, // GR4
    0x3_1_3CF_3CE_05_3C, // GR5
    0x3_1_3CF_3CE_06_3D, // GR6
    0x3_1_3CF_3CE_07_3E, // GR7
    0x3_1_3CF_3CE_08_3F, // GR8
    0x3_1_3C0_3C0_00_40, // AR0
    0x3_1_3C0_3C0_01_41, // AR1
    0x3_1_3C0_3C0_02_42, // AR2
    0x3_1_3C0_3C0_03_43, // AR3
    0x3_1_3C0_3C0_04_44, // AR4
    0x3_1_3C0_3C0_05_45, // AR5
    0x3_1_3C0_3C0_06_46, // AR6
    0x3_1_3C0_3C0_07_47, // AR7
    0x3_1_3C0_3C0_08_48, // AR8
    0x3_1_3C0_3C0_09_49, // AR9
    0x3_1_3C0_3C0_0A_4A, // ARA
    0x3_1_3C0_3C0_0B_4B, // ARB
    0x3_1_3C0_3C0_0C_4C, // ARC
    0x3_1_3C0_3C0_0D_4D, // ARD
    0x3_1_3C0_3C0_0E_4E, // ARE
    0x3_1_3C0_3C0_0F_4F, // ARF
    0x3_1_3C0_3C0_10_50, // AR10
    0x3_1_3C0_3C0_11_51, // AR11
    0x3_1_3C0_3C0_12_52, // AR12
    0x3_1_3C0_3C0_13_53, // AR13
    0x3_1_3C0_3C0_14_54, // AR14
];

const CLOSING_ROWS: [u64; 4] = [
    0x5_1_0B0_000_00_55, // B0
    0x5_1_068_000_00_33, // CR1A
    0x5_1_044_000_00_2A, // CR11
    0x1_2_004_000_00_06, // PCI04
];

// The registers that nothing else waits for.
pub fn register_rows() -> [u64; PLAIN]
    ensures { map road_of result ≡ register_roads }
{
    REGISTER_ROWS
}

// What stood open while the plan ran; PCI04 last.
pub fn closing_rows() -> [u64; 4]
    ensures { map road_of result ≡ closing_roads }
{
    CLOSING_ROWS
}

// What a register holds; 0 for a number that no register has.
pub fn held(registers: &[u16], number: usize) -> u32
    ensures { result ≡ get_or registers.now number 0 }
{
    registers.get(number).map_or(0, |word| u32::from(*word))
}

// A port that selects an index.
#[tactic(auto, unfolding(crate::specs::EngineRows::index_port))]
fn is_index_port(port: u16) -> bool
    ensures { result ≡ index_port port }
{
    port == 0x3C4 || port == 0x3CE || port == 0x3C0
}

// Selects an index, if the port is one that does.
fn put_index(port: u16, index: u32, buffer: &mut [u8], at: usize) -> usize
    requires { at + 8 * length (selecting (index_by port index)) ≤ length buffer.old }
    ensures { Appended buffer.old at (selecting (index_by port index)) buffer.new result }
{
    if is_index_port(port) {
        return port_write(port, index, buffer, at);
    }
    at
}

// The register of a row.
pub fn put_register(row: u64, registers: &[u16], buffer: &mut [u8], at: usize) -> usize
    requires { at + 8 * length (along registers.now (road_of row ∷ [])) ≤ length buffer.old }
    ensures { Appended buffer.old at (along registers.now (road_of row ∷ [])) buffer.new result }
{
    let port = (row / 0x1_0000 % 0x1000) as u16;
    let at = put_index(port, (row / 0x100 % 0x100) as u32, buffer, at);
    let written = Record {
        kind: (row / 0x1000_0000_0000 % 0x100) as u8,
        width: (row / 0x100_0000_0000 % 0x10) as u8,
        address: (row / 0x1000_0000 % 0x1000) as u16,
        value: held(registers, (row % 0x100) as usize),
    };
    put(written, buffer, at)
}

// The registers of some rows.
pub fn put_registers(rows: &[u64], registers: &[u16], buffer: &mut [u8], at: usize) -> usize
    requires { at + 8 * length (along registers.now (map road_of rows.now)) ≤ length buffer.old }
    ensures { Appended buffer.old at (along registers.now (map road_of rows.now)) buffer.new result }
{
    let mut at = at;
    for row in rows {
        at = put_register(*row, registers, buffer, at);
    }
    at
}
