// 01's table of timing numbers, and what is done with them in a wide and in a narrow file. Each number has its own line in the functions below, since as
// a loop over one table a timing read takes 2,000 instructions and a write 4,600 (README, 'How fast': 1,000 and 2,500): place, shift and mask of each piece
// are ready when the program is compiled only where the number is a constant.
ghost use Rattle.std.specs.Prelude.{◌≡◌};
ghost use Rattle.bits.specs.Encoded.{number_of};
ghost use Rattle.bits.specs.Numbers.{end_of_last, read_numbers, all_in_range, write_numbers};
ghost use Rattle.timing.specs.Table.{number as row, h_blank_end as hBlankEnd, v_blank_end as vBlankEnd, table};

use bits::{Meaning, Number};

const H_TOTAL: Number<'static> = Number {
    meaning: Meaning::Plus(5),
    pieces: &[0x3677, 0x1970], // CR1E[7], CR0
};

const H_DISPLAY: Number<'static> = Number {
    meaning: Meaning::Plus(1),
    pieces: &[0x3666, 0x1A70], // CR1E[6], CR1
};

const H_BLANK_START: Number<'static> = Number {
    meaning: Meaning::Plus(0),
    pieces: &[0x3655, 0x1B70], // CR1E[5], CR2
};

const H_BLANK_END: Number<'static> = Number {
    meaning: Meaning::EndOfLast,
    pieces: &[0x3354, 0x1E77, 0x1C40], // CR1A[5:4], CR5[7], CR3[4:0]
};

const H_SYNC_START: Number<'static> = Number {
    meaning: Meaning::Plus(0),
    pieces: &[0x3644, 0x1D70], // CR1E[4], CR4
};

const H_SYNC_END: Number<'static> = Number {
    meaning: Meaning::EndOfLast,
    pieces: &[0x1E40], // CR5[4:0]
};

const V_TOTAL: Number<'static> = Number {
    meaning: Meaning::Plus(2),
    pieces: &[0x3633, 0x2055, 0x2000, 0x1F70], // CR1E[3], CR7[5], CR7[0], CR6
};

const V_DISPLAY: Number<'static> = Number {
    meaning: Meaning::Plus(1),
    pieces: &[0x3622, 0x2066, 0x2011, 0x2B70], // CR1E[2], CR7[6], CR7[1], CR12
};

const V_BLANK_START: Number<'static> = Number {
    meaning: Meaning::Plus(0),
    pieces: &[0x3611, 0x2255, 0x2033, 0x2E70], // CR1E[1], CR9[5], CR7[3], CR15
};

const V_BLANK_END: Number<'static> = Number {
    meaning: Meaning::EndOfLast,
    pieces: &[0x3376, 0x2F70], // CR1A[7:6], CR16
};

const V_SYNC_START: Number<'static> = Number {
    meaning: Meaning::Plus(0),
    pieces: &[0x3600, 0x2077, 0x2022, 0x2970], // CR1E[0], CR7[7], CR7[2], CR10
};

const V_SYNC_END: Number<'static> = Number {
    meaning: Meaning::EndOfLast,
    pieces: &[0x2A30], // CR11[3:0]
};

const LINE_COMPARE: Number<'static> = Number {
    meaning: Meaning::Plus(0),
    pieces: &[0x2266, 0x2044, 0x3170], // CR9[6], CR7[4], CR18
};

const OFFSET: Number<'static> = Number {
    meaning: Meaning::Plus(0),
    pieces: &[0x3444, 0x2C70], // CR1B[4], CR13
};

const SCREEN_START: Number<'static> = Number {
    meaning: Meaning::Plus(0),
    pieces: &[0x3543, 0x3432, 0x3400, 0x2570, 0x2670], // CR1D[4:3], CR1B[3:2], CR1B[0], CRC, CRD
};

// The blank ends of a narrow file, without CR1A's pieces.
const NARROW_H_BLANK_END: Number<'static> = Number {
    meaning: Meaning::EndOfLast,
    pieces: &[0x1E77, 0x1C40], // CR5[7], CR3[4:0]
};

const NARROW_V_BLANK_END: Number<'static> = Number {
    meaning: Meaning::EndOfLast,
    pieces: &[0x2F70], // CR16
};

// The blank ends: CR1A's pieces count in a wide file only. One function each, since each is another row of 01's table (`h_blank_end`, `v_blank_end`).
fn h_blank_end(wide: bool) -> Number<'static>
    ensures { number_of result ≡ row end_of_last (hBlankEnd wide) }
{
    if wide {
        H_BLANK_END
    } else {
        NARROW_H_BLANK_END
    }
}

fn v_blank_end(wide: bool) -> Number<'static>
    ensures { number_of result ≡ row end_of_last (vBlankEnd wide) }
{
    if wide {
        V_BLANK_END
    } else {
        NARROW_V_BLANK_END
    }
}

fn read_as<const WIDE: bool>(registers: &[u16]) -> [u32; 15]
    ensures { result ≡ read_numbers (table WIDE) registers.now }
{
    let h_total = H_TOTAL.read(registers, 0);
    let h_display = H_DISPLAY.read(registers, h_total);
    let h_blank_start = H_BLANK_START.read(registers, h_display);
    let h_blank_end = h_blank_end(WIDE).read(registers, h_blank_start);
    let h_sync_start = H_SYNC_START.read(registers, h_blank_end);
    let h_sync_end = H_SYNC_END.read(registers, h_sync_start);
    let v_total = V_TOTAL.read(registers, h_sync_end);
    let v_display = V_DISPLAY.read(registers, v_total);
    let v_blank_start = V_BLANK_START.read(registers, v_display);
    let v_blank_end = v_blank_end(WIDE).read(registers, v_blank_start);
    let v_sync_start = V_SYNC_START.read(registers, v_blank_end);
    let v_sync_end = V_SYNC_END.read(registers, v_sync_start);
    let line_compare = LINE_COMPARE.read(registers, v_sync_end);
    let offset = OFFSET.read(registers, line_compare);
    let screen_start = SCREEN_START.read(registers, offset);
    [
        h_total,
        h_display,
        h_blank_start,
        h_blank_end,
        h_sync_start,
        h_sync_end,
        v_total,
        v_display,
        v_blank_start,
        v_blank_end,
        v_sync_start,
        v_sync_end,
        line_compare,
        offset,
        screen_start,
    ]
}

fn are_in_range<const WIDE: bool>(numbers: &[u32; 15]) -> bool
    ensures { result ≡ all_in_range (table WIDE) numbers.now }
{
    H_TOTAL.in_range(0, numbers[0])
        & H_DISPLAY.in_range(numbers[0], numbers[1])
        & H_BLANK_START.in_range(numbers[1], numbers[2])
        & h_blank_end(WIDE).in_range(numbers[2], numbers[3])
        & H_SYNC_START.in_range(numbers[3], numbers[4])
        & H_SYNC_END.in_range(numbers[4], numbers[5])
        & V_TOTAL.in_range(numbers[5], numbers[6])
        & V_DISPLAY.in_range(numbers[6], numbers[7])
        & V_BLANK_START.in_range(numbers[7], numbers[8])
        & v_blank_end(WIDE).in_range(numbers[8], numbers[9])
        & V_SYNC_START.in_range(numbers[9], numbers[10])
        & V_SYNC_END.in_range(numbers[10], numbers[11])
        & LINE_COMPARE.in_range(numbers[11], numbers[12])
        & OFFSET.in_range(numbers[12], numbers[13])
        & SCREEN_START.in_range(numbers[13], numbers[14])
}

fn write_as<const WIDE: bool>(registers: &mut [u16], numbers: &[u32; 15])
    ensures { registers.new ≡ write_numbers (table WIDE) numbers.now registers.old }
{
    H_TOTAL.write(registers, numbers[0]);
    H_DISPLAY.write(registers, numbers[1]);
    H_BLANK_START.write(registers, numbers[2]);
    h_blank_end(WIDE).write(registers, numbers[3]);
    H_SYNC_START.write(registers, numbers[4]);
    H_SYNC_END.write(registers, numbers[5]);
    V_TOTAL.write(registers, numbers[6]);
    V_DISPLAY.write(registers, numbers[7]);
    V_BLANK_START.write(registers, numbers[8]);
    v_blank_end(WIDE).write(registers, numbers[9]);
    V_SYNC_START.write(registers, numbers[10]);
    V_SYNC_END.write(registers, numbers[11]);
    LINE_COMPARE.write(registers, numbers[12]);
    OFFSET.write(registers, numbers[13]);
    SCREEN_START.write(registers, numbers[14]);
}

// The fifteen numbers, read out of the registers.
pub fn read(wide: bool, registers: &[u16]) -> [u32; 15]
    ensures { result ≡ read_numbers (table wide) registers.now }
{
    if wide {
        read_as::<true>(registers)
    } else {
        read_as::<false>(registers)
    }
}

// Whether each of the fifteen numbers is in its range.
pub fn in_range(wide: bool, numbers: &[u32; 15]) -> bool
    ensures { result ≡ all_in_range (table wide) numbers.now }
{
    if wide {
        are_in_range::<true>(numbers)
    } else {
        are_in_range::<false>(numbers)
    }
}

// The fifteen numbers, written into their pieces.
pub fn write(wide: bool, registers: &mut [u16], numbers: &[u32; 15])
    ensures { registers.new ≡ write_numbers (table wide) numbers.now registers.old }
{
    if wide {
        write_as::<true>(registers, numbers);
    } else {
        write_as::<false>(registers, numbers);
    }
}
