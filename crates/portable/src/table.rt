// Table 9-1 of source document 004, and what is done with the fourteen numbers by it.
ghost use Rattle.std.specs.Prelude.{◌≡◌, length};
ghost use Rattle.bits.specs.Numbers.{read_numbers, all_in_range, write_numbers};
ghost use Rattle.portable.specs.Table.{table};

use crate::lent::{narrow, widen};
use bits::{Meaning, Number, all_in_range, read_numbers, write_numbers};

const NUMBERS: [Number<'static>; 14] = [
    // H total
    Number {
        meaning: Meaning::Plus(5),
        pieces: &[0x0070], // CR0
    },
    // H display
    Number {
        meaning: Meaning::Plus(1),
        pieces: &[0x0170], // CR1
    },
    // H blank start
    Number {
        meaning: Meaning::Plus(0),
        pieces: &[0x0270], // CR2
    },
    // H blank end
    Number {
        meaning: Meaning::EndOfLast,
        pieces: &[0x1A54, 0x0577, 0x0340], // CR1A[5:4], CR5[7], CR3[4:0]
    },
    // H sync start
    Number {
        meaning: Meaning::Plus(0),
        pieces: &[0x0470], // CR4
    },
    // H sync end
    Number {
        meaning: Meaning::EndOfLast,
        pieces: &[0x0540], // CR5[4:0]
    },
    // V total
    Number {
        meaning: Meaning::Plus(2),
        pieces: &[0x0755, 0x0700, 0x0670], // CR7[5], CR7[0], CR6
    },
    // V display
    Number {
        meaning: Meaning::Plus(1),
        pieces: &[0x0766, 0x0711, 0x1270], // CR7[6], CR7[1], CR12
    },
    // V blank start
    Number {
        meaning: Meaning::Plus(0),
        pieces: &[0x0955, 0x0733, 0x1570], // CR9[5], CR7[3], CR15
    },
    // V blank end
    Number {
        meaning: Meaning::EndOfLast,
        pieces: &[0x1A76, 0x1670], // CR1A[7:6], CR16
    },
    // V sync start
    Number {
        meaning: Meaning::Plus(0),
        pieces: &[0x0777, 0x0722, 0x1070], // CR7[7], CR7[2], CR10
    },
    // V sync end
    Number {
        meaning: Meaning::EndOfLast,
        pieces: &[0x1130], // CR11[3:0]
    },
    // Line compare
    Number {
        meaning: Meaning::Plus(0),
        pieces: &[0x0966, 0x0744, 0x1870], // CR9[6], CR7[4], CR18
    },
    // Offset
    Number {
        meaning: Meaning::Plus(0),
        pieces: &[0x1B44, 0x1370], // CR1B[4], CR13
    },
];

// The fourteen numbers, read out of 28 bytes.
pub fn read(bytes: &[u8], numbers: &mut [u32])
    requires bytes_len { length bytes.now ≡ 28 }
    requires numbers_len { length numbers.old ≡ 14 }
    ensures { numbers.new ≡ read_numbers table bytes.now }
{
    let mut registers = [0u16; 28];
    widen(bytes, &mut registers);
    read_numbers(&NUMBERS, &registers, numbers);
}

// Whether each of the fourteen numbers is in its range.
pub fn in_range(numbers: &[u32]) -> bool
    ensures { result ≡ all_in_range table numbers.now }
{
    all_in_range(&NUMBERS, numbers)
}

// The fourteen numbers, written into their pieces of 28 bytes.
pub fn write(bytes: &mut [u8], numbers: &[u32])
    requires { length bytes.old ≡ 28 }
    ensures { bytes.new ≡ write_numbers table numbers.now bytes.old }
{
    let mut registers = [0u16; 28];
    widen(bytes, &mut registers);
    write_numbers(&NUMBERS, &mut registers, numbers);
    narrow(&registers, bytes);
}
