// For bench/run: one access by value, some hundred times, with both spaces on. Words: `access` and a digit for the hundreds. The number that it prints hangs on
// all that it did. It is a program of its own: beside another caller the compiler lays out a run in another way.
#![tactic(auto)]

use access::Record;
use file::{Chip, File};
use std::io;
use std::rt::Env;

// A sum that hangs on the order. `measured` has the same one: no library crate has a use for it that both could share.
fn mix(sum: u64, more: u64) -> u64 {
    (sum % 0x1_0000_0000) * 31 + more % 0x1_0000_0000
}

// Power-on, with ports and MMIO on.
fn opened() -> File {
    let on = Record {
        kind: 1,
        width: 2,
        address: 4,
        value: 3,
    };
    on.access(File::power_on(Chip::Gd5464)).file
}

// A write of SRX by its port, each into the file that the one before left.
fn access_many(file: File, times: u64) -> u64 {
    let mut current = file;
    let mut sum = 0;
    for _ in 0..times {
        let asked = Record {
            kind: 3,
            width: 1,
            address: 0x3C4,
            value: 5,
        };
        let done = asked.access(current);
        current = done.file;
        sum = mix(sum, u64::from(done.answer.code()));
    }
    sum
}

fn main(rt: HostRuntime) -> io::Result<()> {
    let mut word = [0u8; 16];
    let _ = rt.arg(2, &mut word);
    let times = u64::from(word[0]) % 16 * 100;
    rt.println(access_many(opened(), times))
}
