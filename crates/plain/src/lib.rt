// A second engine, to be read along with. It walks one flat list of places (`list`) from the top for each record, and takes and hands back the file by
// value; nothing in it is made for speed. What it answers, and every file and byte that it leaves, is what `trace::run` leaves: it has that function's
// contract, and `engines` says what follows.
//
// The files in the order in which a record meets them: running, accessing, checks, walk, row, list, reading, writing; in each file the functions
// stand so too.
//
// One record through it: with CR11[7]=1, the bytes 05 01 1C 00 FF 00 00 00, an MMIO write of FFh to 1Ch, width 1.
//
// 1. `run` (running) asks whether the file is sound, and counts the replies that it will give. For each, `run_one` reads the record off its 8 bytes:
//    kind 5, width 1, address 1Ch, value FFh.
// 2. `access` (accessing) hands it to `look` (checks), which goes through 01's checks. The file is sound (12), the record is well formed (2), and PCI04[1]
//    is 1 (3). Then `find` (walk) walks the list, and the first row that is for MMIO writes, has the address 1Ch and is selected is
//        mmio  1C      RW 1   FF reg     20 CR7
//    Had no row fitted, `nothing_there` would have walked the list again to tell 16, 17 and 4 apart. The address is no port (5), and the record has the
//    row's width (6).
// 3. The kind is odd, a write, so the row goes to `write_row` (writing), as it does where kind 6 lets lines pass; else it goes to `read_row` (reading). What
//    stands there is `reg`, register 20h of the file. The lock refuses CR0 to CR6 (8) and not CR7; of CR7 it leaves bit 4 to the write, and not the row's
//    stored bits, FF. So bit 4 is taken from FFh and the others stay.
// 4. `put_reply` (of `trace`) stores the reply: code 0, kind 5, address 1Ch, value 0, that is 00 05 1C 00 00 00 00 00.
#![tactic(auto)]

mod accessing;
mod checks;
mod list;
mod reading;
mod row;
mod running;
mod told;
mod walk;
mod writing;

pub use running::run;
