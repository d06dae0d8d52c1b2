// A record of a trace: 8 bytes, little-endian. The kind is 0 or 1 config read or write, 2 or 3 port, 4 or 5 MMIO; 6 lets so many lines pass as the value
// says. It is a number and no enum, since any byte may stand in a lent trace: code 2 is for those over 6.
#[derive(Clone, Copy)]
pub struct Record {
    pub kind: u8,
    pub width: u8,
    pub address: u16,
    pub value: u32,
}

// What stands next in a trace: a whole record, or a last fragment, its missing bytes taken as zero. Both have a record, so it is no `Option`.
#[derive(Clone, Copy)]
pub enum Item {
    Whole(Record),
    Fragment(Record),
}

// A reply: 8 bytes, of which the last two are zero. The kind is copied, whatever byte it is, and the code is as 01 numbers it.
#[derive(Clone, Copy)]
pub struct Reply {
    pub code: u8,
    pub kind: u8,
    pub address: u16,
    pub value: u16,
}
