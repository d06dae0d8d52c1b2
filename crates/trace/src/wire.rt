// Records and replies as bytes: 8 each, little-endian.
ghost use Rattle.std.specs.Prelude.{◌≡◌, ◌++◌, ◌+◌, ◌*◌, ◌/◌, ◌%◌, ◌<◌, ◌≤◌, length, get_or, take, drop};
ghost use Rattle.quick.specs.Slots.{by_the_key};
ghost use Rattle.trace.specs.Records.{four as fourOf, record_of, bytes_of, reply_bytes, item_of};

use access::{Item, Record, Reply};

// A byte; one that is missing counts as zero.
fn byte_at(bytes: &[u8], at: usize) -> u8
    ensures { result ≡ get_or bytes.now at 0 }
{
    if at < bytes.len() { bytes[at] } else { 0 }
}

// The number of two bytes and of four, the low one first. Four bytes as one flat sum compile to one load.
pub fn two(low: u8, high: u8) -> u16
    ensures { result ≡ low + 256 * high }
{
    low as u16 + 256 * (high as u16)
}

fn four(a: u8, b: u8, c: u8, d: u8) -> u32
    ensures { result ≡ a + 256 * b + 65536 * c + 16777216 * d }
{
    a as u32 + 256 * (b as u32) + 65536 * (c as u32) + 16777216 * (d as u32)
}

// The record of the first 8 bytes; a missing one counts as zero, and what stands behind them isn't looked at.
pub fn record_of(bytes: &[u8]) -> Record
    ensures { result ≡ record_of (take 8 bytes.now) }
{
    let address = two(byte_at(bytes, 2), byte_at(bytes, 3));
    let value = four(
        byte_at(bytes, 4),
        byte_at(bytes, 5),
        byte_at(bytes, 6),
        byte_at(bytes, 7),
    );
    Record {
        kind: byte_at(bytes, 0),
        width: byte_at(bytes, 1),
        address,
        value,
    }
}

// The same, with the mark of a fragment.
pub fn item_of(bytes: &[u8]) -> Item
    ensures { result ≡ item_of (take 8 bytes.now) }
{
    let record = record_of(bytes);
    if bytes.len() < 8 {
        Item::Fragment(record)
    } else {
        Item::Whole(record)
    }
}

// The number of four bytes from a place on.
pub fn four_at(bytes: &[u8], at: usize) -> u32
    requires { at + 4 ≤ length bytes.now }
    ensures { result ≡ fourOf bytes.now at }
{
    four(bytes[at], bytes[at + 1], bytes[at + 2], bytes[at + 3])
}

// The record of its first four bytes, as one number, and its value.
pub fn record_by(key: u32, value: u32) -> Record
    ensures { result ≡ by_the_key key value }
{
    Record {
        kind: (key % 256) as u8,
        width: (key / 256 % 256) as u8,
        address: (key / 65536) as u16,
        value,
    }
}

// A record's 8 bytes.
pub fn record_bytes(asked: Record) -> [u8; 8]
    ensures { result ≡ bytes_of asked }
{
    [
        asked.kind,
        asked.width,
        (asked.address % 256) as u8,
        (asked.address / 256) as u8,
        (asked.value % 256) as u8,
        (asked.value / 256 % 256) as u8,
        (asked.value / 65536 % 256) as u8,
        (asked.value / 16777216) as u8,
    ]
}

// A reply's 8 bytes.
pub fn reply_bytes(reply: Reply) -> [u8; 8]
    ensures { result ≡ reply_bytes reply }
{
    [
        reply.code,
        reply.kind,
        (reply.address % 256) as u8,
        (reply.address / 256) as u8,
        (reply.value % 256) as u8,
        (reply.value / 256) as u8,
        0,
        0,
    ]
}

// The reply to a record, by its first four bytes as one number, from a place of a buffer on, which has room for it.
pub fn put_said(replies: &mut [u8], at: usize, key: u32, code: u8, value: u16)
    requires { at + 8 ≤ length replies.old }
    ensures { replies.new ≡ take at replies.old ++ reply_bytes (record { code = code; kind = key % 256; address = key / 65536; value = value }) ++ drop (at + 8) replies.old }
{
    replies[at] = code;
    replies[at + 1] = (key % 256) as u8;
    replies[at + 2] = (key / 65536 % 256) as u8;
    replies[at + 3] = (key / 65536 / 256) as u8;
    replies[at + 4] = (value % 256) as u8;
    replies[at + 5] = (value / 256) as u8;
    replies[at + 6] = 0;
    replies[at + 7] = 0;
}

// The same of any place, where there is room for it.
pub fn put_reply(replies: &mut [u8], at: usize, asked: Record, code: u8, value: u16)
    ensures replies_after { at + 8 ≤ length replies.old → replies.new ≡ take at replies.old ++ reply_bytes (record { code = code; kind = asked.kind; address = asked.address; value = value }) ++ drop (at + 8) replies.old }
    ensures replies_unchanged { length replies.old < at + 8 → replies.new ≡ replies.old }
{
    let size = replies.len();
    if size < 8 {
        return;
    }
    if size - 8 < at {
        return;
    }
    let key = asked.kind as u32 + 65536 * (asked.address as u32);
    put_said(replies, at, key, code, value);
}
