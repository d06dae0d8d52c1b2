// Lines on the standard output.
use access::Item;
use std::io;
use trace::record_bytes;

// The replies of a trace of 26 items, each by its number, code and value.
pub fn print_replies(rt: &impl Print, replies: &[u8]) -> io::Result<()> {
    for (number, reply) in replies.chunks_exact(8).take(26).enumerate() {
        let code = reply[0];
        let high = reply[5];
        let low = reply[4];
        println!(rt; "{number} {code} {high:02x}{low:02x}")?;
    }
    Ok(())
}

fn print_bytes(rt: &impl Print, bytes: [u8; 8]) -> io::Result<()> {
    for byte in bytes {
        print!(rt; "{byte:02x}")?;
    }
    rt.println("")
}

// The bytes of an item's record, encoded anew.
pub fn print_item(rt: &impl Print, item: Item) -> io::Result<()> {
    match item {
        Item::Whole(asked) => print_bytes(rt, record_bytes(asked)),
        Item::Fragment(asked) => {
            rt.print("fragment ")?;
            print_bytes(rt, record_bytes(asked))
        }
    }
}
