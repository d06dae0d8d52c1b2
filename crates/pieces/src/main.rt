// A stored trace is replayed through the reader: by one run, by runs that have places for three replies, and item by item.
#![tactic(auto)]

mod printing;
mod stored;

use file::{Chip, File, Pointer};
use printing::{print_item, print_replies};
use reader::{Reader, run_from, unread};
use std::io;
use stored::TRACE;
use trace::reply_bytes;

// One run; how many replies there are, and how many bytes are left unread.
fn at_once(rt: &impl Print, trace: &[u8], replies: &mut [u8]) -> io::Result<File> {
    let back = Reader::new(trace).run(File::power_on(Chip::Gd5464), replies);
    rt.println(back.ran.count)?;
    rt.println(unread(trace, back.ran.count).len())?;
    Ok(back.ran.file)
}

// Runs with places for three replies, each from where the one before it ended, and the position after each.
fn in_pieces(rt: &impl Print, trace: &[u8], replies: &mut [u8]) -> io::Result<File> {
    let mut file = File::power_on(Chip::Gd5464);
    let mut at = 0;
    for places in replies.chunks_mut(24) {
        if trace.len() <= at {
            break;
        }
        let after = run_from(trace, at, file, places);
        file = after.ran.file;
        at = after.at;
        rt.println(at)?;
    }
    Ok(file)
}

// One access after the other, each item printed and its reply stored.
fn item_by_item(rt: &impl Print, trace: &[u8], replies: &mut [[u8; 8]]) -> io::Result<File> {
    let mut file = File::power_on(Chip::Gd5464);
    for (place, item) in replies.iter_mut().zip(Reader::new(trace)) {
        print_item(rt, item)?;
        let done = item.access(file);
        file = done.file;
        *place = reply_bytes(done.reply);
    }
    Ok(file)
}

// A run from a file whose next colour is none: its code, its count and the position after it.
fn from_unsound(rt: &impl Print, trace: &[u8], replies: &mut [u8]) -> io::Result<()> {
    let mut file = File::power_on(Chip::Gd5464);
    let pointer = Pointer {
        address: 0,
        reading: false,
        next: 3,
        red: 0,
        green: 0,
    };
    file.state = file.state.pointing(pointer);
    let after = run_from(trace, 0, file, replies);
    rt.println(after.ran.answer.code())?;
    rt.println(after.ran.count)?;
    rt.println(after.at)
}

fn print_same(rt: &impl Print, same: bool) -> io::Result<()> {
    rt.println(if same { "same" } else { "different" })
}

fn main(rt: HostRuntime) -> io::Result<()> {
    let trace = TRACE;
    let mut whole = [0u8; 216];
    let mut parts = [0u8; 216];
    let mut singles = [[0u8; 8]; 27];
    rt.println("unsound")?;
    from_unsound(&rt, &trace, &mut whole)?;
    rt.println("at once")?;
    let first = at_once(&rt, &trace, &mut whole)?;
    print_replies(&rt, &whole)?;
    rt.println("in pieces")?;
    let second = in_pieces(&rt, &trace, &mut parts)?;
    print_replies(&rt, &parts)?;
    rt.println("item by item")?;
    let third = item_by_item(&rt, &trace, &mut singles)?;
    print_replies(&rt, singles.as_flattened())?;
    rt.println("replies")?;
    print_same(&rt, whole == parts)?;
    print_same(&rt, &whole[..] == singles.as_flattened())?;
    rt.println("files")?;
    print_same(&rt, first == second)?;
    print_same(&rt, first == third)
}
