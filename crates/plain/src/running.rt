// A run over a trace: record by record, each reply into the next place of the buffer.
ghost use Rattle.std.specs.Prelude.{◌≡◌, ◌++◌, ◌+◌, ◌*◌, ◌/◌, ◌<◌, ◌≤◌, min, length, take, drop};
ghost use Rattle.access.specs.Access.{access_item, record_in, reply_to};
ghost use Rattle.trace.specs.Records.{item_of, reply_bytes};
ghost use Rattle.trace.specs.Run.{run as run_of};

use crate::accessing::access_item;
use file::{Answer, File, is_sound};
use trace::{Ran, item_of, put_reply, record_of};

// The whole run. Its contract is that of `trace::run`.
pub fn run(whole: File, trace: &[u8], replies: &mut [u8]) -> Ran
    ensures answer_value { (result.answer ≡ (run_of whole trace.now replies.old).answer) × (result.file ≡ (run_of whole trace.now replies.old).file) × (result.count ≡ (run_of whole trace.now replies.old).count) }
    ensures replies_after { replies.new ≡ (run_of whole trace.now replies.old).buffer }
{
    if !is_sound(whole) {
        return Ran {
            answer: Answer::NotSound,
            file: whole,
            count: 0,
        };
    }
    let count = reply_count(trace.len(), replies.len());
    let mut file = whole;
    // By number: it says where the record stands and where its reply goes.
    for n in 0..count {
        file = run_one(file, trace, replies, n);
    }
    Ran {
        answer: Answer::Done(0),
        file,
        count,
    }
}

// How many replies there are: until records or places end. A fragment counts as one record.
fn reply_count(trace: usize, replies: usize) -> usize
    ensures { result ≡ min ((trace + 7) / 8) (replies / 8) }
{
    trace.div_ceil(8).min(replies / 8)
}

// The record of a number, accessed, and its reply stored: gives the file after it.
fn run_one(whole: File, trace: &[u8], replies: &mut [u8], n: usize) -> File
    requires { (8 * n < length trace.now) × (8 * n + 8 ≤ length replies.old) }
    ensures value { result ≡ (access_item whole (item_of (take 8 (drop (8 * n) trace.now)))).file }
    ensures replies_after { replies.new ≡ take (8 * n) replies.old ++ reply_bytes (reply_to (record_in (item_of (take 8 (drop (8 * n) trace.now)))) (access_item whole (item_of (take 8 (drop (8 * n) trace.now)))).answer) ++ drop (8 * n + 8) replies.old }
{
    let at = 8 * n;
    let left = &trace[at..];
    let told = access_item(item_of(left), whole);
    let answer = told.answer;
    put_reply(replies, at, record_of(left), answer.code(), answer.value());
    told.file
}
