// One access as bytes: a record in, its reply out.
ghost use Rattle.std.specs.Prelude.{◌≡◌};
ghost use Rattle.trace.specs.Run.{access_bytes};

use crate::wire::{item_of, reply_bytes};
use file::File;

// The file after an access, and the 8 bytes of its reply.
#[derive(Clone, Copy)]
pub struct Replied {
    pub file: File,
    pub reply: [u8; 8],
}

// The access of the first 8 bytes; fewer are a fragment, and what stands behind them isn't looked at.
pub fn access_bytes(bytes: &[u8], whole: File) -> Replied
    ensures { result ≡ access_bytes whole bytes.now }
{
    let item = item_of(bytes);
    let done = item.access(whole);
    let file = done.file;
    let said = done.reply;
    Replied {
        file,
        reply: reply_bytes(said),
    }
}
