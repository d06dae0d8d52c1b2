use file::File;
use plan::ShortAnswer;
use restoring::Restored;
use touched::Touched;

// How many records the plan of a restore by a short plan has, or its refusal; the file that the run ends in, and the set after it, which is empty. A refusal leaves both, so
// they stand beside the Result.
#[derive(Clone, Copy)]
pub struct ShortRestored {
    pub count: Result<usize, ShortAnswer>,
    pub file: File,
    pub touched: Touched,
}

// A restore by the full plan, and the set after it.
#[derive(Clone, Copy)]
pub struct RestoreNoted {
    pub done: Restored,
    pub touched: Touched,
}
