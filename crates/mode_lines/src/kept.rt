// Bytes laid one behind the other in a buffer.
ghost use Rattle.io.specs.Counts.{IsPrefixLen};
ghost use Rattle.mode_lines.specs.Kept.{Kept};

// Bytes behind so many that stand at a buffer's start, as many as it has room for; how many stand there then.
pub fn keep(buffer: &mut [u8], count: usize, bytes: &[u8]) -> usize
    ensures kept { Kept buffer.old count bytes.now buffer.new result }
    ensures prefix_len { IsPrefixLen result buffer.new }
{
    let at = count.min(buffer.len());
    let size = bytes.len().min(buffer.len() - at);
    buffer[at..at + size].copy_from_slice(&bytes[..size]);
    at + size
}
