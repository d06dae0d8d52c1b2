// The three lines of a file.
ghost use Rattle.std.specs.Prelude.{◌≤◌, length};
ghost use Rattle.geometry.specs.Geometry.{read_geometry};
ghost use Rattle.text.specs.Lent.{Lined, Wrote};
ghost use Rattle.job_geometry.specs.GeometryText.{geometry_answer, geometry_most, geometry_text};

use crate::lines::{put_capture, put_cursor, put_window};
use file::File;
use geometry::{Geometry, read_geometry};
use text::Placed;

// Puts the three lines of `read` at the start of `out`, which has room for them. Gives where they end.
fn put_lines(read: Geometry, out: &mut [u8]) -> usize
    requires { geometry_most ≤ length out.old }
    ensures wrote { Wrote out.old 0 (geometry_text read) out.new result }
    ensures read_len_bound { length (geometry_text read) ≤ geometry_most }
{
    let at = put_cursor(read.cursor, out, 0).end;
    let at = put_window(read.window, out, at).end;
    put_capture(read.capture, out, at).end
}

// Puts the lines of the cursor, of window 2 and of the capture window of `file` into `out`, from its start on; code 11 where `out` has fewer than 256 bytes.
// A file that isn't sound has the lines of a geometry with every number 0, marks off and the window empty.
pub fn geometry_end(file: File, out: &mut [u8]) -> Placed
    ensures { Lined (geometry_answer out.old) 0 (geometry_text (read_geometry file)) out.old out.new result }
{
    if out.len() < 256 {
        return Placed::no_room(0);
    }
    let read = read_geometry(file);
    let end = put_lines(read, out);
    Placed::stored(end)
}
