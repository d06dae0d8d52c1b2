// Geometry as a job: the lines of the cursor, of window 2 and of the capture window of a file, as bytes.
#![tactic(auto)]

mod ending;
mod lines;

pub use ending::geometry_end;
