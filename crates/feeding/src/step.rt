// What one step of a job leaves.

// The job after a step, how many bytes of the part the step used, and where its text ends in the lent buffer.
#[derive(Clone, Copy)]
pub struct Fed<J> {
    pub job: J,
    pub used: usize,
    pub end: usize,
}
