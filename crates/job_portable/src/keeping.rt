// The first bytes of an input that comes in parts.
ghost use Rattle.std.specs.Prelude.{◌≡◌};
ghost use Rattle.job_portable.specs.Kept.{begun, job_after};

// The bytes that are kept: one more than 28 is enough to tell another length.
pub type PortableJob = text::Line<29>;

// Starts a job that keeps no byte yet.
pub fn start() -> PortableJob
    ensures { result ≡ begun }
{
    PortableJob::blank()
}

// Keeps the bytes of `part` that there is room for. The whole part is used.
pub fn feed(before: PortableJob, part: &[u8]) -> PortableJob
    ensures { result ≡ job_after before part.now }
{
    before.with_text(part)
}
