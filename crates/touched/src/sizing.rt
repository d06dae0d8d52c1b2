// How much a set names.
ghost use Rattle.std.specs.Prelude.{◌≡◌, count_by};
ghost use Rattle.touched.specs.Things.{size as size_of, is_empty};

use crate::set::Touched;

// How many of some marks are set.
fn many(marks: &[bool]) -> usize
    ensures { result ≡ count_by (λ named. named) marks.now }
{
    marks.iter().filter(|named| **named).count()
}

impl Touched {
    // How many things it names.
    pub fn size(self) -> usize
        ensures { result ≡ size_of self }
    {
        many(&self.registers)
            + many(&self.palette)
            + many(&self.bank)
            + many(&[self.pointer, self.marks, self.toggle])
    }

    pub fn is_empty(self) -> bool
        ensures { result ≡ is_empty self }
    {
        self.size() == 0
    }
}
