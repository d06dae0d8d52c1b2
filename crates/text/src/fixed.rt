// A line of limited length, by value: text is added behind what stands there, and a byte that has no place is dropped.
ghost use Rattle.std.specs.Prelude.{◌≡◌, ◌≤◌, length};
ghost use Rattle.text.specs.Fixed.{behind, blank, byte_behind, text_of};

// The bytes so far, of `N` at most, and how many they are.
#[derive(Clone, Copy)]
pub struct Line<const N: usize> {
    pub bytes: [u8; N],
    pub end: usize,
}

impl<const N: usize> Line<N> {
    // Gives a line that has nothing yet.
    pub fn blank() -> Line<N>
        ensures { result ≡ blank N }
    {
        Line {
            bytes: [0; N],
            end: 0,
        }
    }

    // Adds the byte `b`, where there is a place for it.
    pub fn with_byte(self, b: u8) -> Line<N>
        ensures { result ≡ byte_behind self.entry b }
    {
        let mut after = self;
        if self.end < N {
            after.bytes[self.end] = b;
            after.end = self.end + 1;
        }
        after
    }

    // Adds the bytes of `text`, one after the other.
    pub fn with_text(self, text: &[u8]) -> Line<N>
        ensures { result ≡ behind self.entry text.now }
    {
        let mut after = self;
        for b in text {
            after = after.with_byte(*b);
        }
        after
    }

    // Counts the bytes so far.
    pub fn len(&self) -> usize
        ensures { result ≡ self.now.end }
    {
        self.end
    }

    // Lends the bytes that stand in it.
    pub fn text(&self) -> &[u8]
        ensures text { result.now ≡ text_of self.now }
        ensures most { length result.now ≤ N }
    {
        &self.bytes[..self.end.min(N)]
    }
}
