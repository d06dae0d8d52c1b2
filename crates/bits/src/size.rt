// How many bits a number has: 32 at most, for it is kept in so many. Sums are made in 64.
ghost use Rattle.std.specs.Prelude.{◌≡◌, ◌%◌, ◌^◌, ◌≤◌, min};
ghost use Rattle.bits.specs.Numbers.{end_after};

#[derive(Clone, Copy)]
pub struct Size {
    pub bits: u32,
    ghost small: { bits ≤ 32 },
}

impl Size {
    // So many bits, and of more than 32 only these.
    pub fn of(bits: u32) -> Size
        ensures { result.bits ≡ min 32 bits }
    {
        Size { bits: bits.min(32) }
    }

    // The first number that has more bits.
    pub fn power(self) -> u64
        ensures { result ≡ 2 ^ self.bits }
    {
        1u64 << self.bits
    }

    // A number's lowest bits.
    pub fn low(self, number: u64) -> u64
        ensures { result ≡ number % 2 ^ self.bits }
    {
        number % self.power()
    }

    // The low 32 bits of the end of so many bits after a start.
    pub fn end_after(self, start: u32, low: u32) -> u32
        ensures { result ≡ end_after start self.bits low % 2 ^ 32 }
    {
        let next = u64::from(start) + 1;
        let end = next + self.low(u64::from(low) + self.power() - self.low(next));
        (end % (1 << 32)) as u32
    }
}
