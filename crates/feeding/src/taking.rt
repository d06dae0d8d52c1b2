// How much of a part one step may take.
ghost use Rattle.std.specs.Prelude.{◌≡◌};
ghost use Rattle.feeding.specs.Feeding.{numbers_left, units_in};

// Counts the units of `size` bytes in `part`: the whole ones, and in the `last` part of an input a fragment too. There are none of no bytes.
pub fn units_in(part: &[u8], size: usize, last: bool) -> usize
    ensures { result ≡ units_in size last part.now }
{
    if size == 0 {
        return 0;
    }
    if last {
        return part.len().div_ceil(size);
    }
    part.len() / size
}

// Counts the numbers of 64 bits that are left behind `number`.
pub fn numbers_left(number: u64) -> usize
    ensures { result ≡ numbers_left number }
{
    (u64::MAX - number) as usize
}
