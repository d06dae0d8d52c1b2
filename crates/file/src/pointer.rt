// The palette pointer where it stands: each function moves the one it is lent, by the step of the same access on a value.
ghost use Rattle.std.specs.Prelude.{◌≡◌};
ghost use Rattle.file.specs.Palette.{addressed, after_write, after_read};

use crate::palette::Pointer;

// 3C7h or 3C8h is written: the address and the mode given.
pub fn write_address(pointer: &mut Pointer, reading: bool, address: u8)
    ensures { pointer.new ≡ addressed reading address }
{
    *pointer = Pointer::addressed(reading, address);
}

// 3C9h is written.
pub fn write_pixel(pointer: &mut Pointer, byte: u8)
    ensures { pointer.new ≡ after_write pointer.old byte }
{
    *pointer = pointer.after_write(byte);
}

// 3C9h is read.
pub fn read_pixel(pointer: &mut Pointer)
    ensures { pointer.new ≡ after_read pointer.old }
{
    *pointer = pointer.after_read();
}
