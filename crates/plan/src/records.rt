// Records appended to a lent buffer: each function stores 8 bytes from a place on and hands back the place behind them. Buffer and place stay two parameters,
// since `Appended` speaks of the buffer before and after, by which the stages are joined.
ghost use Rattle.std.specs.Prelude.{◌≡◌, cond, [], ◌∷◌, ◌+◌, ◌≤◌, eqb, length};
ghost use Rattle.bits.specs.Store.{bit};
ghost use Rattle.plan.specs.Appended.{Appended};
ghost use Rattle.roads.specs.Plan.{config_write, port_write, port_read, mmio_write, mmio_read};

use access::Record;
use trace::record_bytes;

// A record's 8 bytes.
pub fn put(written: Record, buffer: &mut [u8], at: usize) -> usize
    requires { at + 8 ≤ length buffer.old }
    ensures { Appended buffer.old at (written ∷ []) buffer.new result }
{
    buffer[at..at + 8].copy_from_slice(&record_bytes(written));
    at + 8
}

// One function for each kind of record, as `roads/specs/Plan.antt` has them: a name says more than numbers for kind and width at each call.

// A word to config space.
pub fn config_write(address: u16, value: u32, buffer: &mut [u8], at: usize) -> usize
    requires { at + 8 ≤ length buffer.old }
    ensures { Appended buffer.old at (config_write address value ∷ []) buffer.new result }
{
    let written = Record {
        kind: 1,
        width: 2,
        address,
        value,
    };
    put(written, buffer, at)
}

// A byte to a port.
pub fn port_write(address: u16, value: u32, buffer: &mut [u8], at: usize) -> usize
    requires { at + 8 ≤ length buffer.old }
    ensures { Appended buffer.old at (port_write address value ∷ []) buffer.new result }
{
    let written = Record {
        kind: 3,
        width: 1,
        address,
        value,
    };
    put(written, buffer, at)
}

// A port's byte.
pub fn port_read(address: u16, buffer: &mut [u8], at: usize) -> usize
    requires { at + 8 ≤ length buffer.old }
    ensures { Appended buffer.old at (port_read address ∷ []) buffer.new result }
{
    let written = Record {
        kind: 2,
        width: 1,
        address,
        value: 0,
    };
    put(written, buffer, at)
}

// A byte to MMIO.
pub fn mmio_write(address: u16, value: u32, buffer: &mut [u8], at: usize) -> usize
    requires { at + 8 ≤ length buffer.old }
    ensures { Appended buffer.old at (mmio_write address value ∷ []) buffer.new result }
{
    let written = Record {
        kind: 5,
        width: 1,
        address,
        value,
    };
    put(written, buffer, at)
}

// MMIO's byte.
pub fn mmio_read(address: u16, buffer: &mut [u8], at: usize) -> usize
    requires { at + 8 ≤ length buffer.old }
    ensures { Appended buffer.old at (mmio_read address ∷ []) buffer.new result }
{
    let written = Record {
        kind: 4,
        width: 1,
        address,
        value: 0,
    };
    put(written, buffer, at)
}

// '?' of an address is B or D, by MISC[0].
pub fn by_half(misc: u32, monochrome: u16, colour: u16) -> u16
    ensures { result ≡ cond (eqb (bit 0 misc) 1) colour monochrome }
{
    if misc % 2 == 1 { colour } else { monochrome }
}
