// Lent bytes as registers, and back.
ghost use Rattle.std.specs.Prelude.{◌≡◌, ℕ, ◌<◌, get_or, length};

// The bytes, each as a register.
pub fn widen(bytes: &[u8], registers: &mut [u16])
    requires { length registers.old ≡ length bytes.now }
    ensures { registers.new ≡ bytes.now }
{
    for (i, byte) in bytes.iter().enumerate() {
        registers[i] = u16::from(*byte);
    }
}

// Registers that hold a byte each, stored into as many bytes.
pub fn narrow(registers: &[u16], bytes: &mut [u8])
    requires bytes_len { length bytes.old ≡ length registers.now }
    requires by_index { (k : ℕ) → get_or registers.now k 0 < 256 }
    ensures { bytes.new ≡ registers.now }
{
    for (i, register) in registers.iter().enumerate() {
        bytes[i] = *register as u8;
    }
}
