// Numbers of the cursor and of window 2.
ghost use Rattle.std.specs.Prelude.{◌||◌, ◌≡◌, ◌<◌, leb, nat_abs};
ghost use Rattle.std.proofs.Math.IntN.{sub_ℕ};

// A cursor edge less its preset, signed.
pub fn less_preset(edge: u16, preset: u16) -> i16
    requires { (edge < 4096) × (preset < 128) }
    ensures { result ≡ sub_ℕ edge preset }
{
    edge as i16 - preset as i16
}

// How far a number is from 0.
pub fn magnitude(n: i16) -> u32
    ensures { result ≡ nat_abs n }
{
    u32::from(n.unsigned_abs())
}

// No place between the edges: right and bottom are not included.
pub fn is_empty(left: u16, top: u16, right: u16, bottom: u16) -> bool
    ensures { result ≡ (leb right left || leb bottom top) }
{
    right <= left || bottom <= top
}
