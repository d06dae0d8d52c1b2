// Split fields: a number whose bits lie in pieces of several registers. A piece is one number, RRHLh for bits H to L of register RR.
ghost use Rattle.std.specs.Prelude.{◌≡◌, ◌-◌, ◌/◌, ◌%◌, ◌^◌, min, map, drop};
ghost use Rattle.bits.specs.Encoded.{piece_of};
ghost use Rattle.bits.specs.Pieces.{width as width_of, held as heldBits, gather as gatherPieces, put as putPiece, scatter as scatterPieces};

// A piece's lowest bit.
fn piece_low(piece: u16) -> u32
    ensures { result ≡ (piece_of piece).low }
{
    u32::from(piece % 16)
}

// How many bits a piece has; none where its high bit is below its low one.
fn piece_width(piece: u16) -> u32
    ensures { result ≡ (piece_of piece).width }
{
    u32::from((piece / 16 % 16 + 1).saturating_sub(piece % 16))
}

// As many ones as a piece has bits.
fn piece_mask(piece: u16) -> u32
    ensures { result ≡ 2 ^ (piece_of piece).width - 1 }
{
    (1 << piece_width(piece)) - 1
}

// What a piece holds: 0 in a register that is not there.
fn held(registers: &[u16], piece: u16) -> u32
    ensures { result ≡ heldBits registers.now (piece_of piece) }
{
    let register = registers
        .get(usize::from(piece / 256))
        .copied()
        .unwrap_or(0);
    (u32::from(register) >> piece_low(piece)) & piece_mask(piece)
}

// The low 32 bits of the number that the pieces hold.
pub fn gather(registers: &[u16], pieces: &[u16]) -> u32
    ensures { result ≡ gatherPieces registers.now (map piece_of pieces.now) % 2 ^ 32 }
{
    let mut number: u32 = 0;
    for piece in pieces {
        number = (number << piece_width(*piece)).wrapping_add(held(registers, *piece));
    }
    number
}

// The pieces from one on.
fn pieces_from(pieces: &[u16], from: usize) -> &[u16]
    ensures { result.now ≡ drop from pieces.now }
{
    &pieces[from.min(pieces.len())..]
}

// How many bits the pieces from one on have, counted up to 32: where there are so many, those behind aren't gone through.
pub fn width(pieces: &[u16], from: usize) -> u32
    ensures { result ≡ min 32 (width_of (map piece_of (drop from pieces.now))) }
{
    let left = pieces_from(pieces, from);
    let mut bits: u32 = 0;
    for piece in left {
        if 32 <= bits {
            return 32;
        }
        bits += piece_width(*piece);
    }
    bits.min(32)
}

// A piece set to the low bits of a number, by the store rule; nothing in a register that is not there.
fn put(registers: &mut [u16], piece: u16, number: u32)
    ensures { registers.new ≡ putPiece (piece_of piece) number registers.old }
{
    let register = usize::from(piece / 256);
    let low = piece_low(piece);
    let mask = piece_mask(piece);
    if register < registers.len() {
        let reach = (mask << low) as u16;
        let value = ((number & mask) << low) as u16;
        registers[register] = crate::store(reach, registers[register], value);
    }
}

// The pieces set to a number.
pub fn scatter(registers: &mut [u16], pieces: &[u16], number: u32)
    ensures { registers.new ≡ scatterPieces (map piece_of pieces.now) number registers.old }
{
    let mut rest = pieces;
    while let Some((piece, below)) = rest.split_first() {
        put(
            registers,
            *piece,
            number.checked_shr(width(below, 0)).unwrap_or(0),
        );
        rest = below;
    }
}
