// Reading fields.
ghost use Rattle.std.specs.Prelude.{◌≡◌, ◌+◌, ◌<◌, ◌≤◌, length, take, drop, MatchResult};
ghost use Rattle.std.specs.Int.{w8, w32, w64};
ghost use Rattle.sea_fields.specs.Fields.{number_at, row_at, Takes};

use crate::span::{FieldFault, Short, Span};

/// The byte at a place, and the next place. Short exactly where no byte is left.
pub fn take_u8(from: &[u8], at: usize) -> Result<(u8, usize), Short>
    ensures { Takes result (number_at w8 from.now at) }
{
    let piece = piece_at(from, at, 1)?;
    Ok((piece[0], at + 1))
}

/// The number in four bytes at a place, the highest first, and the next place. Short exactly where fewer are left.
pub fn take_u32(from: &[u8], at: usize) -> Result<(u32, usize), Short>
    ensures { Takes result (number_at w32 from.now at) }
{
    let piece = piece_at(from, at, 4)?;
    let bytes = [piece[0], piece[1], piece[2], piece[3]];
    Ok((u32::from_be_bytes(bytes), at + 4))
}

/// The number in eight bytes at a place, the highest first, and the next place. Short exactly where fewer are left.
pub fn take_u64(from: &[u8], at: usize) -> Result<(u64, usize), Short>
    ensures { Takes result (number_at w64 from.now at) }
{
    let piece = piece_at(from, at, 8)?;
    let bytes = [
        piece[0], piece[1], piece[2], piece[3], piece[4], piece[5], piece[6], piece[7],
    ];
    Ok((u64::from_be_bytes(bytes), at + 8))
}

/// Where the bytes of the byte row at a place lie, and the next place. Short exactly where too few bytes are left for
/// its length or for its bytes, then TooLong exactly where its length is above `most`.
pub fn take_bytes(from: &[u8], at: usize, most: u32) -> Result<(Span, usize), FieldFault>
    ensures { result ≡ row_at from.now at most }
{
    let (count, place) = take_u32(from, at)?;
    let count = count as usize;
    if count > from.len() - place {
        return Err(FieldFault::Short);
    }
    if count > most as usize {
        return Err(FieldFault::TooLong);
    }
    let to = place + count;
    Ok((Span { from: place, to }, to))
}

// So many bytes from a place on.
fn piece_at(from: &[u8], at: usize, count: usize) -> Result<&[u8], Short>
    ensures { MatchResult result
        (λ piece. (at + count ≤ length from.now) × (piece.now ≡ take count (drop at from.now)) × (length piece.now ≡ count))
        (λ _. length from.now < at + count) }
{
    if at > from.len() || count > from.len() - at {
        return Err(Short);
    }
    Ok(&from[at..at + count])
}
