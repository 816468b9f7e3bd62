//! Texts in pieces, each kept once.
ghost use Rattle.std.specs.Prelude.{◌≡◌, ◌+◌, ◌<◌, ◌^◌, List, ℕ, Some, IfOk, map, option_map};
ghost use Rattle.std.specs.Borrow.{Bor};
ghost use Rattle.lc_carry.specs.Pieces.{begins, depth_behind, key_of, kept_in, pieces, KeepsPieces};
ghost use Rattle.lc_reading.specs.Listed.{place_of};

use indexmap::IndexSet;
use lc_base::OutOfMemory;
use std::alloc::Global;

/// Whether a piece begins with a byte inside `depth` brackets.
fn begins(depth: usize, byte: u8) -> bool
    ensures { result ≡ begins depth byte }
{
    byte == b'(' && depth == 1
}

/// How many brackets are around the byte after this one.
fn depth_behind(depth: usize, byte: u8) -> usize
    requires { depth + 1 < 2 ^ 64 }
    ensures { result ≡ depth_behind depth byte }
{
    match byte {
        b'(' => depth + 1,
        b')' => depth.saturating_sub(1),
        _ => depth,
    }
}

/// A text in pieces. Each but the first begins with a bracket inside one other, as the formulas of a condition do.
fn cut(alloc: Global, text: &[u8]) -> Result<Vec<&[u8]>, OutOfMemory>
    ensures { IfOk result (λ cut. map (λ (piece : Bor (List ℕ)). piece.now) cut.items ≡ pieces text.entry.now) }
{
    let mut cut = Vec::new(alloc);
    let mut start = 0;
    let mut depth = 0;
    for (place, byte) in text.iter().enumerate() {
        let before = depth;
        depth = depth_behind(before, *byte);
        if !begins(before, *byte) {
            continue;
        }
        cut.push(&text[start..place])?;
        start = place;
    }
    cut.push(&text[start..])?;
    Ok(cut)
}

/// The number of the piece at a place. No more pieces are kept than there are numbers of 32 bits.
fn number_at(place: usize) -> Result<u32, OutOfMemory>
    ensures { IfOk result (λ number. number ≡ place) }
{
    u32::try_from(place).map_err(|_| OutOfMemory)
}

/// The number of a piece, which is kept from now on.
fn enter_piece(kept: &mut IndexSet<Vec<u8>>, piece: &[u8]) -> Result<u32, OutOfMemory>
    ensures kept { KeepsPieces (kept_in kept.old.keys) (kept_in kept.new.keys) }
    ensures number { IfOk result (λ number. place_of (kept_in kept.new.keys) piece.now ≡ Some number) }
{
    let piece = piece.to_vec(*kept.allocator())?;
    let (place, _) = kept.insert_full(piece)?;
    number_at(place)
}

/// The numbers of the pieces of a text, which are kept from now on.
pub(crate) fn enter(kept: &mut IndexSet<Vec<u8>>, text: &[u8]) -> Result<Vec<u32>, OutOfMemory>
    ensures kept { KeepsPieces (kept_in kept.old.keys) (kept_in kept.new.keys) }
    ensures key { IfOk result (λ key. key_of (kept_in kept.new.keys) (pieces text.now) ≡ Some key.items) }
{
    let alloc = *kept.allocator();
    let pieces = cut(alloc, text)?;
    let mut key = Vec::with_capacity(alloc, pieces.len())?;
    for piece in &pieces {
        key.push(enter_piece(kept, piece)?)?;
    }
    Ok(key)
}

/// The numbers of the pieces of a text, if all are kept.
pub(crate) fn known(
    alloc: Global,
    kept: &IndexSet<Vec<u8>>,
    text: &[u8],
) -> Result<Option<Vec<u32>>, OutOfMemory>
    ensures { IfOk result (λ key. option_map (λ k. k.items) key ≡ key_of (kept_in kept.now.keys) (pieces text.now)) }
{
    let pieces = cut(alloc, text)?;
    let mut key = Vec::with_capacity(alloc, pieces.len())?;
    for piece in &pieces {
        let Some(place) = kept.get_index_of(*piece) else {
            return Ok(None);
        };
        key.push(number_at(place)?)?;
    }
    Ok(Some(key))
}
