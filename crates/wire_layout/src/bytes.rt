//! BYTES of a message, as a list of bytes.
#![tactic(auto, using(crate::proofs::Places::stops), unfolding(crate::specs::Layout::bytes, crate::specs::Layout::nullable_bytes))]

ghost use Rattle.std.specs.Prelude.{◌≡◌, ◌++◌, IfOk, OnOk};
ghost use Rattle.wire_prim.specs.Reading.{Takes};
ghost use Rattle.wire_layout.specs.Layout.{ReachesOrWants, bytes, nullable_bytes};

use gate_io::{Items, Want};
use std::alloc::Global;
use wire_prim::{Cursor, PrimNo, put_bytes, put_nullable_bytes};

/// BYTES. More than 2,147,483,647 are answered by want.
pub fn put_piece(out: &mut Vec<u8>, piece: &Items<u8>) -> Result<(), Want>
    ensures ok { OnOk result (out.new.items ≡ out.old.items ++ bytes.spelling piece.now) }
    ensures fits { OnOk result (bytes.fits piece.now) }
{
    let piece = piece.as_slice();
    if piece.len() > 0x7fff_ffff {
        return Err(Want);
    }
    put_bytes(out, piece)
}

/// NULLABLE_BYTES. More than 2,147,483,647 are answered by want.
pub fn put_nullable_piece(out: &mut Vec<u8>, piece: &Option<Items<u8>>) -> Result<(), Want>
    ensures ok { OnOk result (out.new.items ≡ out.old.items ++ nullable_bytes.spelling piece.now) }
    ensures fits { OnOk result (nullable_bytes.fits piece.now) }
{
    match piece {
        Some(piece) if piece.len() > 0x7fff_ffff => Err(Want),
        Some(piece) => put_nullable_bytes(out, Some(piece.as_slice())),
        None => put_nullable_bytes(out, None),
    }
}

/// BYTES where the cursor stands. A refusal leaves it there, at the length.
pub fn decode_piece(alloc: Global, cursor: &mut Cursor) -> Result<Items<u8>, PrimNo>
    ensures value { IfOk result (λ m. Takes (bytes.spelling m) cursor.old cursor.new) }
    ensures fits { IfOk result (λ m. bytes.fits m) }
    ensures answer { ReachesOrWants result (bytes.behind cursor.old.left) cursor.new.left }
{
    let piece = cursor.bytes(alloc)?;
    Ok(Items::from_vec(piece))
}

/// NULLABLE_BYTES where the cursor stands. A refusal leaves it there, at the length.
pub fn decode_nullable_piece(
    alloc: Global,
    cursor: &mut Cursor,
) -> Result<Option<Items<u8>>, PrimNo>
    ensures value { IfOk result (λ m. Takes (nullable_bytes.spelling m) cursor.old cursor.new) }
    ensures fits { IfOk result (λ m. nullable_bytes.fits m) }
    ensures answer { ReachesOrWants result (nullable_bytes.behind cursor.old.left) cursor.new.left }
{
    match cursor.nullable_bytes(alloc)? {
        Some(piece) => Ok(Some(Items::from_vec(piece))),
        None => Ok(None),
    }
}
