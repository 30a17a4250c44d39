//! A whole message, read and written.
ghost use Rattle.std.specs.Prelude.{◌≡◌, ◌≤◌, ◌++◌, ◌-◌, length, drop, IfOk, IfErr, OnOk};
ghost use Rattle.wire_prim.specs.Item.{int32_bytes};
ghost use Rattle.wire_layout.specs.Whole.{IsFrame, IsPlaced, IsRead, IsReadInFront, IsWritten, cause_alone, refusal_of};

use crate::error::{Refusal, WireNo};
use crate::laid::{Laid, Message, Put};
use gate_io::Want;
use std::alloc::Global;
use wire_prim::{Cursor, PrimNo, put_int32};

/// The refusal of a message at an item that doesn't read.
pub fn refusal_of(cause: PrimNo) -> WireNo
    ensures { result ≡ refusal_of cause }
{
    match cause {
        PrimNo::Want => WireNo::Want,
        _ => WireNo::Prim(cause),
    }
}

/// A refusal where so many bytes of so many are left.
pub fn refusal_at(cause: WireNo, whole: usize, left: usize) -> Refusal
    ensures { result ≡ record { cause = cause; place = whole - left } }
{
    Refusal {
        cause,
        place: whole.saturating_sub(left),
    }
}

/// Reads a body with no byte left over. A refusal has its place.
pub fn read_whole_placed<T: Laid + Drop>(alloc: Global, bytes: &[u8]) -> Result<T, Refusal>
    ensures read { IsRead T.layout bytes.now (cause_alone result) }
    ensures place { IfErr result (λ refusal. IsPlaced refusal (T.layout.behind bytes.now) bytes.now) }
{
    let mut cursor = Cursor::new(bytes);
    let message = match T::decode(alloc, &mut cursor) {
        Ok(message) => message,
        Err(cause) => return Err(refusal_at(refusal_of(cause), bytes.len(), cursor.left())),
    };
    let left = cursor.left();
    if left == 0 {
        Ok(message)
    } else {
        Err(refusal_at(WireNo::Rest(left), bytes.len(), left))
    }
}

/// Reads a body with no byte left over.
pub fn read_whole<T: Laid + Drop>(alloc: Global, bytes: &[u8]) -> Result<T, WireNo>
    ensures { IsRead T.layout bytes.now result }
{
    match read_whole_placed(alloc, bytes) {
        Ok(message) => Ok(message),
        Err(refusal) => Err(refusal.cause),
    }
}

/// Reads a value at the front, and says how many bytes it took. A refusal has its place.
pub fn read_front_placed<T: Laid + Drop>(alloc: Global, bytes: &[u8]) -> Result<(T, usize), Refusal>
    ensures read { IsReadInFront T.layout bytes.now (cause_alone result) }
    ensures place { IfErr result (λ refusal. IsPlaced refusal (T.layout.behind bytes.now) bytes.now) }
{
    let mut cursor = Cursor::new(bytes);
    match T::decode(alloc, &mut cursor) {
        Ok(value) => {
            let size = cursor.place();
            Ok((value, size))
        }
        Err(cause) => Err(refusal_at(refusal_of(cause), bytes.len(), cursor.left())),
    }
}

/// Reads a value at the front, and says how many bytes it took.
pub fn read_front<T: Laid + Drop>(alloc: Global, bytes: &[u8]) -> Result<(T, usize), WireNo>
    ensures { IsReadInFront T.layout bytes.now result }
{
    match read_front_placed(alloc, bytes) {
        Ok(found) => Ok(found),
        Err(refusal) => Err(refusal.cause),
    }
}

/// How many bytes a value has. The place of an item is the sum of what stands before it.
pub fn length_of<T: Put>(alloc: Global, value: &T) -> Result<usize, Want>
    ensures { IfOk result (λ size. size ≡ length (T.layout.spelling value.now)) }
{
    let mut out = Vec::new(alloc);
    value.put(&mut out)?;
    Ok(out.len())
}

// Most messages are shorter than that. What is longer makes the room that it wants.
const ROOM: usize = 256;

/// Writes a header or a body, which stands in a frame behind so many bytes at least. One that has no spelling, or a frame
/// past 2,147,483,647 bytes, is answered by want.
pub fn write_whole<T: Message>(alloc: Global, head: u32, message: &T) -> Result<Vec<u8>, Want>
    ensures { IfOk result (λ out. IsWritten T.layout head message.now out.items) }
{
    let Ok(mut out) = Vec::with_capacity(alloc, ROOM) else {
        return Err(Want);
    };
    message.put(&mut out)?;
    if out.len() > 0x7fff_ffff || head as usize > 0x7fff_ffff - out.len() {
        return Err(Want);
    }
    Ok(out)
}

// Puts a size into the first four bytes.
fn set_size(out: &mut [u8], size: i32)
    requires { 4 ≤ length out.now }
    ensures bytes { out.new ≡ int32_bytes size ++ drop 4 out.old }
    ensures len { length out.new ≡ length out.old }
{
    let (front, _) = out.split_at_mut(4);
    front.copy_from_slice(&size.to_be_bytes());
}

/// Writes a frame in one piece: its size, a header and a body. One past 2,147,483,647 bytes, or with a value that has no
/// spelling, is answered by want.
pub fn write_frame<H: Message, B: Message>(
    alloc: Global,
    header: &H,
    body: &B,
) -> Result<Vec<u8>, Want>
    ensures frame { IfOk result (λ out. IsFrame (H.layout.spelling header.now ++ B.layout.spelling body.now) out.items) }
    ensures header { OnOk result (H.layout.fits header.now) }
    ensures body { OnOk result (B.layout.fits body.now) }
{
    let Ok(mut out) = Vec::with_capacity(alloc, ROOM) else {
        return Err(Want);
    };
    put_int32(&mut out, 0)?;
    header.put(&mut out)?;
    body.put(&mut out)?;
    // The size stands first, and is known last.
    let size = out.len() - 4;
    if size > 0x7fff_ffff {
        return Err(Want);
    }
    set_size(out.as_mut_slice(), size as i32);
    Ok(out)
}
