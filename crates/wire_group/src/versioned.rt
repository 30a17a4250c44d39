//! A value behind its version.
ghost use Rattle.std.specs.Prelude.{IfErr, IfOk};
ghost use Rattle.wire_layout.specs.Whole.{IsPlaced, cause_alone};
ghost use Rattle.wire_group.specs.Versioned.{IsVersionedRead, IsVersionedWritten, behind_versioned};

use gate_io::Want;
use std::alloc::Global;
use wire_layout::{Laid, Put, Refusal, WireNo, refusal_at, refusal_of};
use wire_prim::{Cursor, PrimNo, put_int16};

/// Reads a version from 0 on and the fields behind it. Further bytes are left aside in a version above 0. A refusal has its
/// place, which counts from the version.
pub fn read_versioned_placed<T: Laid + Drop>(alloc: Global, bytes: &[u8]) -> Result<T, Refusal>
    ensures read { IsVersionedRead T.layout bytes.now (cause_alone result) }
    ensures place { IfErr result (λ refusal. IsPlaced refusal (behind_versioned T.layout.behind bytes.now) bytes.now) }
{
    let whole = bytes.len();
    let mut cursor = Cursor::new(bytes);
    let version = match cursor.int16() {
        Ok(version) => version,
        Err(cause) => return Err(refusal_at(WireNo::Prim(cause), whole, whole)),
    };
    if version < 0 {
        return Err(refusal_at(WireNo::Prim(PrimNo::Negative), whole, whole));
    }
    let value = match T::decode(alloc, &mut cursor) {
        Ok(value) => value,
        Err(cause) => return Err(refusal_at(refusal_of(cause), whole, cursor.left())),
    };
    if version > 0 {
        return Ok(value);
    }
    let left = cursor.left();
    if left > 0 {
        return Err(refusal_at(WireNo::Rest(left), whole, left));
    }
    Ok(value)
}

/// Reads a version from 0 on and the fields behind it, without the place of a refusal.
pub fn read_versioned<T: Laid + Drop>(alloc: Global, bytes: &[u8]) -> Result<T, WireNo>
    ensures { IsVersionedRead T.layout bytes.now result }
{
    match read_versioned_placed(alloc, bytes) {
        Ok(value) => Ok(value),
        Err(refusal) => Err(refusal.cause),
    }
}

/// Writes version 0 and the fields.
pub fn write_versioned<T: Put>(alloc: Global, value: &T) -> Result<Vec<u8>, Want>
    ensures { IfOk result (λ out. IsVersionedWritten T.layout value.now out.items) }
{
    let mut out = Vec::new(alloc);
    put_int16(&mut out, 0)?;
    value.put(&mut out)?;
    if out.len() > 0x7fff_ffff {
        return Err(Want);
    }
    Ok(out)
}
