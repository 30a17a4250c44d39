//! A record of a batch. What doesn't read is answered by the place of its first byte.
ghost use Rattle.std.specs.Prelude.{◌<ℤ◌, ◌-◌, ◌^◌, pos, option_map, IfOk};
ghost use Rattle.wire_prim.specs.Behind.{behind_int8, int8_at};
ghost use Rattle.wire_prim.specs.Varint.{behind_varlong, varint_at};
ghost use Rattle.record_batch.specs.Read.{Gives, item};
ghost use Rattle.record_batch.specs.Record.{body_at, body_of, bounded, delta_at, header_at, headers_at, headers_of, integer_at, name_of, nullable_at, nullable_of, offset_at, record_at, tail_at};
ghost use Rattle.record_batch.specs.Seen.{seen};

use wire_prim::Cursor;

/// A record as it stands in a batch.
#[derive(Drop)]
pub struct Row<'a> {
    pub offset: i64,
    pub key: Option<&'a [u8]>,
    pub value: Option<&'a [u8]>,
}

fn integer(cursor: &mut Cursor) -> Result<i32, usize>
    ensures { Gives (λ value. value) result (integer_at cursor.old) cursor.new }
{
    match cursor.varint() {
        Ok(value) => Ok(value),
        Err(_) => Err(cursor.place()),
    }
}

// A key or a value of that length, which was read at a place.
fn nullable_of<'a>(
    cursor: &mut Cursor<'a>,
    place: usize,
    size: i32,
) -> Result<Option<&'a [u8]>, usize>
    ensures { Gives (λ piece. option_map (λ p. p.now) piece) result
        (nullable_of place size cursor.old) cursor.new }
{
    if size == -1 {
        return Ok(None);
    }
    if size < 0 {
        return Err(place);
    }
    match cursor.piece(size as usize) {
        Ok(piece) => Ok(Some(piece)),
        Err(_) => Err(cursor.place()),
    }
}

// A key or a value behind its length.
fn nullable<'a>(cursor: &mut Cursor<'a>) -> Result<Option<&'a [u8]>, usize>
    ensures { Gives (λ piece. option_map (λ p. p.now) piece) result (nullable_at cursor.old) cursor.new }
{
    let place = cursor.place();
    let size = integer(cursor)?;
    nullable_of(cursor, place, size)
}

fn name_of(cursor: &mut Cursor, place: usize, size: i32) -> Result<(), usize>
    ensures { Gives (λ name. name) result (name_of place size cursor.old) cursor.new }
{
    if size < 0 {
        return Err(place);
    }
    match cursor.text(size) {
        Ok(_) => Ok(()),
        Err(_) => Err(cursor.place()),
    }
}

// A header, which is dropped.
fn header(cursor: &mut Cursor) -> Result<(), usize>
    ensures { Gives (λ done. done) result (header_at cursor.old) cursor.new }
{
    let place = cursor.place();
    let size = integer(cursor)?;
    name_of(cursor, place, size)?;
    nullable(cursor)?;
    Ok(())
}

fn headers(cursor: &mut Cursor, count: u32) -> Result<(), usize>
    ensures { Gives (λ done. done) result (headers_at count cursor.old) cursor.new }
{
    for _ in 0..count {
        header(cursor)?;
    }
    Ok(())
}

// As many headers as a count says, which was read at a place.
fn headers_of(cursor: &mut Cursor, place: usize, count: i32) -> Result<(), usize>
    ensures { Gives (λ done. done) result (headers_of place count cursor.old) cursor.new }
{
    if count < 0 {
        return Err(place);
    }
    headers(cursor, count as u32)
}

// The headers, and nothing behind them.
fn tail(cursor: &mut Cursor) -> Result<(), usize>
    ensures { Gives (λ done. done) result (tail_at cursor.old) cursor.new }
{
    let place = cursor.place();
    let count = integer(cursor)?;
    headers_of(cursor, place, count)?;
    if cursor.left() == 0 {
        Ok(())
    } else {
        Err(cursor.place())
    }
}

fn delta(cursor: &mut Cursor, base: i64, low: i64) -> Result<i64, usize>
    ensures bound { IfOk result (λ offset. offset <ℤ pos (2 ^ 63 - 1)) }
    ensures gives { Gives (λ offset. offset) result (delta_at base low cursor.old) cursor.new }
{
    let place = cursor.place();
    let delta = integer(cursor)?;
    match base.checked_add(i64::from(delta)) {
        Some(offset) if offset >= low && offset < i64::MAX => Ok(offset),
        _ => Err(place),
    }
}

fn attributes(cursor: &mut Cursor) -> Result<i8, usize>
    ensures { Gives (λ value. value) result
        (item int8_at cursor.old (behind_int8 cursor.old.left)) cursor.new }
{
    match cursor.int8() {
        Ok(value) => Ok(value),
        Err(_) => Err(cursor.place()),
    }
}

fn stamp(cursor: &mut Cursor) -> Result<i64, usize>
    ensures { Gives (λ value. value) result
        (item varint_at cursor.old (behind_varlong cursor.old.left)) cursor.new }
{
    match cursor.varlong() {
        Ok(value) => Ok(value),
        Err(_) => Err(cursor.place()),
    }
}

// Attributes and timestamp, which are dropped, and the offset.
fn offset(cursor: &mut Cursor, base: i64, low: i64) -> Result<i64, usize>
    ensures bound { IfOk result (λ offset. offset <ℤ pos (2 ^ 63 - 1)) }
    ensures gives { Gives (λ offset. offset) result (offset_at base low cursor.old) cursor.new }
{
    attributes(cursor)?;
    stamp(cursor)?;
    delta(cursor, base, low)
}

#[tactic(auto, unfolding(crate::specs::Record::body_at))]
fn body<'a>(cursor: &mut Cursor<'a>, base: i64, low: i64) -> Result<Row<'a>, usize>
    ensures bound { IfOk result (λ row. row.offset <ℤ pos (2 ^ 63 - 1)) }
    ensures gives { Gives seen result (body_at base low cursor.old) cursor.new }
{
    let offset = offset(cursor, base, low)?;
    let key = nullable(cursor)?;
    let value = nullable(cursor)?;
    tail(cursor)?;
    Ok(Row { offset, key, value })
}

// The body has as many bytes as its length says, which was read at a place.
fn body_of<'a>(
    cursor: &mut Cursor<'a>,
    place: usize,
    base: i64,
    low: i64,
    size: i32,
) -> Result<Row<'a>, usize>
    ensures bound { IfOk result (λ row. row.offset <ℤ pos (2 ^ 63 - 1)) }
    ensures gives { Gives seen result (body_of place base low size cursor.old) cursor.new }
{
    if size < 0 {
        return Err(place);
    }
    match cursor.part(size as usize) {
        Ok(mut part) => body(&mut part, base, low),
        Err(_) => Err(place),
    }
}

/// The next record, whose offset is at least `low`.
#[tactic(auto, unfolding(crate::specs::Record::record_at))]
pub fn record<'a>(cursor: &mut Cursor<'a>, base: i64, low: i64) -> Result<Row<'a>, usize>
    ensures bound { IfOk result (λ row. row.offset <ℤ pos (2 ^ 63 - 1)) }
    ensures gives { Gives seen result (record_at base low cursor.old) cursor.new }
{
    let place = cursor.place();
    let size = integer(cursor)?;
    body_of(cursor, place, base, low, size)
}
