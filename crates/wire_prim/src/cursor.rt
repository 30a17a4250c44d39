//! A place in the bytes of a message.
ghost use Rattle.std.specs.Prelude.{◌≡◌, ◌<◌, ◌≤◌, ◌^◌, suc, pos, length, IfOk, IfNone, IfSome, OnErr, option_map, string_bytes};
ghost use Rattle.wire_prim.specs.Reading.{Takes};
ghost use Rattle.wire_prim.specs.Behind.{Answers, AnswersOrWants, behind_bytes, behind_bytes_item, behind_count, behind_int8, behind_int16, behind_int32, behind_int64, behind_nullable_bytes, behind_nullable_count, behind_nullable_string, behind_sized, behind_string, behind_text, count_at, int8_at, int16_at, int32_at, int64_at, nullable_count_at};
ghost use Rattle.wire_prim.specs.Varint.{IsFew, IsVarint, behind_run, behind_varint, behind_varlong, lead, run_of, varint_at};
ghost use Rattle.wire_prim.specs.Item.{bytes_item, count_item, int8_bytes, int16_bytes, int32_bytes, int64_bytes, nullable_bytes_item, nullable_count_item, nullable_string_item, string_item};

use crate::error::PrimNo;
use crate::varint::{few_grouped, grouped, lead, unzigzag};
use std::alloc::Global;
use std::marker::Model;

/// What is left to read, and how many bytes were read before it.
#[derive(Drop)]
pub struct Cursor<'a> {
    place: usize,
    rest: &'a [u8],
}

impl<'a> Model for Cursor<'a> {
    ghost use Rattle.wire_prim.specs.Reading.{Reading};
    ghost use Rattle.std.specs.Prelude.{◌<◌, ◌+◌, ◌^◌, length};

    ghost Value = { Reading };

    ghost view = { λ c. record { place = c.place; left = c.rest.now } };

    ghost invariant = { λ c. c.place + length c.rest.now < 2 ^ 64 };
}

impl<'a> Cursor<'a> {
    /// A cursor at the first byte.
    pub fn new(bytes: &'a [u8]) -> Cursor<'a>
        ensures { result ≡ record { place = 0; left = bytes.now } }
    {
        Cursor {
            place: 0,
            rest: bytes,
        }
    }

    /// How many bytes have been read.
    pub fn place(&self) -> usize
        ensures { result ≡ self.now.place }
    {
        self.place
    }

    /// The bytes that are left.
    pub fn rest(&self) -> &'a [u8]
        ensures { result.now ≡ self.now.left }
    {
        self.rest
    }

    /// How many bytes are left.
    pub fn left(&self) -> usize
        ensures { result ≡ length self.now.left }
    {
        self.rest.len()
    }

    /// An INT8: one byte, in two's complement. `Short` where none is left.
    pub fn int8(&mut self) -> Result<i8, PrimNo>
        ensures value { IfOk result (λ value. Takes (int8_bytes value) self.old self.new) }
        ensures at { IfOk result (λ value. value ≡ int8_at self.old.left) }
        ensures answer { Answers result (behind_int8 self.old.left) self.new.left }
        ensures stays { OnErr result (self.new ≡ self.old) }
    {
        let [a, rest @ ..] = self.rest else {
            return Err(PrimNo::Short);
        };
        self.rest = rest;
        self.place += 1;
        Ok(a.cast_signed())
    }

    /// An INT16: two bytes, the higher one first. `Short` where fewer are left.
    pub fn int16(&mut self) -> Result<i16, PrimNo>
        ensures value { IfOk result (λ value. Takes (int16_bytes value) self.old self.new) }
        ensures at { IfOk result (λ value. value ≡ int16_at self.old.left) }
        ensures answer { Answers result (behind_int16 self.old.left) self.new.left }
        ensures stays { OnErr result (self.new ≡ self.old) }
    {
        let [a, b, rest @ ..] = self.rest else {
            return Err(PrimNo::Short);
        };
        self.rest = rest;
        self.place += 2;
        Ok(i16::from_be_bytes([*a, *b]))
    }

    /// An INT32: four bytes, the highest first. `Short` where fewer are left.
    pub fn int32(&mut self) -> Result<i32, PrimNo>
        ensures value { IfOk result (λ value. Takes (int32_bytes value) self.old self.new) }
        ensures at { IfOk result (λ value. value ≡ int32_at self.old.left) }
        ensures answer { Answers result (behind_int32 self.old.left) self.new.left }
        ensures stays { OnErr result (self.new ≡ self.old) }
    {
        let [a, b, c, d, rest @ ..] = self.rest else {
            return Err(PrimNo::Short);
        };
        self.rest = rest;
        self.place += 4;
        Ok(i32::from_be_bytes([*a, *b, *c, *d]))
    }

    /// An INT64: eight bytes, the highest first. `Short` where fewer are left.
    pub fn int64(&mut self) -> Result<i64, PrimNo>
        ensures value { IfOk result (λ value. Takes (int64_bytes value) self.old self.new) }
        ensures at { IfOk result (λ value. value ≡ int64_at self.old.left) }
        ensures answer { Answers result (behind_int64 self.old.left) self.new.left }
        ensures stays { OnErr result (self.new ≡ self.old) }
    {
        let [a, b, c, d, e, f, g, h, rest @ ..] = self.rest else {
            return Err(PrimNo::Short);
        };
        self.rest = rest;
        self.place += 8;
        Ok(i64::from_be_bytes([*a, *b, *c, *d, *e, *f, *g, *h]))
    }

    /// Another cursor at the same place.
    pub fn copy(&self) -> Cursor<'a>
        ensures { result ≡ self.now }
    {
        Cursor {
            place: self.place,
            rest: self.rest,
        }
    }

    /// That many bytes. `Short` where fewer are left.
    pub fn piece(&mut self, count: usize) -> Result<&'a [u8], PrimNo>
        ensures value { IfOk result (λ piece. Takes piece.now self.old self.new × (length piece.now ≡ count)) }
        ensures answer { Answers result (behind_bytes count self.old.left) self.new.left }
        ensures stays { OnErr result (self.new ≡ self.old) }
    {
        let Some((piece, rest)) = self.rest.split_at_checked(count) else {
            return Err(PrimNo::Short);
        };
        self.rest = rest;
        self.place += count;
        Ok(piece)
    }

    /// A cursor over that many bytes, which are read here. Its places go on from here. `Short` where fewer are left.
    pub fn part(&mut self, count: usize) -> Result<Cursor<'a>, PrimNo>
        ensures value { IfOk result (λ part.
            Takes part.left self.old self.new
            × (length part.left ≡ count) × (part.place ≡ self.old.place)) }
        ensures answer { Answers result (behind_bytes count self.old.left) self.new.left }
        ensures stays { OnErr result (self.new ≡ self.old) }
    {
        let place = self.place;
        let rest = self.piece(count)?;
        Ok(Cursor { place, rest })
    }

    // As many bytes as a length says.
    fn sized(&mut self, size: i32) -> Result<&'a [u8], PrimNo>
        ensures value { IfOk result (λ piece.
            Takes piece.now self.old self.new × (size ≡ pos (length piece.now))) }
        ensures answer { Answers result (behind_sized size self.old.left) self.new.left }
    {
        if size < 0 {
            return Err(PrimNo::Negative);
        }
        self.piece(size as usize)
    }

    /// A text of so many bytes: a length that was read. `Negative` below 0, `BadUtf8` where the bytes aren't UTF-8.
    pub fn text(&mut self, size: i32) -> Result<&'a str, PrimNo>
        ensures value { IfOk result (λ text. Takes text.now self.old self.new × (size ≡ pos (length text.now))) }
        ensures answer { Answers result (behind_text size self.old.left) self.new.left }
        ensures stays { OnErr result (self.new ≡ self.old) }
    {
        let mut ahead = self.copy();
        let piece = ahead.sized(size)?;
        match str::from_utf8(piece) {
            Ok(text) => {
                *self = ahead;
                Ok(text)
            }
            Err(_) => Err(PrimNo::BadUtf8),
        }
    }

    /// A STRING: an INT16, the number of bytes, and the text in UTF-8. A length below 0 is `Negative`.
    pub fn string(&mut self, alloc: Global) -> Result<String, PrimNo>
        ensures value { IfOk result (λ text. Takes (string_item (string_bytes text)) self.old self.new) }
        ensures bound { IfOk result (λ text. length (string_bytes text) < 2 ^ 15) }
        ensures answer { AnswersOrWants result (behind_string self.old.left) self.new.left }
        ensures stays { OnErr result (self.new ≡ self.old) }
    {
        let mut ahead = self.copy();
        let size = ahead.int16()?;
        let text = match ahead.text(i32::from(size)) {
            Ok(text) => text,
            Err(cause) => return Err(cause),
        };
        let text = String::from_str(alloc, text)?;
        *self = ahead;
        Ok(text)
    }

    /// BYTES: an INT32, their number, and the bytes. A number below 0 is `Negative`.
    pub fn bytes(&mut self, alloc: Global) -> Result<Vec<u8>, PrimNo>
        ensures value { IfOk result (λ bytes. Takes (bytes_item bytes.items) self.old self.new) }
        ensures answer { AnswersOrWants result (behind_bytes_item self.old.left) self.new.left }
        ensures stays { OnErr result (self.new ≡ self.old) }
    {
        let mut ahead = self.copy();
        let size = ahead.int32()?;
        let piece = ahead.sized(size)?;
        let bytes = piece.to_vec(alloc)?;
        *self = ahead;
        Ok(bytes)
    }

    /// The number of items that stands before those of an ARRAY, an INT32. Below 0 it is `Negative`.
    pub fn count(&mut self) -> Result<u32, PrimNo>
        ensures value { IfOk result (λ count. Takes (count_item count) self.old self.new) }
        ensures bound { IfOk result (λ count. count < 2 ^ 31) }
        ensures at { IfOk result (λ count. count ≡ count_at self.old.left) }
        ensures answer { Answers result (behind_count self.old.left) self.new.left }
        ensures stays { OnErr result (self.new ≡ self.old) }
    {
        let mut ahead = self.copy();
        let size = ahead.int32()?;
        if size < 0 {
            return Err(PrimNo::Negative);
        }
        *self = ahead;
        Ok(size as u32)
    }

    /// A NULLABLE_STRING: a STRING, or the length -1 for null. A length below -1 is `Negative`.
    pub fn nullable_string(&mut self, alloc: Global) -> Result<Option<String>, PrimNo>
        ensures value { IfOk result (λ text.
            Takes (nullable_string_item (option_map string_bytes text)) self.old self.new) }
        ensures bound { IfOk result (λ text. IfSome text (λ t. length (string_bytes t) < 2 ^ 15)) }
        ensures answer { AnswersOrWants result (behind_nullable_string self.old.left) self.new.left }
        ensures stays { OnErr result (self.new ≡ self.old) }
    {
        let mut ahead = self.copy();
        let size = ahead.int16()?;
        if size == -1 {
            *self = ahead;
            return Ok(None);
        }
        let text = match ahead.text(i32::from(size)) {
            Ok(text) => text,
            Err(cause) => return Err(cause),
        };
        let text = String::from_str(alloc, text)?;
        *self = ahead;
        Ok(Some(text))
    }

    /// NULLABLE_BYTES: BYTES, or the number -1 for null. A number below -1 is `Negative`.
    pub fn nullable_bytes(&mut self, alloc: Global) -> Result<Option<Vec<u8>>, PrimNo>
        ensures value { IfOk result (λ bytes.
            Takes (nullable_bytes_item (option_map (λ b. b.items) bytes)) self.old self.new) }
        ensures answer { AnswersOrWants result (behind_nullable_bytes self.old.left) self.new.left }
        ensures stays { OnErr result (self.new ≡ self.old) }
    {
        let mut ahead = self.copy();
        let size = ahead.int32()?;
        if size == -1 {
            *self = ahead;
            return Ok(None);
        }
        let piece = ahead.sized(size)?;
        let bytes = piece.to_vec(alloc)?;
        *self = ahead;
        Ok(Some(bytes))
    }

    /// The number of items of an ARRAY that may be null: -1 is null. Below -1 it is `Negative`.
    pub fn nullable_count(&mut self) -> Result<Option<u32>, PrimNo>
        ensures value { IfOk result (λ count. Takes (nullable_count_item count) self.old self.new) }
        ensures bound { IfOk result (λ count. IfSome count (λ n. n < 2 ^ 31)) }
        ensures at { IfOk result (λ count. count ≡ nullable_count_at self.old.left) }
        ensures answer { Answers result (behind_nullable_count self.old.left) self.new.left }
        ensures stays { OnErr result (self.new ≡ self.old) }
    {
        let mut ahead = self.copy();
        let size = ahead.int32()?;
        if size < -1 {
            return Err(PrimNo::Negative);
        }
        *self = ahead;
        if size == -1 {
            Ok(None)
        } else {
            Ok(Some(size as u32))
        }
    }

    // The run of bytes of a varint, in at most so many bytes.
    fn run(&mut self, limit: usize) -> Result<&'a [u8], PrimNo>
        ensures value { IfOk result (λ run. Takes run.now self.old self.new × (run.now ≡ run_of self.old.left)) }
        ensures bound { IfOk result (λ run. length run.now ≤ limit) }
        ensures ends { IfOk result (λ run. length run.now ≡ suc (lead run.now)) }
        ensures answer { Answers result (behind_run limit self.old.left) self.new.left }
        ensures stays { OnErr result (self.new ≡ self.old) }
    {
        let count = lead(self.rest, limit);
        if count == limit {
            return Err(PrimNo::TooLong);
        }
        if count == self.rest.len() {
            return Err(PrimNo::Short);
        }
        let (run, rest) = self.rest.split_at(count + 1);
        self.rest = rest;
        self.place += count + 1;
        Ok(run)
    }

    // The number of a varint of one byte or two.
    fn few(&mut self) -> Option<u64>
        ensures value { IfSome result (λ number. IsFew number self.old self.new) }
        ensures stays { IfNone result (self.new ≡ self.old) }
    {
        match self.rest {
            [first, rest @ ..] if *first < 128 => {
                self.rest = rest;
                self.place += 1;
                Some(u64::from(*first))
            }
            [first, second, rest @ ..] if *second < 128 => {
                self.rest = rest;
                self.place += 2;
                Some(u64::from(*first % 128) + 128 * u64::from(*second))
            }
            _ => None,
        }
    }

    // A VARINT of more bytes than two.
    fn long_varint(&mut self) -> Result<i32, PrimNo>
        ensures value { IfOk result (λ value.
            IsVarint 5 value (run_of self.old.left)
            × Takes (run_of self.old.left) self.old self.new) }
        ensures at { IfOk result (λ value. value ≡ varint_at self.old.left) }
        ensures answer { Answers result (behind_varint self.old.left) self.new.left }
        ensures stays { OnErr result (self.new ≡ self.old) }
    {
        let mut ahead = self.copy();
        let run = ahead.run(5)?;
        let Ok(number) = u32::try_from(few_grouped(run)) else {
            return Err(PrimNo::TooLong);
        };
        *self = ahead;
        Ok(unzigzag(u64::from(number)) as i32)
    }

    /// A VARINT: a zigzag integer of 32 bits in at most 5 bytes, of which it may have more than it needs. `TooLong` where a
    /// fifth byte says that another follows, or the value doesn't fit.
    pub fn varint(&mut self) -> Result<i32, PrimNo>
        ensures value { IfOk result (λ value.
            IsVarint 5 value (run_of self.old.left)
            × Takes (run_of self.old.left) self.old self.new) }
        ensures at { IfOk result (λ value. value ≡ varint_at self.old.left) }
        ensures answer { Answers result (behind_varint self.old.left) self.new.left }
        ensures stays { OnErr result (self.new ≡ self.old) }
    {
        match self.few() {
            Some(number) => Ok(unzigzag(number) as i32),
            None => self.long_varint(),
        }
    }

    // A VARLONG of more bytes than two.
    fn long_varlong(&mut self) -> Result<i64, PrimNo>
        ensures value { IfOk result (λ value.
            IsVarint 10 value (run_of self.old.left)
            × Takes (run_of self.old.left) self.old self.new) }
        ensures at { IfOk result (λ value. value ≡ varint_at self.old.left) }
        ensures answer { Answers result (behind_varlong self.old.left) self.new.left }
        ensures stays { OnErr result (self.new ≡ self.old) }
    {
        let mut ahead = self.copy();
        let run = ahead.run(10)?;
        let Ok(number) = u64::try_from(grouped(run)) else {
            return Err(PrimNo::TooLong);
        };
        *self = ahead;
        Ok(unzigzag(number))
    }

    /// A VARLONG: a zigzag integer of 64 bits in at most 10 bytes, of which it may have more than it needs. `TooLong` where
    /// a tenth byte says that another follows, or the value doesn't fit.
    pub fn varlong(&mut self) -> Result<i64, PrimNo>
        ensures value { IfOk result (λ value.
            IsVarint 10 value (run_of self.old.left)
            × Takes (run_of self.old.left) self.old self.new) }
        ensures at { IfOk result (λ value. value ≡ varint_at self.old.left) }
        ensures answer { Answers result (behind_varlong self.old.left) self.new.left }
        ensures stays { OnErr result (self.new ≡ self.old) }
    {
        match self.few() {
            Some(number) => Ok(unzigzag(number)),
            None => self.long_varlong(),
        }
    }
}
