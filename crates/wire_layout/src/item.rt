//! Items that stand in arrays, and those that don't.
ghost use Rattle.std.specs.Prelude.{◌≡◌};
ghost use Rattle.wire_layout.specs.Layout.{int8, int16, int32, int64, string, nullable_string};
ghost use Rattle.wire_layout.specs.ItemLaws.{int8_laid, int16_laid, int32_laid, int64_laid, string_laid, nullable_string_laid};

use crate::laid::{Laid, Put};
use gate_io::{Text, Want};
use std::alloc::Global;
use wire_prim::{
    Cursor, PrimNo, put_int8, put_int16, put_int32, put_int64, put_nullable_string, put_string,
};

#[tactic(auto, unfolding(crate::specs::Layout::int8))]
impl Put for i8 {
    ghost layout = { int8 };

    fn put(&self, out: &mut Vec<u8>) -> Result<(), Want> {
        put_int8(out, *self)
    }
}

#[tactic(auto, using(crate::proofs::Places::reaches), unfolding(crate::specs::Layout::int8))]
impl Laid for i8 {
    fn decode(alloc: Global, cursor: &mut Cursor) -> Result<i8, PrimNo> {
        let _ = alloc;
        cursor.int8()
    }

    ghost laid = { int8_laid };
}

#[tactic(auto, unfolding(crate::specs::Layout::int16))]
impl Put for i16 {
    ghost layout = { int16 };

    fn put(&self, out: &mut Vec<u8>) -> Result<(), Want> {
        put_int16(out, *self)
    }
}

#[tactic(auto, using(crate::proofs::Places::reaches), unfolding(crate::specs::Layout::int16))]
impl Laid for i16 {
    fn decode(alloc: Global, cursor: &mut Cursor) -> Result<i16, PrimNo> {
        let _ = alloc;
        cursor.int16()
    }

    ghost laid = { int16_laid };
}

#[tactic(auto, unfolding(crate::specs::Layout::int32))]
impl Put for i32 {
    ghost layout = { int32 };

    fn put(&self, out: &mut Vec<u8>) -> Result<(), Want> {
        put_int32(out, *self)
    }
}

#[tactic(auto, using(crate::proofs::Places::reaches), unfolding(crate::specs::Layout::int32))]
impl Laid for i32 {
    fn decode(alloc: Global, cursor: &mut Cursor) -> Result<i32, PrimNo> {
        let _ = alloc;
        cursor.int32()
    }

    ghost laid = { int32_laid };
}

#[tactic(auto, unfolding(crate::specs::Layout::int64))]
impl Put for i64 {
    ghost layout = { int64 };

    fn put(&self, out: &mut Vec<u8>) -> Result<(), Want> {
        put_int64(out, *self)
    }
}

#[tactic(auto, using(crate::proofs::Places::reaches), unfolding(crate::specs::Layout::int64))]
impl Laid for i64 {
    fn decode(alloc: Global, cursor: &mut Cursor) -> Result<i64, PrimNo> {
        let _ = alloc;
        cursor.int64()
    }

    ghost laid = { int64_laid };
}

#[tactic(auto, unfolding(crate::specs::Layout::string))]
impl Put for Text {
    ghost layout = { string };

    fn put(&self, out: &mut Vec<u8>) -> Result<(), Want> {
        let text = self.as_str();
        if text.len() > 0x7fff {
            return Err(Want);
        }
        put_string(out, text)
    }
}

#[tactic(auto, using(crate::proofs::Places::stops), unfolding(crate::specs::Layout::string))]
impl Laid for Text {
    fn decode(alloc: Global, cursor: &mut Cursor) -> Result<Text, PrimNo> {
        let text = cursor.string(alloc)?;
        Ok(Text::from_string(text))
    }

    ghost laid = { string_laid };
}

#[tactic(auto, unfolding(crate::specs::Layout::nullable_string, crate::specs::Layout::string))]
impl Put for Option<Text> {
    ghost layout = { nullable_string };

    fn put(&self, out: &mut Vec<u8>) -> Result<(), Want> {
        match self {
            Some(text) if text.as_str().len() > 0x7fff => Err(Want),
            Some(text) => put_nullable_string(out, Some(text.as_str())),
            None => put_nullable_string(out, None),
        }
    }
}

#[tactic(auto, using(crate::proofs::Places::stops), unfolding(crate::specs::Layout::nullable_string))]
impl Laid for Option<Text> {
    fn decode(alloc: Global, cursor: &mut Cursor) -> Result<Option<Text>, PrimNo> {
        match cursor.nullable_string(alloc)? {
            Some(text) => Ok(Some(Text::from_string(text))),
            None => Ok(None),
        }
    }

    ghost laid = { nullable_string_laid };
}
