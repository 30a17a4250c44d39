//! Arrays of a message.
ghost use Rattle.std.specs.Prelude.{◌≡◌, ◌++◌, length, IfOk, OnOk};
ghost use Rattle.wire_prim.specs.Reading.{Takes};
ghost use Rattle.wire_layout.specs.Layout.{ReachesOrWants, array, behind_many, each, nullable_array, spelled};
ghost use Rattle.wire_layout.specs.ArrayLaws.{array_laid, nullable_array_laid};

use crate::laid::{Laid, Put};
use gate_io::{Items, Want};
use std::alloc::Global;
use wire_prim::{Cursor, PrimNo, put_count, put_nullable_count};

fn put_items<T: Put>(out: &mut Vec<u8>, items: &[T]) -> Result<(), Want>
    ensures ok { OnOk result (out.new.items ≡ out.old.items ++ spelled T.layout.spelling items.now) }
    ensures fits { OnOk result (each T.layout.fits items.now) }
{
    for item in items {
        item.put(out)?;
    }
    Ok(())
}

fn decode_items<T: Laid + Drop>(
    alloc: Global,
    cursor: &mut Cursor,
    count: u32,
) -> Result<Items<T>, PrimNo>
    ensures value { IfOk result (λ items. Takes (spelled T.layout.spelling items) cursor.old cursor.new) }
    ensures fits { IfOk result (λ items. each T.layout.fits items) }
    ensures count { IfOk result (λ items. length items ≡ count) }
    ensures answer { ReachesOrWants result (behind_many count T.layout.behind cursor.old.left) cursor.new.left }
{
    let mut items = Items::new(alloc);
    for _ in 0..count {
        let item = match T::decode(alloc, cursor) {
            Ok(item) => item,
            Err(cause) => return Err(cause),
        };
        items.push(item)?;
    }
    Ok(items)
}

#[tactic(auto, unfolding(crate::specs::Layout::array))]
impl<T: Put> Put for Items<T> {
    ghost layout = { array T.layout };

    fn put(&self, out: &mut Vec<u8>) -> Result<(), Want> {
        let items = self.as_slice();
        if items.len() > 0x7fff_ffff {
            return Err(Want);
        }
        put_count(out, items.len() as u32)?;
        put_items(out, items)
    }
}

#[tactic(auto, unfolding(crate::specs::Layout::array))]
impl<T: Laid + Drop> Laid for Items<T> {
    fn decode(alloc: Global, cursor: &mut Cursor) -> Result<Items<T>, PrimNo> {
        let count = cursor.count()?;
        decode_items(alloc, cursor, count)
    }

    ghost laid = { array_laid T.layout T.laid };
}

#[tactic(auto, unfolding(crate::specs::Layout::nullable_array, crate::specs::Layout::array))]
impl<T: Put> Put for Option<Items<T>> {
    ghost layout = { nullable_array T.layout };

    fn put(&self, out: &mut Vec<u8>) -> Result<(), Want> {
        match self {
            Some(items) if items.len() > 0x7fff_ffff => Err(Want),
            Some(items) => {
                put_nullable_count(out, Some(items.len() as u32))?;
                put_items(out, items.as_slice())
            }
            None => put_nullable_count(out, None),
        }
    }
}

#[tactic(auto, unfolding(crate::specs::Layout::nullable_array))]
impl<T: Laid + Drop> Laid for Option<Items<T>> {
    fn decode(alloc: Global, cursor: &mut Cursor) -> Result<Option<Items<T>>, PrimNo> {
        let Some(count) = cursor.nullable_count()? else {
            return Ok(None);
        };
        let items = decode_items(alloc, cursor, count)?;
        Ok(Some(items))
    }

    ghost laid = { nullable_array_laid T.layout T.laid };
}
