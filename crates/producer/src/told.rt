ghost use Rattle.std.specs.Prelude.{◌≡◌, ◌==◌, ◌+◌, ◌-◌, ◌^◌, min, ℕ, nat_abs, Option, List, [], ◌∷◌, map, length, IfOk, slice_set};
ghost use Rattle.std.specs.List.{position};
ghost use Rattle.producer.specs.Groups.{bump, bumped, code_at, cursor_of, next_at, told_by};

use broker_link::PartPlaced;
use gate_io::Items;
use rest_replies::Told;
use std::alloc::{AllocError, Global};

/// A partition that records are answered for, and the offset of the next one.
#[derive(Clone, Copy, Debug)]
pub(crate) struct Cursor {
    pub number: u32,
    pub code: i16,
    pub next: u64,
}

fn cursor_on(placed: &PartPlaced) -> Cursor
    ensures { result ≡ cursor_of placed.now }
{
    Cursor {
        number: placed.partition.unsigned_abs(),
        code: placed.code,
        next: placed.base.unsigned_abs(),
    }
}

fn cursors_on(alloc: Global, placed: &[PartPlaced]) -> Result<Vec<Cursor>, AllocError>
    ensures { IfOk result (λ cursors. cursors.items ≡ map cursor_of placed.now) }
{
    let mut cursors = Vec::new(alloc);
    for one in placed {
        cursors.push(cursor_on(one))?;
    }
    Ok(cursors)
}

fn place_of(cursors: &[Cursor], number: u32) -> Option<usize>
    ensures { result ≡ position (λ c. c.number == number) cursors.now }
{
    cursors.iter().position(|c| c.number == number)
}

fn answer_at(number: u32, cursor: &Cursor) -> Told
    ensures { result ≡ record { partition = number; code = cursor.now.code; offset = cursor.now.next } }
{
    Told {
        partition: number,
        code: cursor.code,
        offset: cursor.next,
    }
}

fn moved_on(cursor: &Cursor) -> Cursor
    ensures { result ≡ bumped cursor.now }
{
    Cursor {
        number: cursor.number,
        code: cursor.code,
        next: cursor.next.saturating_add(1),
    }
}

/// The answer of the next record of that partition.
fn next(cursors: &mut [Cursor], number: u32) -> Told
    ensures cursors { cursors.new ≡ bump number cursors.old }
    ensures told { result ≡ record { partition = number; code = code_at cursors.old number; offset = next_at cursors.old number } }
{
    match place_of(cursors, number) {
        Some(place) => {
            let told = answer_at(number, &cursors[place]);
            let moved = moved_on(&cursors[place]);
            cursors[place] = moved;
            told
        }
        None => Told {
            partition: number,
            code: 3,
            offset: 0,
        },
    }
}

/// The answer of each record, in request order.
pub(crate) fn tell(
    alloc: Global,
    numbers: &[u32],
    placed: &[PartPlaced],
) -> Result<Items<Told>, AllocError>
    ensures { IfOk result (λ told. told ≡ told_by (map cursor_of placed.now) numbers.now) }
{
    let mut cursors = cursors_on(alloc, placed)?;
    let mut told = Items::new(alloc);
    for number in numbers {
        told.push(next(&mut cursors, *number))?;
    }
    Ok(told)
}
