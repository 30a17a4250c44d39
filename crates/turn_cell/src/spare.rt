// The slots of a cell. The first has the value, and the others keep it out of the cache line of another cell's.
ghost use Rattle.std.specs.Prelude.{◌≡◌, ℕ, ◌<◌, ◌∷◌, [], false, Some, None, IfOk, IsTrue, slice_index_or, slice_set};
ghost use Rattle.std.specs.Slots.{slots_items, slots_filled, slots_len};
ghost use mathlib.Core.Option.{some};
ghost use lib.ListN.{get_elem?};

use atomic_table::Closed;
use gate_io::Want;
use std::alloc::Global;

pub(crate) fn row<T: Drop>(alloc: Global, first: T) -> Result<Vec<Option<T>>, Want>
    ensures { IfOk result (λ v. v.items ≡ Some first ∷ None ∷ None ∷ None ∷ []) }
{
    let Ok(mut slots) = Vec::with_capacity(alloc, 4) else {
        return Err(Want);
    };
    slots.push_reserved(Some(first));
    slots.push_reserved(None);
    slots.push_reserved(None);
    slots.push_reserved(None);
    Ok(slots)
}

// Frees a row of which the first slot is empty, and to the others nothing was put.
pub(crate) fn free_spares<T>(mut closed: Closed<Option<T>, Global>)
    requires four { slots_len closed.slots ≡ 4 }
    requires first { slice_index_or (slots_filled closed.slots) 0 false ≡ false }
    requires others { (k : ℕ) → 0 < k → k < 4 → IsTrue (slice_index_or (slots_filled closed.slots) k false) × (get_elem? (slots_items closed.slots) k ≡ some None) }
{
    leave_empty(&mut closed, 1);
    leave_empty(&mut closed, 2);
    leave_empty(&mut closed, 3);
    closed.free();
}

fn leave_empty<T>(closed: &mut Closed<Option<T>, Global>, place: usize)
    requires slot { (place < slots_len closed.old.slots) × IsTrue (slice_index_or (slots_filled closed.old.slots) place false) }
    requires empty { get_elem? (slots_items closed.old.slots) place ≡ some None }
    ensures items { slots_items closed.new.slots ≡ slots_items closed.old.slots }
    ensures filled { slots_filled closed.new.slots ≡ slice_set (slots_filled closed.old.slots) place false }
    ensures len { slots_len closed.new.slots ≡ slots_len closed.old.slots }
{
    match closed.take(place) {
        None => {}
        Some(_) => unreachable!(),
    }
}
