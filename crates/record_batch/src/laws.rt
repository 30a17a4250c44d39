//! Laws of the rows of a batch.
ghost use Rattle.std.specs.Prelude.{List, ℕ, ◌≡◌, pos, length, All};
ghost use Rattle.wire_prim.specs.Reading.{Reading};
ghost use Rattle.broker_link.specs.declared.link.Stored.{Stored};
ghost use Rattle.record_batch.specs.Batch.{IsOffset, Rises, batch_at, batches_of};

/// The offsets of a batch that reads rise strictly, and all lie from 0 to 2^63 - 2.
pub fn offsets_of_a_batch_rise()
    ensures all { (bytes : List ℕ) (rows : List Stored) → batches_of bytes ≡ Ok rows
        → All (λ row. IsOffset row.offset) rows }
    ensures rise { (at : Reading) (rows : List Stored) → batch_at at ≡ Ok rows → Rises (pos 0) rows }
{}
