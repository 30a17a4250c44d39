//! Laws of data as bytes.
ghost use Rattle.std.specs.Prelude.{◌≡◌, ◌≤◌, ◌++◌, ℕ, List};
ghost use Rattle.avro_schema.specs.Types.{AvroType};
ghost use Rattle.avro_value.specs.Value.{IsWithin, Value, max_nodes, nodes};
ghost use Rattle.avro_codec.specs.Spelling.{IsDatum};

/// No spelling of a value begins a spelling of another, nor another spelling of its own.
pub fn no_spelling_begins_another()
    ensures { (whole t : AvroType) (levels : ℕ) (v w : Value) (a b r s : List ℕ) → IsDatum whole t v a → IsDatum whole t w b
        → IsWithin levels v → IsWithin levels w → nodes v ≤ max_nodes → nodes w ≤ max_nodes
        → a ++ r ≡ b ++ s → (v ≡ w) × (a ≡ b) }
{}
