//! Laws of the items: bytes that begin with the spelling of a value begin with that of no other.
ghost use Rattle.std.specs.Prelude.{ℤ, ℕ, List, ◌≡◌, ◌++◌, ◌<◌, ◌^◌, length, FitsSigned};
ghost use Rattle.std.specs.Option.{ForSome};
ghost use Rattle.std.specs.Int.{w16, w32, w64};
ghost use Rattle.wire_prim.specs.Item.{bytes_item, count_item, int16_bytes, int32_bytes, int64_bytes, nullable_bytes_item, nullable_count_item, nullable_string_item, string_item};
ghost use Rattle.wire_prim.specs.Laws.{HasOneReading, ReadsBack};
ghost use Rattle.wire_prim.specs.Varint.{IsVarint, behind_varint, behind_varlong, varint_at};

/// No two values of an item of a message begin the same bytes.
pub fn items_have_one_reading()
    ensures int16 { HasOneReading (FitsSigned w16) int16_bytes }
    ensures int32 { HasOneReading (FitsSigned w32) int32_bytes }
    ensures int64 { HasOneReading (FitsSigned w64) int64_bytes }
    ensures string { HasOneReading (λ text. length text < 2 ^ 15) string_item }
    ensures nullable_string { HasOneReading (λ text. ForSome text (λ t. length t < 2 ^ 15)) nullable_string_item }
    ensures bytes { HasOneReading (λ piece. length piece < 2 ^ 31) bytes_item }
    ensures nullable_bytes { HasOneReading (λ piece. ForSome piece (λ p. length p < 2 ^ 31)) nullable_bytes_item }
    ensures count { HasOneReading (λ count. count < 2 ^ 31) count_item }
    ensures nullable_count { HasOneReading (λ count. ForSome count (λ n. n < 2 ^ 31)) nullable_count_item }
{}

/// Each spelling of an integer of variable length is read, and as that integer alone.
pub fn varints_have_one_reading()
    ensures varint { (value : ℤ) (item : List ℕ) → FitsSigned w32 value → IsVarint 5 value item
        → ReadsBack item behind_varint × ((rest : List ℕ) → varint_at (item ++ rest) ≡ value) }
    ensures varlong { (value : ℤ) (item : List ℕ) → FitsSigned w64 value → IsVarint 10 value item
        → ReadsBack item behind_varlong × ((rest : List ℕ) → varint_at (item ++ rest) ≡ value) }
{}
