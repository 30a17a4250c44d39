ghost use Rattle.std.specs.Prelude.{ℕ, List, Bool, true};
ghost use Rattle.avro_schema.specs.Types.{AvroType};
ghost use Rattle.avro_schema.specs.Distinct.{HasNames};
ghost use Rattle.avro_schema.specs.Canonical.{canonical_form};
ghost use Rattle.avro_schema.specs.Reading.{ReadsAs};

/// The canonical form of each schema that is read reads, with every name taken as a fullname, as that schema.
pub fn canonical_forms_read_back()
    ensures { (canonical : Bool) (bytes : List ℕ) (t : AvroType)
        → ReadsAs canonical bytes t → ReadsAs true (canonical_form t) t }
{}

/// In each schema that is read the names of a union's branches, an enum's symbols and a record's fields differ.
pub fn names_of_a_schema_differ()
    ensures { (canonical : Bool) (bytes : List ℕ) (t : AvroType) → ReadsAs canonical bytes t → HasNames t }
{}
