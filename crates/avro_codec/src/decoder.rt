//! A datum from bytes.
ghost use Rattle.std.specs.Prelude.{◌≡◌, ◌==◌, ◌&&◌, ◌≤◌, ℕ, false, map, length, Ok, IfOk, MatchResult};
ghost use Rattle.avro_schema.specs.Types.{AvroType, Branches, Fields, resolved};
ghost use Rattle.avro_schema.specs.Nodes.{HasNode, IsOfKind, Stands, StandForBranches, StandForFields, tree_of};
ghost use Rattle.avro_datum.specs.Data.{item_of, value_of};
ghost use Rattle.avro_value.specs.Value.{IsSmall, Value, entries_of, values_of};
ghost use Rattle.avro_codec.specs.Spelling.{IsDatum};
ghost use Rattle.avro_value.specs.declared.error.AvroNo.TheVariants.{Want};
ghost use Rattle.avro_value.specs.Value as shapes;
ghost use Rattle.avro_codec.specs.Reading.{Reader, Reads, all_blocks, below_at, body_at, datum_at, entry_at, enum_at, fields_at, giving, many, run_at, sized_at, text_at, union_at, value_at, with_front};
ghost use Rattle.avro_value.specs.Steps.{Fails};
ghost use Rattle.avro_value.specs.Picks.{is_nesting};

use crate::cursor::{Cursor, weighs};
use avro_datum::{
    Datum, MapItem, make_branch, make_entries, make_fields, make_items, push_entry, push_value,
};
use avro_schema::{Field, Kind, Schema};
use avro_value::AvroNo;
use avro_value::limits::MAX_LEVELS;
use avro_value::pick::is_too_deep;
use gate_io::Text;
use sqlite_items::{Items, at};
use std::alloc::Global;

impl<'a> Cursor<'a> {
    // The bytes of a node without parts.
    fn leaf(
        &mut self,
        alloc: Global,
        schema: &Schema,
        place: u32,
        kind: Kind,
        node: u32,
    ) -> Result<Datum, AvroNo>
        requires kind { IsOfKind schema.now place kind }
        requires plain { is_nesting kind ≡ false }
        ensures value { (t : AvroType) → Stands schema.now place t → (inner : Reader) → Reads value_of result
            (body_at inner node (resolved (tree_of schema.now) t) self.old) self.new }
        ensures shrinks { length self.new.left ≤ length self.old.left }
    {
        match kind {
            Kind::Null => Ok(Datum::Null),
            Kind::Boolean => match self.flag(node) {
                Ok(value) => Ok(Datum::Boolean(value)),
                Err(e) => Err(e),
            },
            Kind::Int => match self.int(node) {
                Ok(value) => Ok(Datum::Int(value)),
                Err(e) => Err(e),
            },
            Kind::Long => match self.long(node) {
                Ok(value) => Ok(Datum::Long(value)),
                Err(e) => Err(e),
            },
            Kind::Bytes => self.bytes(alloc, node),
            Kind::Text => self.string(alloc, node),
            Kind::Fixed(size) => self.fixed(alloc, size),
            Kind::Enum => self.symbol(schema.symbols(place).len(), node),
            Kind::Array(_) | Kind::Map(_) | Kind::Union | Kind::Record => unreachable!(),
        }
    }

    fn bytes(&mut self, alloc: Global, node: u32) -> Result<Datum, AvroNo>
        ensures value { Reads value_of result (giving shapes.bytes (sized_at node self.old)) self.new }
        ensures shrinks { length self.new.left ≤ length self.old.left }
    {
        match self.sized(node) {
            Ok(piece) => match Items::from_slice(alloc, piece) {
                Ok(items) => Ok(Datum::Bytes(items)),
                Err(_) => Err(AvroNo::Want),
            },
            Err(e) => Err(e),
        }
    }

    fn string(&mut self, alloc: Global, node: u32) -> Result<Datum, AvroNo>
        ensures value { Reads value_of result (giving shapes.string (text_at node self.old)) self.new }
        ensures shrinks { length self.new.left ≤ length self.old.left }
    {
        match self.text(node) {
            Ok(text) => match Text::from_str(alloc, text) {
                Ok(text) => Ok(Datum::Text(text)),
                Err(_) => Err(AvroNo::Want),
            },
            Err(e) => Err(e),
        }
    }

    fn fixed(&mut self, alloc: Global, size: u32) -> Result<Datum, AvroNo>
        ensures value { Reads value_of result (giving shapes.fixed (run_at size self.old)) self.new }
        ensures shrinks { length self.new.left ≤ length self.old.left }
    {
        match self.run(u64::from(size)) {
            Ok(piece) => match Items::from_slice(alloc, piece) {
                Ok(items) => Ok(Datum::Fixed(items)),
                Err(_) => Err(AvroNo::Want),
            },
            Err(e) => Err(e),
        }
    }

    fn symbol(&mut self, count: usize, node: u32) -> Result<Datum, AvroNo>
        ensures value { Reads value_of result (enum_at node count self.old) self.new }
        ensures shrinks { length self.new.left ≤ length self.old.left }
    {
        let place = match self.int(node) {
            Ok(place) => place,
            Err(e) => return Err(e),
        };
        if place < 0 || count <= place as usize {
            return Err(AvroNo::Mismatch(node));
        }
        Ok(Datum::Symbol(place as u32))
    }

    // So many items behind those that are there.
    #[cycle(decoder)]
    fn more_items(
        &mut self,
        alloc: Global,
        schema: &Schema,
        item: u32,
        levels: u32,
        count: u64,
        out: &mut Vec<Datum>,
    ) -> Result<(), AvroNo>
        requires { HasNode schema.now item }
        ensures value { (u : AvroType) → Stands schema.now item u → Reads (λ _. map value_of out.new.items) result
            (with_front (map value_of out.old.items) (many count (value_at (tree_of schema.now) levels u) self.old)) self.new }
        ensures shrinks { length self.new.left ≤ length self.old.left }
    {
        let mut left = count;
        while left > 0 {
            let value = match self.value(alloc, schema, item, levels) {
                Ok(value) => value,
                Err(e) => return Err(e),
            };
            push_value(out, value)?;
            left -= 1;
        }
        Ok(())
    }

    #[cycle(decoder)]
    fn items(
        &mut self,
        alloc: Global,
        schema: &Schema,
        item: u32,
        levels: u32,
        node: u32,
    ) -> Result<Vec<Datum>, AvroNo>
        requires { HasNode schema.now item }
        ensures value { (u : AvroType) → Stands schema.now item u → Reads (λ v. map value_of v.items) result
            (all_blocks node (value_at (tree_of schema.now) levels u) self.old) self.new }
        ensures shrinks { length self.new.left ≤ length self.old.left }
    {
        let mut out = Vec::new(alloc);
        loop {
            let head = match self.head(node) {
                Ok(head) => head,
                Err(e) => return Err(e),
            };
            if head.count == 0 {
                return Ok(out);
            }
            let before = self.left();
            match self.more_items(alloc, schema, item, levels, head.count, &mut out) {
                Ok(()) => {}
                Err(e) => return Err(e),
            }
            if !weighs(head.size, before - self.left()) {
                return Err(AvroNo::Mismatch(node));
            }
        }
    }

    // So many entries behind those that are there.
    #[cycle(decoder)]
    fn more_entries(
        &mut self,
        alloc: Global,
        schema: &Schema,
        value: u32,
        levels: u32,
        node: u32,
        count: u64,
        out: &mut Vec<MapItem>,
    ) -> Result<(), AvroNo>
        requires { HasNode schema.now value }
        ensures value { (u : AvroType) → Stands schema.now value u → Reads (λ _. map item_of out.new.items) result
            (with_front (map item_of out.old.items)
            (many count (entry_at (value_at (tree_of schema.now) levels) node u) self.old)) self.new }
        ensures shrinks { length self.new.left ≤ length self.old.left }
    {
        let mut left = count;
        while left > 0 {
            let key = match self.text(node) {
                Ok(key) => key,
                Err(e) => return Err(e),
            };
            let value = match self.value(alloc, schema, value, levels) {
                Ok(value) => value,
                Err(e) => return Err(e),
            };
            push_entry(alloc, out, key, value)?;
            left -= 1;
        }
        Ok(())
    }

    #[cycle(decoder)]
    fn entries(
        &mut self,
        alloc: Global,
        schema: &Schema,
        value: u32,
        levels: u32,
        node: u32,
    ) -> Result<Vec<MapItem>, AvroNo>
        requires { HasNode schema.now value }
        ensures value { (u : AvroType) → Stands schema.now value u → Reads (λ v. map item_of v.items) result
            (all_blocks node (entry_at (value_at (tree_of schema.now) levels) node u) self.old) self.new }
        ensures shrinks { length self.new.left ≤ length self.old.left }
    {
        let mut out = Vec::new(alloc);
        loop {
            let head = match self.head(node) {
                Ok(head) => head,
                Err(e) => return Err(e),
            };
            if head.count == 0 {
                return Ok(out);
            }
            let before = self.left();
            match self.more_entries(alloc, schema, value, levels, node, head.count, &mut out) {
                Ok(()) => {}
                Err(e) => return Err(e),
            }
            if !weighs(head.size, before - self.left()) {
                return Err(AvroNo::Mismatch(node));
            }
        }
    }

    #[cycle(decoder)]
    fn fields(
        &mut self,
        alloc: Global,
        schema: &Schema,
        fields: &[Field],
        levels: u32,
    ) -> Result<Vec<Datum>, AvroNo>
        requires { (ts : Fields) × StandForFields schema.now fields.now ts }
        ensures value { (ts : Fields) → StandForFields schema.now fields.now ts → Reads (λ v. map value_of v.items) result
            (fields_at (value_at (tree_of schema.now) levels) ts self.old) self.new }
        ensures shrinks { length self.new.left ≤ length self.old.left }
    {
        let mut out = Vec::with_capacity(alloc, fields.len())?;
        for field in fields {
            let value = match self.value(alloc, schema, field.node, levels) {
                Ok(value) => value,
                Err(e) => return Err(e),
            };
            push_value(&mut out, value)?;
        }
        Ok(out)
    }

    #[cycle(decoder)]
    fn branch(
        &mut self,
        alloc: Global,
        schema: &Schema,
        branches: &[u32],
        levels: u32,
        node: u32,
    ) -> Result<Datum, AvroNo>
        requires { (ts : Branches) × StandForBranches schema.now branches.now ts }
        ensures value { (ts : Branches) → StandForBranches schema.now branches.now ts → Reads value_of result
            (union_at (value_at (tree_of schema.now) levels) node ts self.old) self.new }
        ensures shrinks { length self.new.left ≤ length self.old.left }
    {
        let place = match self.long(node) {
            Ok(place) => place,
            Err(e) => return Err(e),
        };
        let Ok(place) = u32::try_from(place) else {
            return Err(AvroNo::Mismatch(node));
        };
        let Some(branch) = at(branches, place as usize) else {
            return Err(AvroNo::Mismatch(node));
        };
        let value = match self.value(alloc, schema, *branch, levels) {
            Ok(value) => value,
            Err(e) => return Err(e),
        };
        make_branch(alloc, place, value)
    }

    // The bytes of a node that isn't too deep.
    #[cycle(decoder)]
    fn body(
        &mut self,
        alloc: Global,
        schema: &Schema,
        place: u32,
        kind: Kind,
        levels: u32,
        node: u32,
    ) -> Result<Datum, AvroNo>
        requires kind { IsOfKind schema.now place kind }
        requires room { (is_nesting kind && (levels == 0)) ≡ false }
        ensures value { (t : AvroType) → Stands schema.now place t → Reads value_of result
            (body_at (below_at (tree_of schema.now) levels) node (resolved (tree_of schema.now) t) self.old) self.new }
        ensures shrinks { length self.new.left ≤ length self.old.left }
    {
        match kind {
            Kind::Array(item) => match self.items(alloc, schema, item, levels - 1, node) {
                Ok(items) => Ok(make_items(items)),
                Err(e) => Err(e),
            },
            Kind::Map(value) => match self.entries(alloc, schema, value, levels - 1, node) {
                Ok(entries) => Ok(make_entries(entries)),
                Err(e) => Err(e),
            },
            Kind::Record => match self.fields(alloc, schema, schema.fields(place), levels - 1) {
                Ok(fields) => Ok(make_fields(fields)),
                Err(e) => Err(e),
            },
            Kind::Union => self.branch(alloc, schema, schema.branches(place), levels - 1, node),
            _ => self.leaf(alloc, schema, place, kind, node),
        }
    }

    #[cycle(decoder)]
    fn value(
        &mut self,
        alloc: Global,
        schema: &Schema,
        place: u32,
        levels: u32,
    ) -> Result<Datum, AvroNo>
        requires { HasNode schema.now place }
        ensures value { (t : AvroType) → Stands schema.now place t → Reads value_of result
            (value_at (tree_of schema.now) levels t self.old) self.new }
        ensures shrinks { length self.new.left ≤ length self.old.left }
    {
        let kind = schema.kind(place);
        match self.enter(is_too_deep(kind, levels)) {
            Ok(node) => self.body(alloc, schema, place, kind, levels, node),
            Err(e) => Err(e),
        }
    }
}

// The datum, or the first place at which reading stops.
fn read_all(alloc: Global, schema: &Schema, bytes: &[u8]) -> Result<Datum, AvroNo>
    ensures { MatchResult result
        (λ datum. datum_at (tree_of schema.now) bytes.now ≡ Ok (value_of datum))
        (λ e. Fails e (datum_at (tree_of schema.now) bytes.now)) }
{
    let mut cursor = Cursor::new(bytes);
    let datum = match cursor.value(alloc, schema, schema.root(), MAX_LEVELS) {
        Ok(datum) => datum,
        Err(e) => return Err(e),
    };
    if cursor.is_at_end() {
        Ok(datum)
    } else {
        Err(AvroNo::Rest)
    }
}

/// The datum of the schema that all of the bytes spell.
pub fn decode(alloc: Global, schema: &Schema, bytes: &[u8]) -> Result<Datum, AvroNo>
    // The bytes spell the datum, within the limits.
    ensures value { IfOk result (λ datum. IsDatum (tree_of schema.now) (tree_of schema.now) (value_of datum) bytes.now
        × IsSmall (value_of datum)) }
    // Bytes that spell a datum within the limits are read as it.
    ensures only { (v : Value) → IsDatum (tree_of schema.now) (tree_of schema.now) v bytes.now → IsSmall v
        → MatchResult result (λ datum. value_of datum ≡ v) (λ e. e ≡ Want) }
    // The refusal is that of the first place at which reading stops.
    ensures reading { MatchResult result
        (λ datum. datum_at (tree_of schema.now) bytes.now ≡ Ok (value_of datum))
        (λ e. Fails e (datum_at (tree_of schema.now) bytes.now)) }
{
    read_all(alloc, schema, bytes)
}
