//! The parts of a schema's node.
ghost use Rattle.std.specs.Prelude.{◌≡◌, ◌==◌, ◌&&◌, ◌≤◌, ◌<◌, ◌^◌, ℕ, length, option_map, IfSome};
ghost use Rattle.avro_schema.specs.Types.{AvroType, resolved};
ghost use Rattle.avro_schema.specs.Nodes.{HasNode, Stands, tree_of};
ghost use Rattle.avro_value.specs.Judging as judging;
ghost use Rattle.avro_value.specs.Picks.{Picks, PicksFields};
ghost use Rattle.avro_value.specs.Picks as picks;

use avro_schema::{Field, Kind, Schema};
use sqlite_items::at;

pub fn is_null(schema: &Schema, node: u32) -> bool
    requires { HasNode schema.now node }
    ensures { (t : AvroType) → Stands schema.now node t → result ≡ judging.is_null (resolved (tree_of schema.now) t) }
{
    matches!(schema.kind(node), Kind::Null)
}

pub fn is_boolean(schema: &Schema, node: u32) -> bool
    requires { HasNode schema.now node }
    ensures { (t : AvroType) → Stands schema.now node t → result ≡ judging.is_boolean (resolved (tree_of schema.now) t) }
{
    matches!(schema.kind(node), Kind::Boolean)
}

pub fn is_int(schema: &Schema, node: u32) -> bool
    requires { HasNode schema.now node }
    ensures { (t : AvroType) → Stands schema.now node t → result ≡ judging.is_int (resolved (tree_of schema.now) t) }
{
    matches!(schema.kind(node), Kind::Int)
}

pub fn is_long(schema: &Schema, node: u32) -> bool
    requires { HasNode schema.now node }
    ensures { (t : AvroType) → Stands schema.now node t → result ≡ judging.is_long (resolved (tree_of schema.now) t) }
{
    matches!(schema.kind(node), Kind::Long)
}

pub fn is_bytes(schema: &Schema, node: u32) -> bool
    requires { HasNode schema.now node }
    ensures { (t : AvroType) → Stands schema.now node t → result ≡ judging.is_bytes (resolved (tree_of schema.now) t) }
{
    matches!(schema.kind(node), Kind::Bytes)
}

pub fn is_string(schema: &Schema, node: u32) -> bool
    requires { HasNode schema.now node }
    ensures { (t : AvroType) → Stands schema.now node t → result ≡ judging.is_string (resolved (tree_of schema.now) t) }
{
    matches!(schema.kind(node), Kind::Text)
}

pub fn is_fixed(schema: &Schema, node: u32, size: usize) -> bool
    requires { HasNode schema.now node }
    ensures { (t : AvroType) → Stands schema.now node t → result ≡ judging.is_fixed (resolved (tree_of schema.now) t) size }
{
    match schema.kind(node) {
        Kind::Fixed(wanted) => size == wanted as usize,
        _ => false,
    }
}

pub fn has_symbol(schema: &Schema, node: u32, place: u32) -> bool
    requires { HasNode schema.now node }
    ensures { (t : AvroType) → Stands schema.now node t → result ≡ judging.has_symbol (resolved (tree_of schema.now) t) place }
{
    match schema.kind(node) {
        Kind::Enum => (place as usize) < schema.symbols(node).len(),
        _ => false,
    }
}

/// The node of a union's branch.
pub fn branch_in(schema: &Schema, node: u32, place: u32) -> Option<u32>
    requires { HasNode schema.now node }
    ensures { (t : AvroType) → Stands schema.now node t
        → Picks schema.now result (judging.branch_in (resolved (tree_of schema.now) t) place) }
{
    match schema.kind(node) {
        Kind::Union => at(schema.branches(node), place as usize).copied(),
        _ => None,
    }
}

/// The fields of a record that has so many.
pub fn fields_in<'a>(schema: &'a Schema, node: u32, count: usize) -> Option<&'a [Field]>
    requires { HasNode schema.now node }
    ensures count { IfSome result (λ fs. length fs.now ≡ count) }
    ensures fields { (t : AvroType) → Stands schema.now node t
        → PicksFields schema.now (option_map (λ fs. fs.now) result) (judging.fields_in (resolved (tree_of schema.now) t) count) }
{
    match schema.kind(node) {
        Kind::Record => {
            let fields = schema.fields(node);
            if count == fields.len() {
                Some(fields)
            } else {
                None
            }
        }
        _ => None,
    }
}

/// The node of an array's items, of which there are so many.
pub fn items_in(schema: &Schema, node: u32, count: usize) -> Option<u32>
    requires { HasNode schema.now node }
    ensures { (t : AvroType) → Stands schema.now node t
        → Picks schema.now result (judging.items_in (resolved (tree_of schema.now) t) count) }
{
    match schema.kind(node) {
        Kind::Array(items) if i64::try_from(count).is_ok() => Some(items),
        _ => None,
    }
}

/// The node of a map's values, of which there are so many.
pub fn entries_in(schema: &Schema, node: u32, count: usize) -> Option<u32>
    requires { HasNode schema.now node }
    ensures { (t : AvroType) → Stands schema.now node t
        → Picks schema.now result (judging.entries_in (resolved (tree_of schema.now) t) count) }
{
    match schema.kind(node) {
        Kind::Map(values) if i64::try_from(count).is_ok() => Some(values),
        _ => None,
    }
}

/// Whether values of the kind have parts that would be too deep.
pub fn is_too_deep(kind: Kind, levels: u32) -> bool
    ensures { result ≡ (picks.is_nesting kind && (levels == 0)) }
{
    levels == 0
        && matches!(
            kind,
            Kind::Array(_) | Kind::Map(_) | Kind::Union | Kind::Record
        )
}
