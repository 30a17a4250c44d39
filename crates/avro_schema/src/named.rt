ghost use Rattle.std.specs.Prelude.{◌≡◌, ◌<◌, ◌++◌, [], ◌∷◌, length, not, Option, IfOk, IfErr, OnOk};
ghost use Rattle.json_span.specs.Json.{Json, Members, object};
ghost use Rattle.json_span.specs.Nodes.{Stands};
ghost use Rattle.avro_names.specs.NameList.{is_among};
ghost use Rattle.avro_schema.specs.Reading.{type_by_name, known, digits_size, size_of, enum_read, fixed_read};
ghost use Rattle.avro_names.specs.MemberNames.{defined_name};
ghost use Rattle.json_span.specs.Parts.{IsMember};
ghost use Rattle.avro_schema.specs.Building.{names_of, IsBuilt, Tells, Gives, NamesNew, primitive_form};
ghost use Rattle.avro_names.specs.Outcomes.{Why};
ghost use Rattle.avro_schema.specs.Types.{branch_name};
ghost use Rattle.avro_schema.specs.Forms.{type_at, types_of, EachBefore};

use crate::parts::{Form, Parts};
use crate::pick::name_in;
use avro_names::{NameList, SchemaNo, defined_name, full_name, is_float, symbols_of};
use gate_io::Text;
use json_span::{Kind, Tree};
use std::alloc::Global;

/// The form of a primitive type.
#[tactic(auto, unfolding(crate::specs::Building::primitive_form))]
fn primitive(name: &str) -> Option<Form>
    ensures { result ≡ primitive_form name.now }
{
    if name == "null" {
        return Some(Form::Null);
    }
    if name == "boolean" {
        return Some(Form::Boolean);
    }
    if name == "int" {
        return Some(Form::Int);
    }
    if name == "long" {
        return Some(Form::Long);
    }
    if name == "bytes" {
        return Some(Form::Bytes);
    }
    if name == "string" {
        return Some(Form::Text);
    }
    None
}

/// A reference to a type that was defined before.
fn reference(name: Text, parts: &mut Parts) -> Result<u32, SchemaNo>
    requires { IsBuilt parts.old }
    ensures { Tells (known (names_of parts.old) name) parts.old parts.new result }
{
    let Some(found) = parts.definitions.find(name.as_str()) else {
        return Err(SchemaNo::UnknownName);
    };
    let Ok(definition) = u32::try_from(found) else {
        return Err(SchemaNo::Want);
    };
    let Some(room) = parts.room.checked_sub(name.as_bytes().len()) else {
        return Err(SchemaNo::Want);
    };
    parts.room = room;
    parts.add(Form::Named(name, definition))
}

/// A type by its name: a primitive's, or that of one which was defined before.
pub(crate) fn type_by_name(
    alloc: Global,
    canonical: bool,
    namespace: &str,
    name: &str,
    parts: &mut Parts,
) -> Result<u32, SchemaNo>
    requires { IsBuilt parts.old }
    ensures { Tells (type_by_name canonical (names_of parts.old) namespace.now name.now) parts.old parts.new result }
{
    match primitive(name) {
        Some(form) => parts.add(form),
        None => {
            if is_float(name) {
                return Err(SchemaNo::Float);
            }
            match full_name(alloc, canonical, namespace, name) {
                Ok(text) => reference(text, parts),
                Err(e) => Err(e),
            }
        }
    }
}

/// Defines the type that an object names. Its node is to come.
pub(crate) fn define(
    alloc: Global,
    tree: &Tree,
    canonical: bool,
    enclosing: &str,
    node: u32,
    parts: &mut Parts,
) -> Result<(Text, usize), SchemaNo>
    requires { (ms : Members) × Stands tree.now node (object ms) }
    ensures ok { (ms : Members) → Stands tree.now node (object ms)
        → IfOk result (λ r. NamesNew (defined_name canonical (names_of parts.old) enclosing.now ms)
        parts.old parts.new r.0 r.1) }
    ensures err { (ms : Members) → Stands tree.now node (object ms)
        → IfErr result (Why (defined_name canonical (names_of parts.old) enclosing.now ms)) }
{
    match defined_name(alloc, tree, canonical, enclosing, node, &parts.definitions) {
        Ok(name) => {
            let Some(room) = parts.room.checked_sub(name.as_bytes().len()) else {
                return Err(SchemaNo::Want);
            };
            parts.room = room;
            match parts.definitions.add(alloc, name.as_str()) {
                Ok(definition) => Ok((name, definition)),
                Err(e) => Err(e),
            }
        }
        Err(e) => Err(e),
    }
}

/// An object as an enum.
pub(crate) fn read_enum(
    alloc: Global,
    tree: &Tree,
    canonical: bool,
    namespace: &str,
    node: u32,
    parts: &mut Parts,
) -> Result<u32, SchemaNo>
    requires built { IsBuilt parts.old }
    requires node { (ms : Members) × Stands tree.now node (object ms) }
    ensures { (ms : Members) → Stands tree.now node (object ms)
        → Tells (enum_read canonical (names_of parts.old) namespace.now ms) parts.old parts.new result }
{
    match define(alloc, tree, canonical, namespace, node, parts) {
        Ok((name, definition)) => match symbols_of(alloc, tree, tree.member(node, "symbols")) {
            Ok(symbols) => parts.finish(definition, Form::Enum(name, symbols)),
            Err(e) => Err(e),
        },
        Err(e) => Err(e),
    }
}

/// An object as a fixed.
pub(crate) fn read_fixed(
    alloc: Global,
    tree: &Tree,
    canonical: bool,
    namespace: &str,
    node: u32,
    parts: &mut Parts,
) -> Result<u32, SchemaNo>
    requires built { IsBuilt parts.old }
    requires node { (ms : Members) × Stands tree.now node (object ms) }
    ensures { (ms : Members) → Stands tree.now node (object ms)
        → Tells (fixed_read canonical (names_of parts.old) namespace.now ms) parts.old parts.new result }
{
    match define(alloc, tree, canonical, namespace, node, parts) {
        Ok((name, definition)) => match size_of(tree, tree.member(node, "size")) {
            Ok(size) => parts.finish(definition, Form::Fixed(name, size)),
            Err(e) => Err(e),
        },
        Err(e) => Err(e),
    }
}

/// Puts the kind or the fullname of a branch behind those before it. False if it is among them.
pub(crate) fn add_branch(
    alloc: Global,
    parts: &Parts,
    node: u32,
    seen: &mut NameList,
) -> Result<bool, SchemaNo>
    requires before { EachBefore 0 parts.now.nodes.items }
    requires node { node < length parts.now.nodes.items }
    ensures added { IfOk result (λ new. new
        ≡ not (is_among (branch_name (type_at (types_of parts.now.nodes.items) node)) seen.old)) }
    ensures seen { OnOk result (seen.new
        ≡ seen.old ++ branch_name (type_at (types_of parts.now.nodes.items) node) ∷ []) }
    ensures want { IfErr result (λ e. e ≡ SchemaNo.Want) }
{
    match seen.push(alloc, name_in(&parts.nodes[node as usize])) {
        Ok(is_new) => Ok(is_new),
        Err(_) => Err(SchemaNo::Want),
    }
}

/// One digit or more, and a number of at most 1,048,576.
fn digits_size(text: &[u8]) -> Result<u32, SchemaNo>
    ensures { Gives (digits_size text.now) result }
{
    if text.len() == 0 {
        return Err(SchemaNo::BadType);
    }
    let mut size: u32 = 0;
    for digit in text {
        if *digit < 48 || 57 < *digit {
            return Err(SchemaNo::BadType);
        }
        size = size * 10 + u32::from(*digit - 48);
        if size > 1_048_576 {
            return Err(SchemaNo::BadType);
        }
    }
    Ok(size)
}

/// The size of a fixed, by the member of this node.
fn size_of(tree: &Tree, node: Option<u32>) -> Result<u32, SchemaNo>
    requires { (o : Option Json) × IsMember tree.now o node }
    ensures { (o : Option Json) → IsMember tree.now o node → Gives (size_of o) result }
{
    let Some(at) = node else {
        return Err(SchemaNo::BadType);
    };
    match tree.kind(at) {
        Kind::Text => digits_size(tree.string_of(at).as_bytes()),
        Kind::Number => digits_size(tree.text_of(at).as_bytes()),
        _ => Err(SchemaNo::BadType),
    }
}
