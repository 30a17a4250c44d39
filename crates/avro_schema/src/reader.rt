ghost use Rattle.std.specs.Prelude.{◌≡◌, ◌<◌, length, All, Option, IfOk, IfErr, OnOk, codes};
ghost use Rattle.json_span.specs.Json.{Json, Members, Items, object, array};
ghost use Rattle.json_span.specs.Nodes.{Stands, StandForItems, HasNode};
ghost use Rattle.avro_schema.specs.Reading.{reader, object_read, object_by_word, record_read, part_type, fields_of, field_read, branch_read, union_read};
ghost use Rattle.json_span.specs.Parts.{last_member, IsMember};
ghost use Rattle.avro_schema.specs.Building.{names_of, IsBuilt, Tells, MakesField, MakesFields, MakesBranch, names_of_fields, IsObject};
ghost use Rattle.avro_names.specs.Outcomes.{Why};
ghost use Rattle.avro_schema.specs.Forms.{types_of, names_of_branches};

use crate::named::{add_branch, define, read_enum, read_fixed, type_by_name};
use crate::parts::{Field, Form, Parts};
use avro_names::{NameList, SchemaNo, namespace_of, part_name};
use gate_io::Text;
use json_span::{Kind, Tree};
use std::alloc::Global;

/// A value as a type. As many levels may open in it.
#[cycle(reader)]
pub(crate) fn read_type(
    alloc: Global,
    tree: &Tree,
    canonical: bool,
    levels: u32,
    in_union: bool,
    namespace: &str,
    node: u32,
    parts: &mut Parts,
) -> Result<u32, SchemaNo>
    requires built { IsBuilt parts.old }
    requires node { (j : Json) × Stands tree.now node j }
    ensures { (j : Json) → Stands tree.now node j
        → Tells (reader canonical levels in_union (names_of parts.old) namespace.now j) parts.old parts.new result }
{
    match tree.kind(node) {
        Kind::Text => type_by_name(alloc, canonical, namespace, tree.string_of(node), parts),
        Kind::Array => {
            if in_union {
                return Err(SchemaNo::BadType);
            }
            if levels == 0 {
                return Err(SchemaNo::TooDeep);
            }
            read_union(alloc, tree, canonical, levels - 1, namespace, node, parts)
        }
        Kind::Object => {
            if levels == 0 {
                return Err(SchemaNo::TooDeep);
            }
            read_object(
                alloc,
                tree,
                canonical,
                levels - 1,
                in_union,
                namespace,
                node,
                parts,
            )
        }
        _ => Err(SchemaNo::BadType),
    }
}

/// An array as a union.
#[cycle(reader)]
fn read_union(
    alloc: Global,
    tree: &Tree,
    canonical: bool,
    levels: u32,
    namespace: &str,
    node: u32,
    parts: &mut Parts,
) -> Result<u32, SchemaNo>
    requires built { IsBuilt parts.old }
    requires node { (js : Items) × Stands tree.now node (array js) }
    ensures { (js : Items) → Stands tree.now node (array js)
        → Tells (union_read (reader canonical levels) (names_of parts.old) namespace.now js) parts.old parts.new result }
{
    let mut branches = Vec::new(alloc);
    let mut names = NameList::new(alloc);
    for item in tree.items(node) {
        if let Err(e) = read_branch(
            alloc,
            tree,
            canonical,
            levels,
            namespace,
            *item,
            &mut branches,
            &mut names,
            parts,
        ) {
            return Err(e);
        }
    }
    parts.add(Form::Union(branches, names))
}

/// One more branch, which isn't of the kind or the fullname of one before it.
#[cycle(reader)]
fn read_branch(
    alloc: Global,
    tree: &Tree,
    canonical: bool,
    levels: u32,
    namespace: &str,
    node: u32,
    branches: &mut Vec<u32>,
    names: &mut NameList,
    parts: &mut Parts,
) -> Result<(), SchemaNo>
    requires built { IsBuilt parts.old }
    requires node { (j : Json) × Stands tree.now node j }
    requires inside { All (λ k. k < length parts.old.nodes.items) branches.old.items }
    requires names { names.old ≡ names_of_branches (types_of parts.old.nodes.items) branches.old.items }
    ensures ok { (j : Json) → Stands tree.now node j
        → OnOk result (MakesBranch (branch_read (reader canonical levels) (names_of parts.old) namespace.now
        (names_of_branches (types_of parts.old.nodes.items) branches.old.items) j)
        parts.old parts.new branches.old.items branches.new.items) }
    ensures names { OnOk result (names.new ≡ names_of_branches (types_of parts.new.nodes.items) branches.new.items) }
    ensures err { (j : Json) → Stands tree.now node j
        → IfErr result (Why (branch_read (reader canonical levels) (names_of parts.old) namespace.now
        (names_of_branches (types_of parts.old.nodes.items) branches.old.items) j)) }
{
    match read_type(alloc, tree, canonical, levels, true, namespace, node, parts) {
        Ok(branch) => {
            match add_branch(alloc, parts, branch, names) {
                Ok(true) => {}
                Ok(false) => return Err(SchemaNo::BadType),
                Err(e) => return Err(e),
            }
            match branches.push(branch) {
                Ok(()) => Ok(()),
                Err(_) => Err(SchemaNo::Want),
            }
        }
        Err(e) => Err(e),
    }
}

/// An object as a type.
#[cycle(reader)]
fn read_object(
    alloc: Global,
    tree: &Tree,
    canonical: bool,
    levels: u32,
    in_union: bool,
    namespace: &str,
    node: u32,
    parts: &mut Parts,
) -> Result<u32, SchemaNo>
    requires built { IsBuilt parts.old }
    requires node { (ms : Members) × Stands tree.now node (object ms) }
    ensures { (ms : Members) → Stands tree.now node (object ms)
        → Tells (object_read canonical (reader canonical levels) in_union (names_of parts.old) namespace.now ms
        (last_member (codes "type") ms)) parts.old parts.new result }
{
    let Some(kind) = tree.member(node, "type") else {
        return Err(SchemaNo::BadType);
    };
    match tree.as_text(kind) {
        Some(word) => read_by_word(alloc, tree, canonical, levels, namespace, node, word, parts),
        None => read_type(
            alloc, tree, canonical, levels, in_union, namespace, kind, parts,
        ),
    }
}

/// An object whose `type` is a text.
#[cycle(reader)]
fn read_by_word(
    alloc: Global,
    tree: &Tree,
    canonical: bool,
    levels: u32,
    namespace: &str,
    node: u32,
    word: &str,
    parts: &mut Parts,
) -> Result<u32, SchemaNo>
    requires built { IsBuilt parts.old }
    requires node { (ms : Members) × Stands tree.now node (object ms) }
    ensures { (ms : Members) → Stands tree.now node (object ms)
        → Tells (object_by_word canonical (reader canonical levels) (names_of parts.old) namespace.now ms word.now)
        parts.old parts.new result }
{
    if word == "record" {
        return read_record(alloc, tree, canonical, levels, namespace, node, parts);
    }
    if word == "enum" {
        return read_enum(alloc, tree, canonical, namespace, node, parts);
    }
    if word == "array" {
        return match read_part(
            alloc,
            tree,
            canonical,
            levels,
            namespace,
            tree.member(node, "items"),
            parts,
        ) {
            Ok(items) => parts.add(Form::Array(items)),
            Err(e) => Err(e),
        };
    }
    if word == "map" {
        return match read_part(
            alloc,
            tree,
            canonical,
            levels,
            namespace,
            tree.member(node, "values"),
            parts,
        ) {
            Ok(values) => parts.add(Form::Map(values)),
            Err(e) => Err(e),
        };
    }
    if word == "fixed" {
        return read_fixed(alloc, tree, canonical, namespace, node, parts);
    }
    type_by_name(alloc, canonical, namespace, word, parts)
}

/// The type of a member that has to be there.
#[cycle(reader)]
fn read_part(
    alloc: Global,
    tree: &Tree,
    canonical: bool,
    levels: u32,
    namespace: &str,
    node: Option<u32>,
    parts: &mut Parts,
) -> Result<u32, SchemaNo>
    requires built { IsBuilt parts.old }
    requires node { (o : Option Json) × IsMember tree.now o node }
    ensures { (o : Option Json) → IsMember tree.now o node
        → Tells (part_type (reader canonical levels) (names_of parts.old) namespace.now o) parts.old parts.new result }
{
    match node {
        Some(at) => read_type(alloc, tree, canonical, levels, false, namespace, at, parts),
        None => Err(SchemaNo::BadType),
    }
}

/// An object as a record. Its name is defined before its fields are read.
#[cycle(reader)]
fn read_record(
    alloc: Global,
    tree: &Tree,
    canonical: bool,
    levels: u32,
    namespace: &str,
    node: u32,
    parts: &mut Parts,
) -> Result<u32, SchemaNo>
    requires built { IsBuilt parts.old }
    requires node { (ms : Members) × Stands tree.now node (object ms) }
    ensures { (ms : Members) → Stands tree.now node (object ms)
        → Tells (record_read canonical (reader canonical levels) (names_of parts.old) namespace.now ms)
        parts.old parts.new result }
{
    match define(alloc, tree, canonical, namespace, node, parts) {
        Ok((name, definition)) => {
            let within = namespace_of(name.as_str());
            match read_fields(
                alloc,
                tree,
                canonical,
                levels,
                within,
                tree.member(node, "fields"),
                parts,
            ) {
                Ok(fields) => parts.finish(definition, Form::Record(name, fields)),
                Err(e) => Err(e),
            }
        }
        Err(e) => Err(e),
    }
}

/// The fields of a record.
#[cycle(reader)]
fn read_fields(
    alloc: Global,
    tree: &Tree,
    canonical: bool,
    levels: u32,
    namespace: &str,
    node: Option<u32>,
    parts: &mut Parts,
) -> Result<Vec<Field>, SchemaNo>
    requires built { IsBuilt parts.old }
    requires node { (o : Option Json) × IsMember tree.now o node }
    ensures ok { (o : Option Json) → IsMember tree.now o node
        → IfOk result (λ v. MakesFields (fields_of (reader canonical levels) (names_of parts.old) namespace.now o)
        parts.old parts.new v.items) }
    ensures err { (o : Option Json) → IsMember tree.now o node
        → IfErr result (Why (fields_of (reader canonical levels) (names_of parts.old) namespace.now o)) }
{
    let Some(at) = node else {
        return Err(SchemaNo::BadType);
    };
    let Some(items) = tree.as_items(at) else {
        return Err(SchemaNo::BadType);
    };
    let mut fields = Vec::new(alloc);
    let mut names = NameList::new(alloc);
    for item in items {
        if let Err(e) = read_field(
            alloc,
            tree,
            canonical,
            levels,
            namespace,
            *item,
            &mut fields,
            &mut names,
            parts,
        ) {
            return Err(e);
        }
    }
    Ok(fields)
}

fn is_object(tree: &Tree, node: u32) -> bool
    requires { HasNode tree.now node }
    ensures { (j : Json) → Stands tree.now node j → IsObject j result }
{
    match tree.kind(node) {
        Kind::Object => true,
        _ => false,
    }
}

/// One more field.
#[cycle(reader)]
fn read_field(
    alloc: Global,
    tree: &Tree,
    canonical: bool,
    levels: u32,
    namespace: &str,
    node: u32,
    fields: &mut Vec<Field>,
    names: &mut NameList,
    parts: &mut Parts,
) -> Result<(), SchemaNo>
    requires built { IsBuilt parts.old }
    requires node { (j : Json) × Stands tree.now node j }
    requires names { names.old ≡ names_of_fields fields.old.items }
    ensures ok { (j : Json) → Stands tree.now node j
        → OnOk result (MakesField (field_read (reader canonical levels) (names_of parts.old) namespace.now
        (names_of_fields fields.old.items) j) parts.old parts.new fields.old.items fields.new.items) }
    ensures names { OnOk result (names.new ≡ names_of_fields fields.new.items) }
    ensures err { (j : Json) → Stands tree.now node j
        → IfErr result (Why (field_read (reader canonical levels) (names_of parts.old) namespace.now
        (names_of_fields fields.old.items) j)) }
{
    if !is_object(tree, node) {
        return Err(SchemaNo::BadType);
    }
    let name = match part_name(alloc, tree, tree.member(node, "name"), names) {
        Ok(name) => name,
        Err(e) => return Err(e),
    };
    let Ok(name) = Text::from_str(alloc, name) else {
        return Err(SchemaNo::Want);
    };
    match read_part(
        alloc,
        tree,
        canonical,
        levels,
        namespace,
        tree.member(node, "type"),
        parts,
    ) {
        Ok(node) => match fields.push(Field { name, node }) {
            Ok(()) => Ok(()),
            Err(_) => Err(SchemaNo::Want),
        },
        Err(e) => Err(e),
    }
}
