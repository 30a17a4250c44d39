//! The names that the members of a JSON object give.
ghost use Rattle.std.specs.Prelude.{◌≡◌, ◌++◌, [], ◌∷◌, Option, IfOk, IfErr, true};
ghost use Rattle.json_span.specs.Json.{Json, Members, Items, object};
ghost use Rattle.json_span.specs.Nodes.{Stands, StandForItems};
ghost use Rattle.json_span.specs.Parts.{last_member, IsMember};
ghost use Rattle.avro_names.specs.Names.{are_parts};
ghost use Rattle.avro_names.specs.Outcomes.{Why};
ghost use Rattle.avro_names.specs.Definitions.{names_in};
ghost use Rattle.avro_names.specs.MemberNames.{full_name, given_name, defined_name, part_name, symbols_read, symbols_of, IsTextMember};

use crate::definitions::Definitions;
use crate::error::SchemaNo;
use crate::name_list::NameList;
use crate::names::{has_dot, in_namespace, is_definable, is_part};
use gate_io::Text;
use json_span::Tree;
use std::alloc::Global;

/// The text of a member that is there and is one.
fn member_text(tree: &Tree, node: Option<u32>) -> Option<&str>
    requires { (o : Option Json) × IsMember tree.now o node }
    ensures { (o : Option Json) → IsMember tree.now o node → IsTextMember o result }
{
    match node {
        Some(at) => tree.as_text(at),
        None => None,
    }
}

/// A name as a fullname. In canonical reading it is one, as is each name with a dot.
pub fn full_name(
    alloc: Global,
    canonical: bool,
    namespace: &str,
    name: &str,
) -> Result<Text, SchemaNo>
    ensures ok { IfOk result (λ t. t ≡ full_name canonical namespace.now name.now) }
    ensures want { IfErr result (λ e. e ≡ SchemaNo.Want) }
{
    if canonical || has_dot(name.as_bytes()) {
        match Text::from_str(alloc, name) {
            Ok(text) => Ok(text),
            Err(_) => Err(SchemaNo::Want),
        }
    } else {
        in_namespace(alloc, namespace, name)
    }
}

/// The fullname that an object gives, by its members of these nodes.
fn given_name(
    alloc: Global,
    tree: &Tree,
    canonical: bool,
    enclosing: &str,
    name: Option<u32>,
    namespace: Option<u32>,
) -> Result<Text, SchemaNo>
    requires name { (o : Option Json) × IsMember tree.now o name }
    requires namespace { (o : Option Json) × IsMember tree.now o namespace }
    ensures ok { (o n : Option Json) → IsMember tree.now o name → IsMember tree.now n namespace
        → IfOk result (λ t. given_name canonical enclosing.now o n ≡ Ok t) }
    ensures err { (o n : Option Json) → IsMember tree.now o name → IsMember tree.now n namespace
        → IfErr result (Why (given_name canonical enclosing.now o n)) }
{
    let Some(given) = member_text(tree, name) else {
        return Err(SchemaNo::BadType);
    };
    if canonical || has_dot(given.as_bytes()) {
        return match Text::from_str(alloc, given) {
            Ok(text) => Ok(text),
            Err(_) => Err(SchemaNo::Want),
        };
    }
    match namespace {
        None => in_namespace(alloc, enclosing, given),
        Some(node) => match tree.as_text(node) {
            Some(own) => in_namespace(alloc, own, given),
            None => Err(SchemaNo::BadType),
        },
    }
}

/// The fullname of the type that an object defines.
pub fn defined_name(
    alloc: Global,
    tree: &Tree,
    canonical: bool,
    enclosing: &str,
    node: u32,
    definitions: &Definitions,
) -> Result<Text, SchemaNo>
    requires { (ms : Members) × Stands tree.now node (object ms) }
    ensures ok { (ms : Members) → Stands tree.now node (object ms)
        → IfOk result (λ t. defined_name canonical (names_in definitions.now) enclosing.now ms ≡ Ok t) }
    ensures err { (ms : Members) → Stands tree.now node (object ms)
        → IfErr result (Why (defined_name canonical (names_in definitions.now) enclosing.now ms)) }
    ensures parts { IfOk result (λ t. are_parts t ≡ true) }
{
    let given = given_name(
        alloc,
        tree,
        canonical,
        enclosing,
        tree.member(node, "name"),
        tree.member(node, "namespace"),
    );
    match given {
        Ok(name) => match definitions.find(name.as_str()) {
            Some(_) => Err(SchemaNo::Redefined),
            None => {
                if is_definable(name.as_str()) {
                    Ok(name)
                } else {
                    Err(SchemaNo::BadName)
                }
            }
        },
        Err(e) => Err(e),
    }
}

/// A field's name or a symbol, which is put behind those before it.
pub fn part_name<'a>(
    alloc: Global,
    tree: &'a Tree,
    node: Option<u32>,
    seen: &mut NameList,
) -> Result<&'a str, SchemaNo>
    requires { (o : Option Json) × IsMember tree.now o node }
    ensures ok { (o : Option Json) → IsMember tree.now o node → IfOk result (λ t. part_name seen.old o ≡ Ok t.now) }
    ensures seen { IfOk result (λ t. seen.new ≡ seen.old ++ t.now ∷ []) }
    ensures err { (o : Option Json) → IsMember tree.now o node → IfErr result (Why (part_name seen.old o)) }
{
    let Some(name) = member_text(tree, node) else {
        return Err(SchemaNo::BadType);
    };
    if !is_part(name.as_bytes()) {
        return Err(SchemaNo::BadName);
    }
    match seen.push(alloc, name) {
        Ok(true) => Ok(name),
        Ok(false) => Err(SchemaNo::BadType),
        Err(_) => Err(SchemaNo::Want),
    }
}

/// The symbols of an enum, by the member of this node.
pub fn symbols_of(alloc: Global, tree: &Tree, node: Option<u32>) -> Result<NameList, SchemaNo>
    requires { (o : Option Json) × IsMember tree.now o node }
    ensures ok { (o : Option Json) → IsMember tree.now o node → IfOk result (λ v. symbols_of o ≡ Ok v) }
    ensures err { (o : Option Json) → IsMember tree.now o node → IfErr result (Why (symbols_of o)) }
{
    let Some(at) = node else {
        return Err(SchemaNo::BadType);
    };
    let Some(items) = tree.as_items(at) else {
        return Err(SchemaNo::BadType);
    };
    symbols(alloc, tree, items)
}

/// The symbols that are the items.
fn symbols(alloc: Global, tree: &Tree, items: &[u32]) -> Result<NameList, SchemaNo>
    requires { (js : Items) × StandForItems tree.now items.now js }
    ensures ok { (js : Items) → StandForItems tree.now items.now js
        → IfOk result (λ v. symbols_read [] js ≡ Ok v) }
    ensures err { (js : Items) → StandForItems tree.now items.now js
        → IfErr result (Why (symbols_read [] js)) }
{
    let mut seen = NameList::new(alloc);
    for item in items {
        if let Err(e) = part_name(alloc, tree, Some(*item), &mut seen) {
            return Err(e);
        }
    }
    Ok(seen)
}
