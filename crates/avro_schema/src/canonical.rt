ghost use Rattle.std.specs.Prelude.{◌≡◌, ◌<◌, ◌++◌, length, decimal, All, OnOk, codes};
ghost use Rattle.avro_schema.specs.Canonical.{quote, canonical_form, symbol_list, branch_list, field_list, comma_unless};
ghost use Rattle.avro_schema.specs.Forms.{type_at, types_of, branches_at, fields_at, EachBefore};

use crate::parts::{Field, Form};
use crate::pick::name_in;
use gate_io::{Text, Want};
use std::alloc::Global;

/// Puts a text behind the text.
fn push(text: &mut Text, more: &str) -> Result<(), Want>
    ensures { OnOk result (text.new ≡ text.old ++ more.now) }
{
    match text.push_str(more) {
        Ok(()) => Ok(()),
        Err(_) => Err(Want),
    }
}

/// Puts a name between quotes behind the text.
fn push_quoted(text: &mut Text, name: &str) -> Result<(), Want>
    ensures { OnOk result (text.new ≡ text.old ++ quote name.now) }
{
    push(text, "\"")?;
    push(text, name)?;
    push(text, "\"")
}

/// A comma before each but the first.
fn push_comma(text: &mut Text, first: bool) -> Result<(), Want>
    ensures { OnOk result (text.new ≡ text.old ++ comma_unless first) }
{
    if first { Ok(()) } else { push(text, ",") }
}

/// How the object of a named type begins.
fn push_head(text: &mut Text, name: &str, kind: &str) -> Result<(), Want>
    ensures { OnOk result (text.new ≡ text.old ++ (codes "{\"name\":" ++ (quote name.now ++ kind.now))) }
{
    push(text, "{\"name\":")?;
    push_quoted(text, name)?;
    push(text, kind)
}

fn write_fixed(alloc: Global, name: &str, size: u32, text: &mut Text) -> Result<(), Want>
    ensures { OnOk result (text.new ≡ text.old
        ++ (codes "{\"name\":" ++ (quote name.now ++ (codes ",\"type\":\"fixed\",\"size\":" ++ (decimal size ++ codes "}"))))) }
{
    push_head(text, name, ",\"type\":\"fixed\",\"size\":")?;
    let Ok(digits) = format!(in alloc; "{size}") else {
        return Err(Want);
    };
    push(text, digits.as_str())?;
    push(text, "}")
}

/// An enum's symbols up to its end.
fn write_symbols(symbols: &[Text], text: &mut Text) -> Result<(), Want>
    ensures { OnOk result (text.new ≡ text.old ++ symbol_list symbols.now) }
{
    let mut first = true;
    for symbol in symbols {
        push_comma(text, first)?;
        push_quoted(text, symbol.as_str())?;
        first = false;
    }
    push(text, "]}")
}

/// The type of a node.
#[cycle(writer)]
pub(crate) fn write_type(
    alloc: Global,
    nodes: &Vec<Form>,
    node: u32,
    text: &mut Text,
) -> Result<(), Want>
    requires before { EachBefore 0 nodes.now.items }
    requires inside { node < length nodes.now.items }
    ensures { OnOk result (text.new ≡ text.old ++ canonical_form (type_at (types_of nodes.now.items) node)) }
{
    let form = &nodes[node as usize];
    match form {
        Form::Array(items) => {
            push(text, "{\"type\":\"array\",\"items\":")?;
            write_type(alloc, nodes, *items, text)?;
            push(text, "}")
        }
        Form::Map(values) => {
            push(text, "{\"type\":\"map\",\"values\":")?;
            write_type(alloc, nodes, *values, text)?;
            push(text, "}")
        }
        Form::Union(branches, _) => {
            push(text, "[")?;
            write_branches(alloc, nodes, branches, node, text)
        }
        Form::Fixed(name, size) => write_fixed(alloc, name.as_str(), *size, text),
        Form::Enum(name, symbols) => {
            push_head(text, name.as_str(), ",\"type\":\"enum\",\"symbols\":[")?;
            write_symbols(symbols.as_slice(), text)
        }
        Form::Record(name, fields) => {
            push_head(text, name.as_str(), ",\"type\":\"record\",\"fields\":[")?;
            write_fields(alloc, nodes, fields, node, text)
        }
        _ => push_quoted(text, name_in(form)),
    }
}

/// A union's branches up to its end. They are before the node.
#[cycle(writer)]
fn write_branches(
    alloc: Global,
    nodes: &Vec<Form>,
    branches: &Vec<u32>,
    node: u32,
    text: &mut Text,
) -> Result<(), Want>
    requires before { EachBefore 0 nodes.now.items }
    requires inside { node < length nodes.now.items }
    requires below { All (λ k. k < node) branches.now.items }
    ensures { OnOk result (text.new ≡ text.old ++ branch_list (branches_at (types_of nodes.now.items) branches.now.items)) }
{
    let mut first = true;
    for branch in branches {
        push_comma(text, first)?;
        write_type(alloc, nodes, *branch, text)?;
        first = false;
    }
    push(text, "]")
}

/// A record's fields up to its end. Their types are before the node.
#[cycle(writer)]
fn write_fields(
    alloc: Global,
    nodes: &Vec<Form>,
    fields: &Vec<Field>,
    node: u32,
    text: &mut Text,
) -> Result<(), Want>
    requires before { EachBefore 0 nodes.now.items }
    requires inside { node < length nodes.now.items }
    requires below { All (λ f. f.node < node) fields.now.items }
    ensures { OnOk result (text.new ≡ text.old ++ field_list (fields_at (types_of nodes.now.items) fields.now.items)) }
{
    let mut first = true;
    for field in fields {
        push_comma(text, first)?;
        push_head(text, field.name.as_str(), ",\"type\":")?;
        write_type(alloc, nodes, field.node, text)?;
        push(text, "}")?;
        first = false;
    }
    push(text, "]}")
}
