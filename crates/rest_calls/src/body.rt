ghost use Rattle.std.specs.Prelude.{◌≡◌, ◌<◌, ◌^◌, ℕ, pos, IfOk, IfSome, List, Option, Some, All, length, nat_abs, option_map, codes};
ghost use Rattle.json_span.specs.Json.{Items as Listed, Json, Members, object};
ghost use Rattle.json_span.specs.Nodes.{HasNode, StandForItems, Stands, root_of};
ghost use Rattle.json_span.specs.Parts.{IsMember};
ghost use Rattle.rest_calls.specs.Body.{AreListed, body_of, items_in, member_of, members_give, named_of, number_in, or_null, partition_for, produced_by, record_in, record_of, records_of};
ghost use Rattle.rest_calls.specs.Reads.{Reads};
ghost use Rattle.rest_calls.specs.Views.{bytes_of, given_of, givens_of, IsNumber, PartitionFits};
ghost use Rattle.forms.specs.Stored.{stored_of};

use crate::call::{Batch, Payload, Row};
use crate::unread::Unread;
use forms::{FormNo, Format, to_stored};
use gate_io::Items;
use json_span::{JsonNo, Kind, Tree, read};
use std::alloc::Global;

fn number_in(value: Option<i128>) -> Option<i32>
    ensures value { option_map nat_abs result ≡ number_in value }
    ensures fits { IfSome result IsNumber }
{
    let number = i32::try_from(value?).ok()?;
    if number < 0 { None } else { Some(number) }
}

/// The partition that a record names: null and no member name none.
fn named(tree: &Tree, node: Option<u32>) -> Result<Option<i32>, Unread>
    requires { IfSome node (HasNode tree.now) }
    ensures reads { (o : Option Json) → IsMember tree.now o node → Reads (option_map nat_abs) result (named_of (or_null o)) }
    ensures fits { IfOk result (λ p. IfSome p IsNumber) }
{
    let Some(node) = node else {
        return Ok(None);
    };
    match tree.kind(node) {
        Kind::Null => Ok(None),
        Kind::Number => match number_in(tree.int_of(node)) {
            Some(partition) => Ok(Some(partition)),
            None => Err(Unread::Unreadable),
        },
        _ => Err(Unread::Unreadable),
    }
}

fn partition_for(to: Option<i32>, tree: &Tree, node: Option<u32>) -> Result<Option<i32>, Unread>
    requires number { IfSome to IsNumber }
    requires node { IfSome node (HasNode tree.now) }
    ensures reads { (o : Option Json) → IsMember tree.now o node → Reads (option_map nat_abs) result (partition_for (option_map nat_abs to) (or_null o)) }
    ensures fits { IfOk result (λ p. IfSome p IsNumber) }
{
    match to {
        Some(partition) => Ok(Some(partition)),
        None => named(tree, node),
    }
}

/// A key or a value: no member is null.
fn payload(alloc: Global, format: Format, tree: &Tree, node: Option<u32>) -> Result<Payload, Unread>
    requires { IfSome node (HasNode tree.now) }
    ensures { (o : Option Json) → IsMember tree.now o node → Reads bytes_of result (stored_of format (or_null o)) }
{
    let Some(node) = node else {
        return Ok(Payload::Null);
    };
    match to_stored(alloc, format, tree, node) {
        Ok(Some(bytes)) => Ok(Payload::Ready(bytes)),
        Ok(None) => Ok(Payload::Null),
        Err(FormNo::Want) => Err(Unread::Want),
        Err(_) => Err(Unread::Unreadable),
    }
}

fn row_in(
    alloc: Global,
    format: Format,
    to: Option<i32>,
    tree: &Tree,
    node: u32,
) -> Result<Row, Unread>
    requires number { IfSome to IsNumber }
    requires node { (ms : Members) × Stands tree.now node (object ms) }
    ensures reads { (ms : Members) → Stands tree.now node (object ms) → Reads given_of result (record_in format (option_map nat_abs to) ms) }
    ensures fits { IfOk result PartitionFits }
{
    let partition = match partition_for(to, tree, tree.member(node, "partition")) {
        Ok(partition) => partition,
        Err(e) => return Err(e),
    };
    let key = match payload(alloc, format, tree, tree.member(node, "key")) {
        Ok(key) => key,
        Err(e) => return Err(e),
    };
    match payload(alloc, format, tree, tree.member(node, "value")) {
        Ok(value) => Ok(Row {
            key,
            value,
            partition,
        }),
        Err(e) => Err(e),
    }
}

fn row_of(
    alloc: Global,
    format: Format,
    to: Option<i32>,
    tree: &Tree,
    node: u32,
) -> Result<Row, Unread>
    requires number { IfSome to IsNumber }
    requires node { HasNode tree.now node }
    ensures reads { (j : Json) → Stands tree.now node j → Reads given_of result (record_of format (option_map nat_abs to) j) }
    ensures fits { IfOk result PartitionFits }
{
    match tree.kind(node) {
        Kind::Object => row_in(alloc, format, to, tree, node),
        _ => Err(Unread::Unreadable),
    }
}

fn rows_of(
    alloc: Global,
    format: Format,
    to: Option<i32>,
    tree: &Tree,
    nodes: &[u32],
) -> Result<Batch, Unread>
    requires number { IfSome to IsNumber }
    requires nodes { (js : Listed) × StandForItems tree.now nodes.now js }
    ensures reads { (js : Listed) → StandForItems tree.now nodes.now js → Reads givens_of result (records_of format (option_map nat_abs to) js) }
    ensures fit { IfOk result (λ batch. All PartitionFits batch.rows) }
    ensures as_many { IfOk result (λ batch. length batch.rows ≡ length nodes.now) }
    ensures few { IfOk result (λ batch. length batch.rows < 2 ^ 63) }
{
    let Ok(mut rows) = Vec::with_capacity(alloc, nodes.len()) else {
        return Err(Unread::Want);
    };
    for node in nodes {
        let row = match row_of(alloc, format, to, tree, *node) {
            Ok(row) => row,
            Err(e) => return Err(e),
        };
        if rows.push(row).is_err() {
            return Err(Unread::Want);
        }
    }
    Ok(Batch {
        rows: Items::from_vec(rows),
    })
}

/// The nodes of the records of an object.
fn listed(tree: &Tree, node: u32) -> Option<&[u32]>
    requires { (ms : Members) × Stands tree.now node (object ms) }
    ensures { (ms : Members) → Stands tree.now node (object ms) → AreListed tree.now (items_in (member_of (codes "records") ms)) result }
{
    let records = tree.member(node, "records")?;
    tree.as_items(records)
}

fn batch_in(
    alloc: Global,
    format: Format,
    to: Option<i32>,
    tree: &Tree,
    node: u32,
) -> Result<Batch, Unread>
    requires number { IfSome to IsNumber }
    requires node { (ms : Members) × Stands tree.now node (object ms) }
    ensures reads { (ms : Members) → Stands tree.now node (object ms) → Reads givens_of result (members_give format (option_map nat_abs to) ms) }
    ensures some { IfOk result (λ batch. 0 < length batch.rows) }
    ensures few { IfOk result (λ batch. length batch.rows < 2 ^ 63) }
    ensures fit { IfOk result (λ batch. All PartitionFits batch.rows) }
{
    match listed(tree, node) {
        Some(nodes) if !nodes.is_empty() => rows_of(alloc, format, to, tree, nodes),
        _ => Err(Unread::Unreadable),
    }
}

/// The records of a body, at least one.
fn batch_of(alloc: Global, format: Format, to: Option<i32>, tree: &Tree) -> Result<Batch, Unread>
    requires number { IfSome to IsNumber }
    requires root { HasNode tree.now (root_of tree.now) }
    ensures reads { (j : Json) → Stands tree.now (root_of tree.now) j → Reads givens_of result (body_of format (option_map nat_abs to) j) }
    ensures some { IfOk result (λ batch. 0 < length batch.rows) }
    ensures few { IfOk result (λ batch. length batch.rows < 2 ^ 63) }
    ensures fit { IfOk result (λ batch. All PartitionFits batch.rows) }
{
    let root = tree.root();
    match tree.kind(root) {
        Kind::Object => batch_in(alloc, format, to, tree, root),
        _ => Err(Unread::Unreadable),
    }
}

/// Reads the body of a produce: of one that is sent to a partition each record is for that one,
/// whichever it names.
pub(crate) fn read_body(
    alloc: Global,
    format: Format,
    to: Option<i32>,
    body: &[u8],
) -> Result<Batch, Unread>
    requires { IfSome to IsNumber }
    ensures reads { Reads givens_of result (produced_by format (option_map nat_abs to) body.now) }
    ensures some { IfOk result (λ batch. 0 < length batch.rows) }
    ensures few { IfOk result (λ batch. length batch.rows < 2 ^ 63) }
    ensures fit { IfOk result (λ batch. All PartitionFits batch.rows) }
{
    match read(alloc, body) {
        Ok(tree) => batch_of(alloc, format, to, &tree),
        Err(JsonNo::Want) => Err(Unread::Want),
        Err(_) => Err(Unread::Unreadable),
    }
}
