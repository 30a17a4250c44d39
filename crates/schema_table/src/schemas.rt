//! Schemas by their ids and by their texts.

ghost use Rattle.std.specs.Prelude.{◌≡◌, ◌⊎◌, ◌<◌, ◌≤◌, ◌+◌, ℕ, List, [], ◌∷◌, ◌++◌, length, Some, None, string_bytes, OnOk, OnErr, IfSome, IfNone};
ghost use Rattle.std.specs.BTreeMap.{get_by_text};
ghost use Rattle.avro_schema.specs.Nodes.{tree_of};
ghost use Rattle.schema_table.specs.Index.{Changes};
ghost use Rattle.schema_table.specs.Table.{AreApart, HasId, IsForm, IsSchemaOf, Lacks};

use crate::known::Known;
use avro_schema::Schema;
use gate_io::{Items, Text, Want};
use std::alloc::Global;
use std::collections::BTreeMap;
use std::marker::Model;

/// Schemas in the order of their ids, which are 1, 2, 3 and so on. A schema is found by its id at once, and an id by the schema's
/// canonical form in time by the logarithm of their number.
#[derive(Drop)]
pub struct Schemas {
    pub(crate) known: Items<Known>,
    places: BTreeMap<String, usize>,
}

impl Model for Schemas {
    ghost use Rattle.std.specs.Prelude.{List, ℕ};
    ghost use Rattle.schema_table.specs.Index.{IsIndex, texts_of};

    ghost Value = { List (List ℕ) };

    ghost view = { λ s. texts_of s.known };

    ghost invariant = { λ s. IsIndex s.known s.places };
}

impl Schemas {
    /// No schemas.
    pub fn new(alloc: Global) -> Schemas
        ensures { result ≡ [] }
    {
        Schemas {
            known: Items::new(alloc),
            places: BTreeMap::new(alloc),
        }
    }

    /// How many there are.
    pub fn len(&self) -> usize
        ensures value { result ≡ length self.now }
        ensures few { result ≤ 4294967295 }
    {
        self.known.len()
    }

    /// The id of a canonical form.
    pub fn find(&self, text: &str) -> Option<u32>
        ensures some { IfSome result (λ id. HasId self.now id text.now) }
        ensures none { IfNone result (Lacks self.now text.now) }
    {
        match self.places.get(text) {
            Some(place) => Some(id_at(*place)),
            None => None,
        }
    }

    /// The schema that has the id.
    pub fn schema(&self, id: u32) -> Option<&Schema>
        ensures some { IfSome result (λ s. IsSchemaOf self.now id (tree_of s.now)) }
        ensures none { IfNone result ((id ≡ 0) ⊎ (length self.now < id)) }
    {
        let place = (id as usize).checked_sub(1)?;
        match self.known.get(place) {
            Some(known) => Some(&known.schema),
            None => None,
        }
    }

    /// The canonical form that has the id.
    pub fn text(&self, id: u32) -> Option<&str>
        ensures some { IfSome result (λ text. HasId self.now id text.now) }
        ensures none { IfNone result ((id ≡ 0) ⊎ (length self.now < id)) }
    {
        let place = (id as usize).checked_sub(1)?;
        match self.known.get(place) {
            Some(known) => Some(known.text.as_str()),
            None => None,
        }
    }

    /// No two of the texts are one.
    pub fn are_apart(&self)
        ensures { AreApart self.now }
    {
        let _ = &self.known;
    }

    /// Puts a schema behind the others, which has the next id.
    pub(crate) fn push(&mut self, alloc: Global, text: Text, schema: Schema) -> Result<(), Want>
        requires few { length self.old < 4294967295 }
        requires lacks { Lacks self.old text }
        requires form { IsForm text (tree_of schema) }
        ensures ok { OnOk result (self.new ≡ self.old ++ text ∷ []) }
        ensures stays { OnErr result (self.new ≡ self.old) }
    {
        let Ok(key) = String::from_str(alloc, text.as_str()) else {
            return Err(Want);
        };
        let place = self.known.len();
        if self.known.push(Known { text, schema }).is_err() {
            return Err(Want);
        }
        match put_place(&mut self.places, key, place) {
            Ok(()) => Ok(()),
            Err(Want) => {
                drop_last(&mut self.known);
                Err(Want)
            }
        }
    }

    /// Takes the last schema away.
    pub(crate) fn pop(&mut self)
        ensures { (texts : List (List ℕ)) (text : List ℕ) → self.old ≡ texts ++ text ∷ [] → self.new ≡ texts }
    {
        let Some(last) = self.known.pop() else {
            return;
        };
        drop_place(&mut self.places, last.text.as_str());
    }
}

/// Ids are counted from 1.
fn id_at(place: usize) -> u32
    requires { place < 4294967295 }
    ensures { result ≡ place + 1 }
{
    place as u32 + 1
}

/// Takes the last item away.
#[tactic(auto, using(crate::proofs::IndexLemmas::same_front))]
pub(crate) fn drop_last<T: Drop>(items: &mut Items<T>)
    ensures { (front : List T) (last : T) → items.old ≡ front ++ last ∷ [] → items.new ≡ front }
{
    items.pop();
}

fn put_place(places: &mut BTreeMap<String, usize>, key: String, place: usize) -> Result<(), Want>
    ensures ok { OnOk result (Changes (string_bytes key) places.old places.new (Some place)) }
    ensures stays { OnErr result ((q : List ℕ) → get_by_text places.new q ≡ get_by_text places.old q) }
{
    match places.insert(key, place) {
        Ok(_) => Ok(()),
        Err(_) => Err(Want),
    }
}

fn drop_place(places: &mut BTreeMap<String, usize>, text: &str)
    ensures { Changes text.now places.old places.new None }
{
    places.remove(text);
}
