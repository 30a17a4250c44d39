ghost use Rattle.std.specs.Prelude.{◌≡◌, ◌++◌, [], ◌∷◌, ℕ, List, Some, length, IfOk, OnErr};
ghost use Rattle.json_span.specs.NodeList.{Grows, IsKept, IsEscaped, form_in};
ghost use Rattle.json_span.specs.Tree.{items_of, members_of};
ghost use Rattle.json_span.specs.declared.tree.Member.{Member};
ghost use Rattle.json_span.specs.declared.tree.Form.TheVariants.{Array, Object};

use crate::small::Kept;
use crate::tree::{Form, Member};
use gate_io::{Items, Text, Want};

/// The texts with escapes, the arrays and the objects of a tree, each in the order of its nodes.
#[derive(Debug, Drop)]
pub(crate) struct Beside {
    pub(crate) texts: Vec<Text>,
    pub(crate) arrays: Vec<Items<u32>>,
    pub(crate) objects: Vec<Items<Member>>,
}

/// Puts a part behind the others; its place.
fn put<T: Drop>(part: T, parts: &mut Vec<T>) -> Result<u32, Want>
    ensures place { IfOk result (λ place. place ≡ length parts.old.items) }
    ensures put { IfOk result (λ _. parts.new.items ≡ parts.old.items ++ part ∷ []) }
    ensures stays { OnErr result (parts.new.items ≡ parts.old.items) }
{
    let Ok(place) = u32::try_from(parts.len()) else {
        return Err(Want);
    };
    match parts.push(part) {
        Ok(()) => Ok(place),
        Err(_) => Err(Want),
    }
}

impl Beside {
    /// Keeps what a form has besides its kind.
    pub(crate) fn keep(&mut self, form: Form) -> Result<Kept, Want>
        ensures grows { Grows self.old self.new }
        ensures kept { IfOk result (IsKept self.new) }
        ensures form { IfOk result (λ kept. form_in self.new kept ≡ form) }
    {
        match form {
            Form::Null => Ok(Kept::Null),
            Form::Bool(value) => Ok(Kept::Bool(value)),
            Form::Number => Ok(Kept::Number),
            Form::Plain => Ok(Kept::Plain),
            Form::Escaped(text) => match put(text, &mut self.texts) {
                Ok(place) => Ok(Kept::Escaped(place)),
                Err(e) => Err(e),
            },
            Form::Array(items) => self.keep_items(items),
            Form::Object(members) => self.keep_members(members),
        }
    }

    fn keep_items(&mut self, items: Items<u32>) -> Result<Kept, Want>
        ensures grows { Grows self.old self.new }
        ensures kept { IfOk result (IsKept self.new) }
        ensures form { IfOk result (λ kept. form_in self.new kept ≡ Array items) }
    {
        if items.is_empty() {
            return Ok(Kept::NoItems);
        }
        match put(items, &mut self.arrays) {
            Ok(place) => Ok(Kept::Array(place)),
            Err(e) => Err(e),
        }
    }

    fn keep_members(&mut self, members: Items<Member>) -> Result<Kept, Want>
        ensures grows { Grows self.old self.new }
        ensures kept { IfOk result (IsKept self.new) }
        ensures form { IfOk result (λ kept. form_in self.new kept ≡ Object members) }
    {
        if members.is_empty() {
            return Ok(Kept::NoMembers);
        }
        match put(members, &mut self.objects) {
            Ok(place) => Ok(Kept::Object(place)),
            Err(e) => Err(e),
        }
    }

    /// The text with escapes that is kept; `None` where it is something else.
    pub(crate) fn text(&self, kept: Kept) -> Option<&str>
        requires { IsKept self.now kept }
        ensures { IsEscaped (form_in self.now kept) result }
    {
        match kept {
            Kept::Escaped(place) => Some(self.texts[place as usize].as_str()),
            _ => None,
        }
    }

    /// The items that are kept of an array.
    pub(crate) fn items(&self, kept: Kept) -> &[u32]
        requires { IsKept self.now kept }
        ensures { (ks : List ℕ) → items_of (form_in self.now kept) ≡ Some ks → result.now ≡ ks }
    {
        match kept {
            Kept::Array(place) => self.arrays[place as usize].as_slice(),
            _ => &[],
        }
    }

    /// The members that are kept of an object.
    pub(crate) fn members(&self, kept: Kept) -> &[Member]
        requires { IsKept self.now kept }
        ensures { (vs : List Member) → members_of (form_in self.now kept) ≡ Some vs → result.now ≡ vs }
    {
        match kept {
            Kept::Object(place) => self.objects[place as usize].as_slice(),
            _ => &[],
        }
    }
}
