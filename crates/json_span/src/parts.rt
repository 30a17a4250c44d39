ghost use Rattle.std.specs.Prelude.{◌<◌, ℕ, All, IfSome};
ghost use Rattle.json_span.specs.Json.{Json, Members, object};
ghost use Rattle.json_span.specs.Nodes.{Stands, HasNode};
ghost use Rattle.json_span.specs.Parts.{last_member, IsMember, IsTextOf, AreItemsOf};

use crate::tree::{Kind, Tree};

impl Tree {
    /// The characters of a node that is a text, as `string_of` has them; `None` at a node of another kind.
    pub fn as_text(&self, node: u32) -> Option<&str>
        requires { HasNode self.now node }
        ensures { (j : Json) → Stands self.now node j → IsTextOf j result }
    {
        match self.kind(node) {
            Kind::Text => Some(self.string_of(node)),
            _ => None,
        }
    }

    /// The nodes of the items of a node that is an array, in the order of the text; `None` at a node of another kind.
    pub fn as_items(&self, node: u32) -> Option<&[u32]>
        requires { HasNode self.now node }
        ensures value { (j : Json) → Stands self.now node j → AreItemsOf self.now j result }
        ensures below { IfSome result (λ items. All (λ item. item < node) items.now) }
    {
        match self.kind(node) {
            Kind::Array => Some(self.items(node)),
            _ => None,
        }
    }

    /// The value's node of an object's last member of this name, names compared without escapes; `None` where no member has it. It
    /// looks at each member.
    pub fn member(&self, node: u32, name: &str) -> Option<u32>
        requires { (ms : Members) × Stands self.now node (object ms) }
        ensures value { (ms : Members) → Stands self.now node (object ms)
            → IsMember self.now (last_member name.now ms) result }
        ensures is { IfSome result (HasNode self.now) }
        ensures below { IfSome result (λ found. found < node) }
    {
        let mut found = None;
        for member in self.members(node) {
            if member.name.as_str() == name {
                found = Some(member.node);
            }
        }
        found
    }
}
