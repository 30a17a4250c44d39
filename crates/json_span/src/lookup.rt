ghost use Rattle.std.specs.Prelude.{◌≡◌, ◌-◌, ◌<◌, ◌≤◌, ℕ, List, All, length, take, drop};
ghost use Rattle.json_span.specs.Json.{Json, Items, Members, text, array, object, number, IsWithin};
ghost use Rattle.json_token.specs.Chars.{content};
ghost use Rattle.json_token.specs.Integer.{integer_of};
ghost use Rattle.json_span.specs.Text.{compact, IsText};
ghost use Rattle.json_span.specs.Nodes.{Stands, StandForItems, StandForMembers, HasNode, root_of, kind_of, IsOfKind};

use crate::tree::{Kind, Member, Tree};
use json_token::integer_of;

fn part(source: &Vec<u8>, start: usize, end: usize) -> &[u8]
    requires order { start ≤ end }
    requires inside { end ≤ length source.now.items }
    ensures { result.now ≡ take (end - start) (drop start source.now.items) }
{
    &source.as_slice()[start..end]
}

impl Tree {
    /// The node of the whole text.
    pub fn root(&self) -> u32
        ensures { result ≡ root_of self.now }
    {
        self.root
    }

    /// What the node is.
    pub fn kind(&self, node: u32) -> Kind
        requires { HasNode self.now node }
        ensures value { (j : Json) → Stands self.now node j → result ≡ kind_of j }
        ensures is { IsOfKind self.now node result }
    {
        self.nodes.kind(node)
    }

    /// The members of a node that is an object, in the order of the text, repeats included. No memory is taken.
    pub fn members(&self, node: u32) -> &[Member]
        requires { (ms : Members) × Stands self.now node (object ms) }
        ensures value { (ms : Members) → Stands self.now node (object ms) → StandForMembers self.now result.now ms }
        ensures below { All (λ m. m.node < node) result.now }
    {
        self.nodes.members(node)
    }

    /// The nodes of the items of a node that is an array, in the order of the text. No memory is taken.
    pub fn items(&self, node: u32) -> &[u32]
        requires { (js : Items) × Stands self.now node (array js) }
        ensures value { (js : Items) → Stands self.now node (array js) → StandForItems self.now result.now js }
        ensures below { All (λ item. item < node) result.now }
    {
        self.nodes.items(node)
    }

    /// The node's source text without white space between tokens: numbers, texts and names as they were spelled.
    pub fn text_of(&self, node: u32) -> &str
        requires { HasNode self.now node }
        ensures value { (j : Json) → Stands self.now node j → result.now ≡ compact j }
        // Read again, it has the same value.
        ensures again { (j : Json) → Stands self.now node j → (levels : ℕ) → IsWithin levels j
            → IsText levels result.now j }
    {
        let bytes = part(&self.source, self.nodes.start(node), self.nodes.end(node));
        unsafe { std::str::from_utf8_unchecked(bytes) }
    }

    /// The characters of a node that is a text: without its quotes, each escape as its character (RFC 8259, section 7).
    pub fn string_of(&self, node: u32) -> &str
        requires { (s : List ℕ) × Stands self.now node (text s) }
        ensures { (s : List ℕ) → Stands self.now node (text s) → result.now ≡ content s }
    {
        match self.nodes.escaped(node) {
            Some(text) => text,
            None => {
                let start = self.nodes.start(node);
                let end = self.nodes.end(node);
                let bytes = part(&self.source, start + 1, end - 1);
                unsafe { std::str::from_utf8_unchecked(bytes) }
            }
        }
    }

    /// The integer that a node that is a number spells; `None` where it has a fraction, an exponent, or more than 38 digits. `-0` is 0.
    pub fn int_of(&self, node: u32) -> Option<i128>
        requires { (s : List ℕ) × Stands self.now node (number s) }
        ensures { (s : List ℕ) → Stands self.now node (number s) → result ≡ integer_of s }
    {
        integer_of(part(&self.source, self.nodes.start(node), self.nodes.end(node)))
    }
}
