ghost use Rattle.std.specs.Prelude.{◌≡◌, ◌+◌, ◌≤◌, ◌++◌, [], ◌∷◌, length, IfOk, IfErr};

use crate::node_list::NodeList;
use gate_io::{Items, Text};
use json_token::JsonNo;

/// What a node is: the values of RFC 8259, section 3.
#[derive(Clone, Copy, Debug, PartialEq, Eq)]
pub enum Kind {
    Null,
    /// `true` or `false`.
    Bool(bool),
    /// A number of any size; `Tree::text_of` has its digits, `Tree::int_of` its value as an integer.
    Number,
    /// A string; `Tree::string_of` has its characters.
    Text,
    /// `Tree::items` has its items.
    Array,
    /// `Tree::members` has its members, `Tree::member` the last one of a name.
    Object,
}

/// A member of an object: its name without escapes, and the node of its value.
#[derive(Debug, Drop)]
pub struct Member {
    /// The name, unescaped.
    pub name: Text,
    /// The node of the value, made before that of the object.
    pub node: u32,
}

/// What a node has besides its source text. A text without escapes is its source text between the quotes.
#[derive(Debug, Drop)]
pub(crate) enum Form {
    Null,
    Bool(bool),
    Number,
    Plain,
    Escaped(Text),
    Array(Items<u32>),
    Object(Items<Member>),
}

/// A value: where its source text begins and ends in the tree's text, and its form. `NodeList` keeps it in fewer bytes.
#[derive(Debug, Drop)]
pub(crate) struct Node {
    pub(crate) start: usize,
    pub(crate) end: usize,
    pub(crate) form: Form,
}

/// A JSON value as a flat list of nodes, each behind its parts; the last is the root. Nodes are numbered from 0, and a number means a
/// node of the tree that gave it alone.
#[derive(Debug, Drop)]
pub struct Tree {
    pub(crate) nodes: NodeList,
    pub(crate) source: Vec<u8>,
    pub(crate) root: u32,
}

impl Tree {
    /// Makes a node whose source text begins at `start` and ends with the text so far.
    pub(crate) fn add(&mut self, start: usize, form: Form) -> Result<u32, JsonNo>
        ensures source { self.new.source.items ≡ self.old.source.items }
        ensures ok { IfOk result (λ k. (k ≡ length self.old.nodes) × (self.new.nodes
            ≡ self.old.nodes ++ (record { start = start; end = length self.old.source.items; form = form } ∷ []))) }
        ensures want { IfErr result (λ e. e ≡ JsonNo.Want) }
    {
        let Ok(node) = u32::try_from(self.nodes.len()) else {
            return Err(JsonNo::Want);
        };
        let end = self.source.len();
        match self.nodes.push(Node { start, end, form }) {
            Ok(()) => Ok(node),
            Err(_) => Err(JsonNo::Want),
        }
    }
}
