ghost use Rattle.std.specs.Prelude.{◌≡◌, ◌<◌, ◌++◌, [], ◌∷◌, ℕ, List, Some, length, slice_get, OnOk};
ghost use Rattle.json_span.specs.NodeList.{kind_of_form, IsEscaped};
ghost use Rattle.json_span.specs.Tree.{items_of, members_of};
ghost use Rattle.json_span.specs.declared.tree.Node.{Node};
ghost use Rattle.json_span.specs.declared.tree.Member.{Member};

use crate::beside::Beside;
use crate::small::{Small, kind_of};
use crate::tree::{Kind, Member, Node};
use gate_io::Want;
use std::alloc::Global;
use std::marker::Model;

/// Nodes of 16 bytes each, and beside them the texts with escapes and the parts of arrays and objects.
#[derive(Debug, Drop)]
pub(crate) struct NodeList {
    nodes: Vec<Small>,
    beside: Beside,
}

impl Model for NodeList {
    ghost use Rattle.std.specs.Prelude.{List};
    ghost use Rattle.json_span.specs.NodeList.{nodes_in, AreKept};
    ghost use Rattle.json_span.specs.declared.tree.Node.{Node};

    ghost Value = { List Node };

    ghost view = { λ n. nodes_in n.beside n.nodes.items };

    ghost invariant = { λ n. AreKept n.beside n.nodes.items };
}

impl NodeList {
    pub(crate) fn new(alloc: Global) -> NodeList
        ensures { result ≡ [] }
    {
        NodeList {
            nodes: Vec::new(alloc),
            beside: Beside {
                texts: Vec::new(alloc),
                arrays: Vec::new(alloc),
                objects: Vec::new(alloc),
            },
        }
    }

    pub(crate) fn len(&self) -> usize
        ensures { result ≡ length self.now }
    {
        self.nodes.len()
    }

    /// Puts a node behind the others. Places from 4,294,967,296 on are want of memory.
    pub(crate) fn push(&mut self, node: Node) -> Result<(), Want>
        ensures { OnOk result (self.new ≡ self.old ++ node ∷ []) }
    {
        let Node { start, end, form } = node;
        let Ok(start) = u32::try_from(start) else {
            return Err(Want);
        };
        let Ok(end) = u32::try_from(end) else {
            return Err(Want);
        };
        let kept = match self.beside.keep(form) {
            Ok(kept) => kept,
            Err(e) => return Err(e),
        };
        match self.nodes.push(Small { start, end, kept }) {
            Ok(()) => Ok(()),
            Err(_) => Err(Want),
        }
    }

    /// What the node is.
    pub(crate) fn kind(&self, node: u32) -> Kind
        requires { node < length self.now }
        ensures { (x : Node) → slice_get self.now node ≡ Some x → result ≡ kind_of_form x.form }
    {
        kind_of(self.nodes[node as usize].kept)
    }

    /// Where the node's source text begins.
    pub(crate) fn start(&self, node: u32) -> usize
        requires { node < length self.now }
        ensures { (x : Node) → slice_get self.now node ≡ Some x → result ≡ x.start }
    {
        self.nodes[node as usize].start as usize
    }

    /// Where the node's source text ends.
    pub(crate) fn end(&self, node: u32) -> usize
        requires { node < length self.now }
        ensures { (x : Node) → slice_get self.now node ≡ Some x → result ≡ x.end }
    {
        self.nodes[node as usize].end as usize
    }

    /// The text of a node that has escapes.
    pub(crate) fn escaped(&self, node: u32) -> Option<&str>
        requires { node < length self.now }
        ensures { (x : Node) → slice_get self.now node ≡ Some x → IsEscaped x.form result }
    {
        self.beside.text(self.nodes[node as usize].kept)
    }

    /// The items of a node that is an array.
    pub(crate) fn items(&self, node: u32) -> &[u32]
        requires { node < length self.now }
        ensures { (x : Node) → slice_get self.now node ≡ Some x
            → (ks : List ℕ) → items_of x.form ≡ Some ks → result.now ≡ ks }
    {
        self.beside.items(self.nodes[node as usize].kept)
    }

    /// The members of a node that is an object.
    pub(crate) fn members(&self, node: u32) -> &[Member]
        requires { node < length self.now }
        ensures { (x : Node) → slice_get self.now node ≡ Some x
            → (vs : List Member) → members_of x.form ≡ Some vs → result.now ≡ vs }
    {
        self.beside.members(self.nodes[node as usize].kept)
    }
}
