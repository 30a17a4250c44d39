//! JSON with its source text: a flat tree of nodes, each with the text that it was read from.
#![tactic(auto)]

mod array;
mod beside;
mod format;
mod lookup;
mod node_list;
mod object;
mod parts;
mod reader;
mod scalar;
mod small;
mod source;
mod state;
mod tree;

pub use format::Format;
pub use json_token::{JsonNo, numbers_are_those_of_the_grammar};
pub use reader::read;
pub use tree::{Kind, Member, Tree};
