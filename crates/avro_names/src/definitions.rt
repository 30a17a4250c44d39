//! The types that a schema defines, each found by its fullname.
ghost use Rattle.std.specs.Prelude.{◌≡◌, ◌<◌, ◌++◌, [], ◌∷◌, length, get_or, IfOk, IfErr};
ghost use Rattle.avro_names.specs.Definitions.{FindsName, defined_at};

use crate::error::SchemaNo;
use crate::name_list::NameList;
use gate_io::Text;
use std::alloc::Global;
use std::marker::Model;

/// A type that was defined.
#[derive(Debug, Drop)]
pub struct Definition {
    /// The fullname.
    pub name: Text,
    /// The node in the schema: 0 until the type was read to its end.
    pub node: u32,
}

/// Definitions in reading order, and their names by a map.
#[derive(Debug, Drop)]
pub struct Definitions {
    names: NameList,
    list: Vec<Definition>,
}

impl Model for Definitions {
    ghost use Rattle.std.specs.Prelude.{◌≡◌, List};
    ghost use Rattle.avro_names.specs.Definitions.{names_in};
    ghost use Rattle.avro_names.specs.declared.definitions.Definition.{Definition};

    ghost Value = { List Definition };

    ghost view = { λ d. d.list.items };

    ghost invariant = { λ d. d.names ≡ names_in d.list.items };
}

impl Definitions {
    /// No definitions.
    pub fn new(alloc: Global) -> Definitions
        ensures { result ≡ [] }
    {
        Definitions {
            names: NameList::new(alloc),
            list: Vec::new(alloc),
        }
    }

    /// The definition of a number.
    pub fn get(&self, definition: usize) -> &Definition
        requires { definition < length self.now }
        ensures { result.now ≡ get_or self.now definition result.now }
    {
        &self.list[definition]
    }

    /// The first definition of a name.
    pub fn find(&self, name: &str) -> Option<usize>
        ensures { FindsName self.now name.now result }
    {
        self.names.find(name)
    }

    /// Gives a name to a type whose node is to come, and answers the number of the definition.
    pub fn add(&mut self, alloc: Global, name: &str) -> Result<usize, SchemaNo>
        ensures ok { IfOk result (λ d. (d ≡ length self.old)
            × (self.new ≡ self.old ++ (record { name = name.now; node = 0 } ∷ []))) }
        ensures want { IfErr result (λ e. e ≡ SchemaNo.Want) }
    {
        let definition = self.list.len();
        self.list.push(Definition {
            name: Text::from_str(alloc, name)?,
            node: 0,
        })?;
        match self.names.push(alloc, name) {
            Ok(_) => Ok(definition),
            Err(_) => {
                let _last = self.list.pop();
                Err(SchemaNo::Want)
            }
        }
    }

    /// Sets the node of a type that was read to its end.
    pub fn close(&mut self, definition: usize, node: u32)
        requires { definition < length self.old }
        ensures { self.new ≡ defined_at self.old definition node }
    {
        self.list[definition].node = node;
    }
}
