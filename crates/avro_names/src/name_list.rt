//! Names in order, each found by a map.
ghost use Rattle.std.specs.Prelude.{◌≡◌, ◌++◌, [], ◌∷◌, false, not, IfOk, OnErr, OnOk};
ghost use Rattle.avro_names.specs.NameList.{place_of};
ghost use Rattle.avro_names.specs.NameList.{is_among};

use gate_io::Text;
use std::alloc::{AllocError, Global};
use std::collections::BTreeMap;
use std::marker::Model;

/// Names in order, and a map from each to its first place.
#[derive(Debug, Drop)]
pub struct NameList {
    names: Vec<Text>,
    places: BTreeMap<String, usize>,
}

impl Model for NameList {
    ghost use Rattle.std.specs.Prelude.{◌≡◌, List, ℕ};
    ghost use Rattle.std.specs.BTreeMap.{get_by_text};
    ghost use Rattle.avro_names.specs.NameList.{place_of};

    ghost Value = { List (List ℕ) };

    ghost view = { λ n. n.names.items };

    ghost invariant = { λ n. (name : List ℕ) → get_by_text n.places name ≡ place_of name n.names.items };
}

impl NameList {
    /// No names.
    pub fn new(alloc: Global) -> NameList
        ensures { result ≡ [] }
    {
        NameList {
            names: Vec::new(alloc),
            places: BTreeMap::new(alloc),
        }
    }

    /// The names in the order in which they were put in.
    pub fn as_slice(&self) -> &[Text]
        ensures { result.now ≡ self.now }
    {
        self.names.as_slice()
    }

    /// The first place of a name.
    pub fn find(&self, name: &str) -> Option<usize>
        ensures { result ≡ place_of name.now self.now }
    {
        match self.places.get(name) {
            Some(place) => Some(*place),
            None => None,
        }
    }

    /// Puts a name behind the others. False if it is among them.
    pub fn push(&mut self, alloc: Global, name: &str) -> Result<bool, AllocError>
        ensures added { IfOk result (λ new. new ≡ not (is_among name.now self.old)) }
        ensures items { OnOk result (self.new ≡ self.old ++ name.now ∷ []) }
        ensures stays { OnErr result (self.new ≡ self.old) }
    {
        match self.places.get(name) {
            Some(_) => {
                self.names.push(Text::from_str(alloc, name)?)?;
                Ok(false)
            }
            None => {
                self.push_new(alloc, name)?;
                Ok(true)
            }
        }
    }

    /// Puts a name behind the others, which it is not among.
    fn push_new(&mut self, alloc: Global, name: &str) -> Result<(), AllocError>
        requires { is_among name.now self.old ≡ false }
        ensures items { OnOk result (self.new ≡ self.old ++ name.now ∷ []) }
        ensures stays { OnErr result (self.new ≡ self.old) }
    {
        let key = String::from_str(alloc, name)?;
        let place = self.names.len();
        self.names.push(Text::from_str(alloc, name)?)?;
        match self.places.insert(key, place) {
            Ok(_) => Ok(()),
            Err(_) => {
                let _last = self.names.pop();
                Err(AllocError)
            }
        }
    }
}
