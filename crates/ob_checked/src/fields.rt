//! The fields of a record.

ghost use Rattle.std.specs.Prelude.{◌≡◌, ℕ, List};
ghost use Rattle.std.specs.BTreeMap.{get_by_text};
ghost use Rattle.std.proofs.Props.{props};
ghost use Rattle.ob_checked.specs.Fields.{position_from};

use crate::types::DataType;
use std::alloc::{AllocError, Global};
use std::collections::BTreeMap;

/// The fields of a record in text order, each with its type, which are found by their names. These are kept in order and not
/// hashed: who writes a module chooses them, and could choose such as have one hash.
#[derive(Drop)]
pub struct Fields {
    entries: Vec<(String, DataType)>,
    /// Where each name stands among them.
    positions: BTreeMap<String, usize>,
    ghost indexed: { (name : List ℕ) → get_by_text positions name ≡ position_from 0 entries.items name } by { Prim.hlevel props },
}

impl Fields {
    ghost use Rattle.std.specs.Prelude.{◌≡◌, ◌++◌, ◌∷◌, [], ℕ, List, None, OnErr, OnOk, string_bytes};
    ghost use Rattle.std.specs.BTreeMap.{get_by_text};
    ghost use Rattle.ob_checked.specs.Fields.{found_from, position_from};
    ghost use Rattle.ob_checked.specs.Types.{fields_in};

    /// No fields.
    pub fn new(alloc: Global) -> Fields
        ensures { fields_in result ≡ [] }
    {
        Fields {
            entries: Vec::new(alloc),
            positions: BTreeMap::new(alloc),
        }
    }

    /// The fields in text order.
    pub fn as_slice(&self) -> &[(String, DataType)]
        ensures { result.now ≡ fields_in self.now }
    {
        &self.entries
    }

    /// Where each name stands among them.
    pub fn positions(&self) -> &BTreeMap<String, usize>
        ensures { (name : List ℕ) → get_by_text result.now name ≡ position_from 0 (fields_in self.now) name }
    {
        &self.positions
    }

    /// The position of the field of a name, and its type.
    pub fn find(&self, name: &str) -> Option<(usize, DataType)>
        ensures { result ≡ found_from 0 (fields_in self.now) name.now }
    {
        match self.positions.get(name) {
            Some(position) => Some((*position, self.entries[*position].1)),
            None => None,
        }
    }

    /// Adds a field behind the others. Its name is none of theirs.
    pub fn push(&mut self, name: String, data_type: DataType) -> Result<(), AllocError>
        requires new { found_from 0 (fields_in self.old) (string_bytes name) ≡ None }
        ensures ok { OnOk result (fields_in self.new ≡ fields_in self.old ++ (name, data_type) ∷ []) }
        ensures unchanged { OnErr result (fields_in self.new ≡ fields_in self.old) }
    {
        let key = name.clone()?;
        let position = self.entries.len();
        self.entries.push((name, data_type))?;
        match self.positions.insert(key, position) {
            Ok(_) => Ok(()),
            Err(_) => {
                self.entries.pop();
                Err(AllocError)
            }
        }
    }
}
