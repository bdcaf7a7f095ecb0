//! The types of a program. Each occurrence of ARRAY and RECORD stands once in a table, and its number is the type,
//! so that no type is ever copied.

ghost use Rattle.std.proofs.Props.{props};
ghost use Rattle.ob_checked.specs.Types.{IsTable};

use crate::fields::Fields;
use ob_interface::scalar::ScalarType;
use std::alloc::{AllocFailed, Global};

/// The most words of a type.
const MOST_WORDS: usize = 4096;

/// How deep arrays and records may stand within each other.
const DEEPEST: usize = 100;

/// A type: a scalar's, or the number of an array or a record in the table.
#[derive(Clone, Copy, PartialEq, Eq)]
pub enum DataType {
    Simple(ScalarType),
    Structured(usize),
}

/// What an array or a record consists of.
#[derive(Drop)]
pub enum Structure {
    Array { length: usize, element: DataType },
    Record { fields: Fields },
}

/// An occurrence of ARRAY or RECORD, with its place in the text, its words, and how deep arrays and records stand in it.
#[derive(Drop)]
pub struct Structured {
    pub place: usize,
    pub structure: Structure,
    pub words: usize,
    pub depth: usize,
}

/// The arrays and records of a program. Those that stand in one have smaller numbers, and each keeps the limits on
/// words and depth.
#[derive(Drop)]
pub struct Types {
    all: Vec<Structured>,
    ghost table: { IsTable all.items } by { Prim.hlevel props },
}

impl Types {
    ghost use Rattle.std.specs.Prelude.{◌≡◌, ◌<◌, ◌+◌, true, [], length, slice_get, option_copied, option_map, IfOk, OnErr, IfSome, IfNone};
    ghost use Rattle.std.specs.Prelude as Lists;
    ghost use Rattle.ob_typing.specs.Program as Programs;
    ghost use Rattle.ob_typing.specs.Scopes as Declared;
    ghost use Rattle.ob_typing.specs.Scopes.{words, depth, words_of_fields, depth_of_fields};
    ghost use Rattle.ob_checked.specs.Types.{type_in, types_of, fields_in, fields_by, structure_by, is_below, all_below, is_within, if_small, Extends, IsTable};
    ghost use Rattle.ob_checked.specs.View.{table_of};

    /// The table without types.
    pub fn new(alloc: Global) -> Types
        ensures { table_of result ≡ [] }
    {
        Types {
            all: Vec::new(alloc),
        }
    }

    /// The array or the record of a number.
    pub fn structured(&self, number: usize) -> Option<&Structured>
        ensures entry { option_copied result ≡ slice_get (table_of self.now) number }
        ensures table { IsTable (table_of self.now) }
    {
        self.all.get(number)
    }

    /// The words of a type.
    pub fn words(&self, data_type: DataType) -> usize
        ensures { result ≡ words (type_in (table_of self.now) data_type) }
    {
        match data_type {
            DataType::Simple(_) => 1,
            DataType::Structured(number) => match self.all.get(number) {
                Some(structured) => structured.words,
                None => 1,
            },
        }
    }

    /// How deep arrays and records stand within each other in a type.
    pub fn depth(&self, data_type: DataType) -> usize
        ensures { result ≡ depth (type_in (table_of self.now) data_type) }
    {
        match data_type {
            DataType::Simple(_) => 0,
            DataType::Structured(number) => match self.all.get(number) {
                Some(structured) => structured.depth,
                None => 0,
            },
        }
    }

    /// The words of fields together, or `None` where there are more than any number.
    fn words_of_fields(&self, fields: &Fields) -> Option<usize>
        ensures words { IfSome result (λ w. w ≡ words_of_fields (fields_by (types_of (table_of self.now)) (fields_in fields.now))) }
        ensures many { IfNone result (4096 < words_of_fields (fields_by (types_of (table_of self.now)) (fields_in fields.now))) }
    {
        let entries = fields.as_slice();
        let mut words: usize = 0;
        for (_, data_type) in entries {
            words = words.checked_add(self.words(*data_type))?;
        }
        Some(words)
    }

    /// How deep the deepest of fields is.
    fn depth_of_fields(&self, fields: &Fields) -> usize
        ensures { result ≡ depth_of_fields (fields_by (types_of (table_of self.now)) (fields_in fields.now)) }
    {
        let entries = fields.as_slice();
        let mut depth: usize = 0;
        for (_, data_type) in entries {
            depth = depth.max(self.depth(*data_type));
        }
        depth
    }

    /// Adds an array or a record of so many words, in which parts are so deep; `None` where it passes a limit.
    fn add(
        &mut self,
        place: usize,
        structure: Structure,
        words: usize,
        depth: usize,
    ) -> Result<Option<DataType>, AllocFailed<Structured>>
        requires within { is_within (length (table_of self.old)) structure ≡ true }
        requires words { words ≡ Declared.words (structure_by (types_of (table_of self.old)) place structure) }
        requires depth { depth + 1 ≡ Declared.depth (structure_by (types_of (table_of self.old)) place structure) }
        ensures given { IfOk result (λ r. option_map (type_in (table_of self.new)) r ≡ if_small (structure_by (types_of (table_of self.old)) place structure)) }
        ensures known { IfOk result (λ r. IfSome r (λ t. is_below (Lists.length (table_of self.new)) t ≡ true)) }
        ensures extends { Extends (table_of self.old) (table_of self.new) }
        ensures unchanged { OnErr result (table_of self.new ≡ table_of self.old) }
    {
        if words > MOST_WORDS || depth >= DEEPEST {
            return Ok(None);
        }
        let number = self.all.len();
        self.all.push(Structured {
            place,
            structure,
            words,
            depth: depth + 1,
        })?;
        Ok(Some(DataType::Structured(number)))
    }

    /// Adds an array; `None` where it passes a limit on words or depth.
    pub fn array(
        &mut self,
        place: usize,
        length: usize,
        element: DataType,
    ) -> Result<Option<DataType>, AllocFailed<Structured>>
        requires known { is_below (Lists.length (table_of self.old)) element ≡ true }
        ensures given { IfOk result (λ r. option_map (type_in (table_of self.new)) r ≡ if_small (Programs.Array place length (type_in (table_of self.old) element))) }
        ensures known { IfOk result (λ r. IfSome r (λ t. is_below (Lists.length (table_of self.new)) t ≡ true)) }
        ensures extends { Extends (table_of self.old) (table_of self.new) }
        ensures unchanged { OnErr result (table_of self.new ≡ table_of self.old) }
    {
        let Some(words) = length.checked_mul(self.words(element)) else {
            return Ok(None);
        };
        let depth = self.depth(element);
        self.add(place, Structure::Array { length, element }, words, depth)
    }

    /// Adds a record with its fields in text order; `None` where it passes a limit on words or depth.
    pub fn record(
        &mut self,
        place: usize,
        fields: Fields,
    ) -> Result<Option<DataType>, AllocFailed<Structured>>
        requires known { all_below (length (table_of self.old)) (fields_in fields) ≡ true }
        ensures given { IfOk result (λ r. option_map (type_in (table_of self.new)) r ≡ if_small (Programs.Record place (fields_by (types_of (table_of self.old)) (fields_in fields)))) }
        ensures known { IfOk result (λ r. IfSome r (λ t. is_below (Lists.length (table_of self.new)) t ≡ true)) }
        ensures extends { Extends (table_of self.old) (table_of self.new) }
        ensures unchanged { OnErr result (table_of self.new ≡ table_of self.old) }
    {
        let Some(words) = self.words_of_fields(&fields) else {
            return Ok(None);
        };
        let depth = self.depth_of_fields(&fields);
        // A record without fields counts as one word.
        self.add(place, Structure::Record { fields }, words.max(1), depth)
    }
}
