//! The words of types. Each array and each record of a program stands once in a table, with its words and, of a record, those before each field.

ghost use Rattle.std.proofs.Props.{props};
ghost use Rattle.ob_layout.specs.Shapes.{AreShapes};

use ob_checked::fields::Fields;
use ob_checked::types::{DataType, Structure, Structured, Types};
use ob_interface::NoMemory;
use ob_interface::scalar::ScalarType;
use std::alloc::Global;

/// A field: its name, its type, and the words of the fields before it.
#[derive(Drop)]
pub struct Field {
    pub name: String,
    pub data_type: DataType,
    pub offset: usize,
}

/// What an array or a record consists of.
#[derive(Drop)]
pub enum Parts {
    Elements { length: usize, element: DataType },
    Fields(Vec<Field>),
}

/// An array or a record: its place in the text, its parts and its words.
#[derive(Drop)]
pub struct Shape {
    pub place: usize,
    pub parts: Parts,
    pub words: usize,
}

/// The arrays and records of a program, by their numbers.
#[derive(Drop)]
pub struct Shapes {
    all: Vec<Shape>,
    ghost shapes: { AreShapes all.items } by { Prim.hlevel props },
}

impl Shapes {
    ghost use Rattle.std.specs.Prelude.{◌≡◌, ◌≤◌, ◌*◌, ◌++◌, [], ◌∷◌, true, length, slice_get, option_copied, OnOk, IfOk, IfSome, IsSome, IsTrue, ◌↔◌};
    ghost use Rattle.ob_code_scheme.specs.Types as Sizes;
    ghost use Rattle.ob_checked.specs.Types as Given;
    ghost use Rattle.ob_layout.specs.Counted.{counted};
    ghost use Rattle.ob_layout.specs.Places.{HasPart};
    ghost use Rattle.ob_layout.specs.Shapes.{type_in, types_of, shape_by, IsShape, AreShapes, IsRecord, IsArray};
    ghost use Rattle.ob_checked.specs.View.{table_of};
    ghost use Rattle.ob_layout.specs.View.{shapes_of};

    /// The table without types.
    fn new(alloc: Global) -> Shapes
        ensures { shapes_of result ≡ [] }
    {
        Shapes {
            all: Vec::new(alloc),
        }
    }

    /// The array or the record of a number.
    pub fn shape(&self, number: usize) -> Option<&Shape>
        ensures shape { option_copied result ≡ slice_get (shapes_of self.now) number }
        ensures shapes { AreShapes (shapes_of self.now) }
    {
        self.all.get(number)
    }

    /// How many there are.
    fn count(&self) -> usize
        ensures { result ≡ length (shapes_of self.now) }
    {
        self.all.len()
    }

    /// The words of a type.
    pub fn words(&self, data_type: DataType) -> usize
        ensures { result ≡ Sizes.words (type_in (shapes_of self.now) data_type) }
    {
        match data_type {
            DataType::Simple(_) => 1,
            DataType::Structured(number) => match self.all.get(number) {
                Some(shape) => shape.words,
                None => 1,
            },
        }
    }

    /// The type of the part at a position.
    pub fn part_type(&self, data_type: DataType, position: usize) -> DataType
        ensures { type_in (shapes_of self.now) result ≡ Sizes.part_type (type_in (shapes_of self.now) data_type) position }
    {
        let DataType::Structured(number) = data_type else {
            return data_type;
        };
        match self.all.get(number) {
            None => data_type,
            Some(shape) => match &shape.parts {
                Parts::Elements { element, .. } => *element,
                Parts::Fields(fields) => match fields.get(position) {
                    Some(field) => field.data_type,
                    None => DataType::Simple(ScalarType::Integer),
                },
            },
        }
    }

    /// The words of a type before the part at a position; the greatest number where they are more.
    pub fn part_offset(&self, data_type: DataType, position: usize) -> usize
        ensures { result ≡ counted (Sizes.part_offset (type_in (shapes_of self.now) data_type) position) }
    {
        let DataType::Structured(number) = data_type else {
            return 0;
        };
        match self.all.get(number) {
            None => 0,
            Some(shape) => match &shape.parts {
                Parts::Elements { element, .. } => position.saturating_mul(self.words(*element)),
                Parts::Fields(fields) => match fields.get(position) {
                    Some(field) => field.offset,
                    None => shape.words,
                },
            },
        }
    }

    /// Whether a type has a part at a position: an element or a field.
    fn has_part(&self, data_type: DataType, position: usize) -> bool
        ensures { IsTrue result ↔ Sizes.HasPart (type_in (shapes_of self.now) data_type) position }
    {
        let DataType::Structured(number) = data_type else {
            return false;
        };
        match self.all.get(number) {
            None => false,
            Some(shape) => match &shape.parts {
                Parts::Elements { length, .. } => position < *length,
                Parts::Fields(fields) => position < fields.len(),
            },
        }
    }

    /// The words of a type before the part behind positions, one within the other; none where there is no such part.
    pub fn part_word(&self, data_type: DataType, path: &[usize]) -> Option<usize>
        ensures word { IfSome result (λ w. w ≡ Sizes.inner (type_in (shapes_of self.now) data_type) path.now) }
        ensures there { IsSome result ↔ HasPart (type_in (shapes_of self.now) data_type) path.now }
    {
        let Some((first, rest)) = path.split_first() else {
            return Some(0);
        };
        if !self.has_part(data_type, *first) {
            return None;
        }
        match self.part_word(self.part_type(data_type, *first), rest) {
            None => None,
            Some(within) => Some(self.part_offset(data_type, *first) + within),
        }
    }

    /// Adds an array or a record.
    fn add(&mut self, shape: Shape) -> Result<(), NoMemory>
        requires { IsShape (types_of (shapes_of self.old)) (length (shapes_of self.old)) shape }
        ensures { OnOk result (shapes_of self.new ≡ shapes_of self.old ++ shape ∷ []) }
    {
        self.all.push(shape)?;
        Ok(())
    }

    /// A record of these fields, each with the words of those before it.
    fn record(&self, alloc: Global, place: usize, fields: &Fields) -> Result<Shape, NoMemory>
        requires { Sizes.words_of_fields (Given.fields_by (types_of (shapes_of self.now)) (Given.fields_in fields.now)) ≤ 4096 }
        ensures { IfOk result (IsRecord (types_of (shapes_of self.now)) place (Given.fields_in fields.now)) }
    {
        let entries = fields.as_slice();
        let mut laid = Vec::new(alloc);
        let mut words = 0;
        for (name, data_type) in entries {
            laid.push(Field {
                name: String::from_str(alloc, name.as_str())?,
                data_type: *data_type,
                offset: words,
            })?;
            words += self.words(*data_type);
        }
        Ok(Shape {
            place,
            parts: Parts::Fields(laid),
            words,
        })
    }

    /// An array of so many elements.
    fn array(&self, place: usize, length: usize, element: DataType) -> Shape
        requires { length * Sizes.words (type_in (shapes_of self.now) element) ≤ 4096 }
        ensures place { result.place ≡ place }
        ensures parts { IsArray length element result }
        ensures words { result.words ≡ length * Sizes.words (type_in (shapes_of self.now) element) }
        ensures small { result.words ≤ 4096 }
    {
        Shape {
            place,
            parts: Parts::Elements { length, element },
            words: length * self.words(element),
        }
    }

    /// An array or a record of a program, behind those before it.
    fn shape_of(&self, alloc: Global, structured: &Structured) -> Result<Shape, NoMemory>
        requires small { Sizes.words (Given.entry_by (types_of (shapes_of self.now)) structured.now) ≤ 4096 }
        requires within { Given.is_within (length (shapes_of self.now)) structured.now.structure ≡ true }
        ensures same { IfOk result (λ s. shape_by (types_of (shapes_of self.now)) s ≡ Given.entry_by (types_of (shapes_of self.now)) structured.now) }
        ensures shape { IfOk result (λ s. IsShape (types_of (shapes_of self.now)) (length (shapes_of self.now)) s) }
    {
        match &structured.structure {
            Structure::Array { length, element } => {
                Ok(self.array(structured.place, *length, *element))
            }
            Structure::Record { fields } => self.record(alloc, structured.place, fields),
        }
    }

    /// The arrays and records of a program, with their words.
    pub fn of(alloc: Global, types: &Types) -> Result<Shapes, NoMemory>
        ensures { IfOk result (λ s. types_of (shapes_of s) ≡ Given.types_of (table_of types.now)) }
    {
        let mut shapes = Shapes::new(alloc);
        while let Some(structured) = types.structured(shapes.count()) {
            let shape = shapes.shape_of(alloc, structured)?;
            shapes.add(shape)?;
        }
        Ok(shapes)
    }
}
