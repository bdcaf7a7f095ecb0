//! The layout of a checked program.

ghost use Rattle.std.proofs.Props.{props};
ghost use Rattle.std.specs.Prelude.{◌≡◌, ◌+◌, ◌*◌, List, IfOk, map, min};
ghost use Rattle.ob_typing.specs.Program as Program;
ghost use Rattle.ob_layout.specs.Frames.{variable_by, variables_by, scope_by, IsFrame, AreFrames};
ghost use Rattle.ob_layout.specs.Shapes.{types_of};
ghost use Rattle.ob_layout.specs.View.{shapes_of};

use crate::decoding::decoded;
use crate::frames::{Frame, Space};
use crate::shapes::Shapes;
use crate::temporaries::most_temporaries;
use ob_checked::checked::Checked;
use ob_checked::program::Variable;
use ob_checked::types::DataType;
use ob_interface::NoMemory;
use ob_interface::scalar::ScalarType;
use ob_store::state::State;
use std::alloc::{AllocError, Global};

/// The words of a checked program: of its types, of its variables in a block, and of its procedures' frames on a stack.
#[derive(Drop)]
pub struct Layout {
    shapes: Shapes,
    variables: Vec<Variable>,
    block: Frame,
    frames: Vec<Frame>,
    stack_words: usize,
    ghost scope: { ∥ scope_by (types_of (shapes_of shapes)) block ≡ variables_by (types_of (shapes_of shapes)) variables.items ∥₁ },
    ghost words: { IsFrame (types_of (shapes_of shapes)) block } by { Prim.hlevel props },
    ghost framed: { AreFrames (types_of (shapes_of shapes)) frames.items } by { Prim.hlevel props },
}

/// Equal variables.
fn copied(alloc: Global, variables: &[Variable]) -> Result<Vec<Variable>, AllocError>
    ensures { (types : List Program.DataType) → IfOk result (λ v. map (variable_by types) v.items ≡ map (variable_by types) variables.now) }
{
    let mut copies = Vec::new(alloc);
    for variable in variables {
        copies.push(Variable {
            name: String::from_str(alloc, variable.name.as_str())?,
            data_type: variable.data_type,
        })?;
    }
    Ok(copies)
}

/// Room for 8 results, and for 64 activations; the greatest number where it is more.
fn stack_words(frame: usize, temporaries: usize) -> usize
    ensures { result ≡ min (8 + 64 * (frame + temporaries)) usize.MAX }
{
    let activation = frame.saturating_add(temporaries);
    activation.saturating_mul(64).saturating_add(8)
}

impl Layout {
    ghost use Rattle.std.specs.Prelude.{◌≡◌, ◌↔◌, IfOk, IfSome, IsSome, option_map, drop};
    ghost use Rattle.ob_code_scheme.specs.Memory.{part_word};
    ghost use Rattle.ob_layout.specs.Places.{HasPlace};
    ghost use Rattle.ob_code_scheme.specs.Layout as Layouts;
    ghost use Rattle.ob_code_scheme.specs.Types as Sizes;
    ghost use Rattle.ob_checked.specs.Types as Given;
    ghost use Rattle.ob_checked.specs.CheckedModule.{program_in};
    ghost use Rattle.ob_layout.specs.Counted.{counted};
    ghost use Rattle.ob_layout.specs.Layout.{parts_of, layout_of, types_in, block_in, frame_in, space_in};
    ghost use Rattle.ob_store.specs.View.{state_of};

    /// The layout of a checked program.
    pub fn of(alloc: Global, checked: &Checked) -> Result<Layout, NoMemory>
        ensures { IfOk result (λ l. parts_of l ≡ layout_of (program_in checked.now)) }
    {
        checked.keeps_limits();
        let program = checked.program();
        let declared = program.variables.as_slice();
        let procedures = program.procedures.as_slice();
        let shapes = Shapes::of(alloc, &program.types)?;
        let variables = copied(alloc, declared)?;
        let block = Frame::of_module(alloc, &shapes, declared)?;
        let frames = Frame::of_procedures(alloc, &shapes, procedures)?;
        let largest = Frame::largest(frames.as_slice());
        let stack_words = stack_words(largest, most_temporaries(procedures));
        Ok(Layout {
            shapes,
            variables,
            block,
            frames,
            stack_words,
        })
    }

    /// The words of a type.
    pub fn words(&self, data_type: DataType) -> usize
        ensures { result ≡ Sizes.words (Given.type_by (types_in self.now) data_type) }
    {
        self.shapes.words(data_type)
    }

    /// The type of the part at a position.
    pub fn part_type(&self, data_type: DataType, position: usize) -> DataType
        ensures { Given.type_by (types_in self.now) result ≡ Sizes.part_type (Given.type_by (types_in self.now) data_type) position }
    {
        self.shapes.part_type(data_type, position)
    }

    /// The words of a type before the part at a position; the greatest number where they are more, as never with a checked
    /// program.
    pub fn part_offset(&self, data_type: DataType, position: usize) -> usize
        ensures { result ≡ counted (Sizes.part_offset (Given.type_by (types_in self.now) data_type) position) }
    {
        self.shapes.part_offset(data_type, position)
    }

    /// The words of the module's variables.
    pub fn variable_words(&self) -> usize
        ensures { result ≡ Layouts.variable_words (parts_of self.now).variables }
    {
        self.block.words()
    }

    /// The word of the block where the variable at a position begins; behind the last one, all words.
    fn variable_word(&self, position: usize) -> usize
        ensures { result ≡ Layouts.word_of (parts_of self.now).variables position }
    {
        match self.block.space(position) {
            Some(space) => space.word,
            None => self.block.words(),
        }
    }

    /// The word of the block where a part of a variable begins: the part behind these positions, fields' and indices, one within
    /// the other; none where there is no such variable or no such part.
    pub fn word_of(&self, position: usize, path: &[usize]) -> Option<usize>
        ensures word { IfSome result (λ w. w ≡ part_word (parts_of self.now).variables position path.now) }
        ensures there { IsSome result ↔ HasPlace (parts_of self.now).variables position path.now }
    {
        match self.variables.get(position) {
            None => None,
            Some(variable) => match self.shapes.part_word(variable.data_type, path) {
                None => None,
                Some(word) => Some(self.variable_word(position) + word),
            },
        }
    }

    /// What stands at a position of the module's variables, its type and its word; behind the last one, an INTEGER there.
    pub fn variable(&self, position: usize) -> Space
        ensures space { space_in self.now result ≡ Sizes.space_at (block_in self.now) position }
        ensures word { result.word ≡ Layouts.word_of (parts_of self.now).variables position }
    {
        let data_type = match self.variables.get(position) {
            Some(variable) => variable.data_type,
            None => DataType::Simple(ScalarType::Integer),
        };
        Space {
            is_var: false,
            data_type,
            word: self.variable_word(position),
        }
    }

    /// The words of a procedure's frame.
    pub fn frame_words(&self, procedure: usize) -> usize
        ensures { result ≡ Sizes.extent (frame_in self.now procedure) }
    {
        match self.frames.get(procedure) {
            Some(frame) => frame.words(),
            None => 0,
        }
    }

    /// What stands at a position of a procedure's frame, whether it is an address, its type and its word; behind the last one, an INTEGER there.
    pub fn own(&self, procedure: usize, position: usize) -> Space
        ensures space { space_in self.now result ≡ Sizes.space_at (frame_in self.now procedure) position }
        ensures word { result.word ≡ Sizes.word_in (frame_in self.now procedure) position }
    {
        match self.frames.get(procedure) {
            Some(frame) => frame.space_or_end(position),
            None => Space {
                is_var: false,
                data_type: DataType::Simple(ScalarType::Integer),
                word: 0,
            },
        }
    }

    /// The words of a procedure's frame from a position on: of its variables, behind its parameters.
    pub fn words_from(&self, procedure: usize, position: usize) -> usize
        ensures { result ≡ Sizes.extent (drop position (frame_in self.now procedure)) }
    {
        self.frame_words(procedure) - self.own(procedure, position).word
    }

    /// The words that a stack needs for any call; the greatest number where they are more, as never within the limits of
    /// the language.
    pub fn stack_words(&self) -> usize
        ensures { result ≡ (parts_of self.now).stack_words }
    {
        self.stack_words
    }

    /// The state that words are of; none where they are of no state, as where a word is no value of its variable.
    pub fn decode(&self, alloc: Global, words: &[i64]) -> Result<Option<State>, NoMemory>
        ensures { IfOk result (λ o. option_map state_of o ≡ Layouts.decoded (parts_of self.now).variables words.now) }
    {
        decoded(alloc, &self.shapes, self.variables.as_slice(), words)
    }
}
