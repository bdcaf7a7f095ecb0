//! The words of variables and parameters, one behind the other.

use crate::shapes::Shapes;
use ob_checked::program::{Parameter, Procedure, Variable};
use ob_checked::types::DataType;
use ob_interface::NoMemory;
use ob_interface::scalar::ScalarType;
use std::alloc::Global;

/// A position of a scope: whether it has an address, its type, and the words before it.
#[derive(Clone, Copy)]
pub struct Space {
    pub is_var: bool,
    pub data_type: DataType,
    pub word: usize,
}

/// The positions of a scope, and their words together.
#[derive(Drop)]
pub struct Frame {
    spaces: Vec<Space>,
    words: usize,
}

impl Frame {
    ghost use Rattle.std.specs.Prelude.{◌≡◌, ◌+◌, ◌<◌, ◌^◌, [], ◌∷◌, OnOk, IfOk, IfSome, IfNone, slice_get, map};
    ghost use Rattle.ob_code_scheme.specs.Temporaries as Counts;
    ghost use Rattle.ob_code_scheme.specs.Types as Sizes;
    ghost use Rattle.ob_layout.specs.Frames.{space_of, scope_by, variables_by, parameters_by, frame_by, extents_by, spaces_of, frame_words_of, IsFrame, AreFrames, IsEnd, AddsBehind};
    ghost use Rattle.ob_layout.specs.Shapes.{types_of};
    ghost use Rattle.ob_layout.specs.View.{shapes_of};

    /// The scope without positions.
    fn new(alloc: Global) -> Frame
        ensures spaces { spaces_of result ≡ [] }
        ensures words { frame_words_of result ≡ 0 }
    {
        Frame {
            spaces: Vec::new(alloc),
            words: 0,
        }
    }

    /// The words of all positions.
    pub(crate) fn words(&self) -> usize
        ensures { result ≡ frame_words_of self.now }
    {
        self.words
    }

    /// A position, if there is one.
    pub(crate) fn space(&self, position: usize) -> Option<Space>
        ensures { result ≡ slice_get (spaces_of self.now) position }
    {
        self.spaces.get(position).copied()
    }

    /// A position; behind the last one, an INTEGER there.
    pub(crate) fn space_or_end(&self, position: usize) -> Space
        ensures space { IfSome (slice_get (spaces_of self.now) position) (λ s. result ≡ s) }
        ensures end { IfNone (slice_get (spaces_of self.now) position) (IsEnd (frame_words_of self.now) result) }
    {
        match self.spaces.get(position) {
            Some(space) => *space,
            None => Space {
                is_var: false,
                data_type: DataType::Simple(ScalarType::Integer),
                word: self.words,
            },
        }
    }

    /// Adds a position.
    fn add(&mut self, shapes: &Shapes, is_var: bool, data_type: DataType) -> Result<(), NoMemory>
        requires frame { IsFrame (types_of (shapes_of shapes.now)) self.old }
        requires small { Sizes.extent (scope_by (types_of (shapes_of shapes.now)) self.old) + Sizes.width (space_of (types_of (shapes_of shapes.now)) is_var data_type) < 2 ^ 63 }
        ensures frame { OnOk result (IsFrame (types_of (shapes_of shapes.now)) self.new) }
        ensures scope { OnOk result (AddsBehind (types_of (shapes_of shapes.now)) self.old self.new (space_of (types_of (shapes_of shapes.now)) is_var data_type ∷ [])) }
    {
        let words = if is_var { 1 } else { shapes.words(data_type) };
        self.spaces.push(Space {
            is_var,
            data_type,
            word: self.words,
        })?;
        self.words += words;
        Ok(())
    }

    /// Adds variables.
    fn add_variables(&mut self, shapes: &Shapes, variables: &[Variable]) -> Result<(), NoMemory>
        requires frame { IsFrame (types_of (shapes_of shapes.now)) self.old }
        requires small { Sizes.extent (scope_by (types_of (shapes_of shapes.now)) self.old) + Sizes.extent (variables_by (types_of (shapes_of shapes.now)) variables.now) < 2 ^ 63 }
        ensures frame { OnOk result (IsFrame (types_of (shapes_of shapes.now)) self.new) }
        ensures scope { OnOk result (AddsBehind (types_of (shapes_of shapes.now)) self.old self.new (variables_by (types_of (shapes_of shapes.now)) variables.now)) }
    {
        for variable in variables {
            self.add(shapes, false, variable.data_type)?;
        }
        Ok(())
    }

    /// Adds parameters.
    fn add_parameters(&mut self, shapes: &Shapes, parameters: &[Parameter]) -> Result<(), NoMemory>
        requires frame { IsFrame (types_of (shapes_of shapes.now)) self.old }
        requires small { Sizes.extent (scope_by (types_of (shapes_of shapes.now)) self.old) + Sizes.extent (parameters_by (types_of (shapes_of shapes.now)) parameters.now) < 2 ^ 63 }
        ensures frame { OnOk result (IsFrame (types_of (shapes_of shapes.now)) self.new) }
        ensures scope { OnOk result (AddsBehind (types_of (shapes_of shapes.now)) self.old self.new (parameters_by (types_of (shapes_of shapes.now)) parameters.now)) }
    {
        for parameter in parameters {
            self.add(shapes, parameter.is_var, parameter.data_type)?;
        }
        Ok(())
    }

    /// The scope of a module.
    pub(crate) fn of_module(
        alloc: Global,
        shapes: &Shapes,
        variables: &[Variable],
    ) -> Result<Frame, NoMemory>
        requires { Sizes.extent (variables_by (types_of (shapes_of shapes.now)) variables.now) < 2 ^ 63 }
        ensures frame { IfOk result (IsFrame (types_of (shapes_of shapes.now))) }
        ensures scope { IfOk result (λ f. scope_by (types_of (shapes_of shapes.now)) f ≡ variables_by (types_of (shapes_of shapes.now)) variables.now) }
    {
        let mut frame = Frame::new(alloc);
        frame.add_variables(shapes, variables)?;
        Ok(frame)
    }

    /// The scope of a procedure.
    fn of_procedure(
        alloc: Global,
        shapes: &Shapes,
        procedure: &Procedure,
    ) -> Result<Frame, NoMemory>
        requires { Sizes.extent (frame_by (types_of (shapes_of shapes.now)) procedure.now) < 2 ^ 63 }
        ensures frame { IfOk result (IsFrame (types_of (shapes_of shapes.now))) }
        ensures scope { IfOk result (λ f. scope_by (types_of (shapes_of shapes.now)) f ≡ frame_by (types_of (shapes_of shapes.now)) procedure.now) }
    {
        let mut frame = Frame::new(alloc);
        frame.add_parameters(shapes, procedure.parameters.as_slice())?;
        frame.add_variables(shapes, procedure.variables.as_slice())?;
        Ok(frame)
    }

    /// The scopes of procedures.
    pub(crate) fn of_procedures(
        alloc: Global,
        shapes: &Shapes,
        procedures: &[Procedure],
    ) -> Result<Vec<Frame>, NoMemory>
        requires { Counts.largest (extents_by (types_of (shapes_of shapes.now)) procedures.now) < 2 ^ 63 }
        ensures frames { IfOk result (λ fs. AreFrames (types_of (shapes_of shapes.now)) fs.items) }
        ensures scopes { IfOk result (λ fs. map (scope_by (types_of (shapes_of shapes.now))) fs.items ≡ map (frame_by (types_of (shapes_of shapes.now))) procedures.now) }
    {
        let mut frames = Vec::new(alloc);
        for procedure in procedures {
            let frame = Frame::of_procedure(alloc, shapes, procedure)?;
            frames.push(frame)?;
        }
        Ok(frames)
    }

    /// The words of the largest scope.
    pub(crate) fn largest(frames: &[Frame]) -> usize
        ensures { result ≡ Counts.largest (map frame_words_of frames.now) }
    {
        let mut largest = 0;
        for frame in frames {
            largest = largest.max(frame.words);
        }
        largest
    }
}
