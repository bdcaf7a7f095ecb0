//! What a desk keeps beside its lock.

ghost use Rattle.std.specs.Prelude.{◌≡◌, IfOk, map};
ghost use Rattle.ob_desk_floor.specs.Desk.{terms_of};
ghost use Rattle.ob_desk_floor.specs.Submission.{submission_of};

use crate::submission::copied_submissions;
use crate::{Opening, Submission};
use ob_interface::NoMemory;
use std::alloc::Global;
use std::marker::Model;
use std::sync::Arc;
use wf_theorems::CodedEngine;

/// An engine, the number of processes, the words with which their object begins, whether their values were carried over, the
/// calls that were submitted before any turn, and the tag of the seats.
#[derive(Drop)]
pub struct Terms<E: CodedEngine> {
    engine: E,
    processes: usize,
    opening: Opening,
    scripts: Arc<Vec<Submission>, Global>,
    tag: u64,
}

impl<E: CodedEngine> Model for Terms<E> {
    ghost use Rattle.std.specs.Arc.{arc_value};
    ghost use Rattle.ob_desk_floor.specs.Desk as desk;

    ghost Value = { desk.Terms E };

    ghost view = { λ t. desk.terms_of t.engine t.processes t.opening (arc_value t.scripts).items t.tag };
}

impl<E: CodedEngine> Terms<E> {
    ghost use Rattle.std.specs.Arc.{arc_value};

    /// The engine and the opening, and copies of the calls.
    pub fn new(
        alloc: Global,
        engine: E,
        processes: usize,
        opening: Opening,
        scripts: &[Submission],
        tag: u64,
    ) -> Result<Terms<E>, NoMemory>
        ensures { IfOk result (λ t. t ≡ terms_of engine processes opening scripts.now tag) }
    {
        let scripts = Arc::new(alloc, copied_submissions(alloc, scripts)?)?;
        Ok(Terms::sharing(engine, processes, opening, scripts, tag))
    }

    /// The engine, the opening and the calls, which are shared with others.
    pub fn sharing(
        engine: E,
        processes: usize,
        opening: Opening,
        scripts: Arc<Vec<Submission>, Global>,
        tag: u64,
    ) -> Terms<E>
        ensures { result ≡ terms_of engine processes opening (arc_value scripts).items tag }
    {
        Terms {
            engine,
            processes,
            opening,
            scripts,
            tag,
        }
    }

    /// The engine whose code closing compares with that of the floor's engine.
    pub fn engine(&self) -> &E
        ensures { result.now ≡ self.now.engine }
    {
        &self.engine
    }

    /// The words with which the object begins.
    pub fn opening(&self) -> &[i64]
        ensures { result.now ≡ self.now.opening }
    {
        self.opening.words.as_slice()
    }

    /// Whether the values with which the object begins were carried over.
    pub fn carried(&self) -> bool
        ensures { result ≡ self.now.carried }
    {
        self.opening.carried
    }

    /// How many processes there are.
    pub fn processes(&self) -> usize
        ensures { result ≡ self.now.processes }
    {
        self.processes
    }

    /// The calls that were submitted before any turn.
    pub fn scripts(&self) -> &[Submission]
        ensures { map submission_of result.now ≡ self.now.scripts }
    {
        self.scripts.as_slice()
    }

    /// The number that the desk's seats have, by which they are told from those of other desks.
    pub fn tag(&self) -> u64
        ensures { result ≡ self.now.tag }
    {
        self.tag
    }
}
