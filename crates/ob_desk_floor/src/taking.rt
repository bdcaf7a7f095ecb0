//! Where seats take their turns.

use crate::seat::Seat;
use ob_interface::NoMemory;
use std::sync::Wait;
use wf_object::{Seen, StepOut};

/// A place at which those who hold seats take turns.
pub trait TakeTurn {
    ghost use Rattle.std.specs.Prelude.{◌≡◌, ◌-◌, ◌^◌, ◌<◌, IfOk, OnErr};
    ghost use Rattle.ob_desk_floor.specs.Seat.{HasTurned, Seat, seat_after};
    ghost use Rattle.wf_object.specs.View.{answer_in};
    ghost use Rattle.wf_records.specs.declared.records.Seen.TheVariants as Seen;
    ghost use Rattle.wf_table.specs.Object.{Halts};

    // What is so where it answers that a process is halted: of its seat as it stands behind that turn.
    ghost halts: { Self → Seat → Type 0 };

    /// A turn of the seat's process: one turn more, and exactly its answer. Nothing changes on the seat where memory runs out.
    fn turn<R: Wait>(&self, rt: &R, seat: &mut Seat) -> Result<StepOut, NoMemory>
        requires { seat.old.turns < 2 ^ 128 - 1 }
        ensures seat { IfOk result (λ out. seat.new ≡ seat_after (answer_in out) seat.old) }
        ensures halted { IfOk result (λ out. answer_in out ≡ Halts → halts self.now seat.new) }
        ensures no_seat { OnErr result (seat.new ≡ seat.old) };

    /// A turn of the seat's process, as `turn` takes it, whose answer, if there is one, is found on the seat.
    fn advance<R: Wait>(&self, rt: &R, seat: &mut Seat) -> Result<Seen, NoMemory>
        requires { seat.old.turns < 2 ^ 128 - 1 }
        ensures seat { IfOk result (λ seen. HasTurned seen seat.old seat.new) }
        ensures halted { IfOk result (λ seen. seen ≡ Seen.Halted → halts self.now seat.new) }
        ensures no_seat { OnErr result (seat.new ≡ seat.old) };
}
