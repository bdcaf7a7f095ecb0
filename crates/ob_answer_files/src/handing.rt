//! Answers that are put into a room.

ghost use Rattle.std.specs.Prelude.{◌≡◌};
ghost use Rattle.ob_answer_files.specs.Handed.{IsFilled, IsMadeHanded, IsMadeHandedWhole};

use crate::answered::Answer;
use ob_interface::NoMemory;
use std::alloc::AllocError;

/// The status where there is no memory for an answer.
pub const NO_MEMORY: u32 = 4;

/// Puts an answer into a room, what goes to standard output first, and tells its status, the length of what goes to standard output, and
/// that of the whole. Where there is no memory for it, it says so, and the room stays as it was.
pub fn hand(
    made: Result<Answer, NoMemory>,
    room: &mut [u8],
    output: &mut usize,
    len: &mut usize,
) -> u32
    ensures { IsMadeHanded made result output.new len.new room.old room.new }
{
    let Ok(answer) = made else {
        return hand_none(output, len);
    };
    let mut text = answer.out;
    let out = text.len();
    match text.push_str(answer.err.as_str()) {
        Ok(()) => {
            *output = out;
            *len = fill(text.as_bytes(), room);
            u32::from(answer.status)
        }
        Err(AllocError) => hand_none(output, len),
    }
}

/// The same where nobody asks how much of it goes to standard output.
pub fn hand_whole(made: Result<Answer, NoMemory>, room: &mut [u8], len: &mut usize) -> u32
    ensures { IsMadeHandedWhole made result len.new room.old room.new }
{
    let mut output = 0;
    hand(made, room, &mut output, len)
}

/// Tells that there is no memory for an answer.
fn hand_none(output: &mut usize, len: &mut usize) -> u32
    ensures status { result ≡ 4 }
    ensures output { output.new ≡ 0 }
    ensures len { len.new ≡ 0 }
{
    *output = 0;
    *len = 0;
    NO_MEMORY
}

/// Puts as many bytes into a room as it has place for, and tells how many there are.
fn fill(from: &[u8], room: &mut [u8]) -> usize
    ensures { IsFilled from.now result room.old room.new }
{
    let count = from.len().min(room.len());
    room[..count].copy_from_slice(&from[..count]);
    from.len()
}
