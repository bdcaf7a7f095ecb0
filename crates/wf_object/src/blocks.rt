//! Words of variables that are brought over or saved, many steps as one move.

ghost use Rattle.std.specs.Prelude.{◌≡◌, ◌+◌, ◌<◌, ◌≤◌};
ghost use Rattle.ll_cell.specs.Cell.{copy_own};
ghost use Rattle.wf_object.specs.Blocks.{behind_loads, behind_saves};
ghost use Rattle.wf_object.specs.Packed.{packed};
ghost use Rattle.wf_table.specs.Ranges.{IsInRange, IsShaped, IsSized};
ghost use Rattle.wf_table.specs.declared.process.Label.TheVariants.{Load, Save};

use crate::process::Process;
use ll_cell::Shared;
use wf_table::{Label, Sizes};

/// How many words of the variables stand from this one on, where at most so many are wanted.
#[inline(always)]
pub fn words_ahead(z: Sizes, first: usize, most: u64) -> usize
    ensures few { result ≤ most }
    ensures within { 0 < result → first + result ≤ z.variables }
    ensures some { 0 < most → first < z.variables → 0 < result }
{
    if first >= z.variables {
        return 0;
    }
    let left = z.variables - first;
    if most < left as u64 {
        most as usize
    } else {
        left
    }
}

/// LOAD and STORE of so many words of the variables.
pub fn load_words<R>(z: Sizes, shared: &mut Shared, q: &mut Process<R>, p: usize, words: usize)
    requires sized { IsSized z }
    requires shaped { IsShaped z shared.old.cell }
    requires packed { shared.old.form ≡ packed z }
    requires process { p < z.processes }
    requires in_range { IsInRange z q.old }
    requires label { q.old.label ≡ Load }
    requires some { 0 < words }
    requires within { q.old.registers.i + words ≤ z.variables }
    ensures cell { shared.new.cell ≡ copy_own shared.old.cell p q.old.registers.r q.old.registers.i words }
    ensures form { shared.new.form ≡ shared.old.form }
    ensures process { q.new ≡ behind_loads shared.old.cell words q.old }
{
    let from = q.registers.r;
    let first = q.registers.i;
    q.registers.acc = shared.read_word(from, first + (words - 1));
    q.registers.i = first + words;
    shared.copy_words(p, from, first, words);
}

/// SAVE of so many words.
pub fn save_words<R>(z: Sizes, shared: &Shared, q: &mut Process<R>, p: usize, words: usize)
    requires sized { IsSized z }
    requires shaped { IsShaped z shared.now.cell }
    requires packed { shared.now.form ≡ packed z }
    requires process { p < z.processes }
    requires in_range { IsInRange z q.old }
    requires label { q.old.label ≡ Save }
    requires within { q.old.registers.i + words ≤ z.variables }
    ensures { q.new ≡ behind_saves z shared.now.cell p words q.old }
{
    let first = q.registers.i;
    let end = first + words;
    let own = shared.block_words(shared.own_block(p), z.variables);
    q.save[first..end].copy_from_slice(&own[first..end]);
    q.registers.i = end;
    if end == z.variables {
        q.label = Label::Enter;
    }
}
