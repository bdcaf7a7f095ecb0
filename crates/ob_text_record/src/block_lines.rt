//! The lines of announcements and of blocks.

ghost use Rattle.std.specs.Prelude.{◌≡◌, ◌+◌, ◌<◌, ◌≤◌, ◌^◌, ◌++◌, OnErr, OnOk, length, string_bytes};
ghost use Rattle.ll_cell.specs.Cell.{announcement_of, block_of};
ghost use Rattle.ob_text_record.specs.StateText.{announced_line, block_text, over_each, own_line, part_text, root_line, words_from};
ghost use Rattle.ob_text_words.specs.Appending.{GoesOn};
ghost use Rattle.wf_table.specs.Ranges.{IsShaped, IsSized};

use crate::named_words::push_word;
use ll_cell::Shared;
use ob_text_words::numbers::push_count;
use std::alloc::AllocError;
use wf_table::Sizes;

/// Appends a line for each announcement.
pub(crate) fn push_announcements(
    text: &mut String,
    z: Sizes,
    shared: &Shared,
) -> Result<(), AllocError>
    requires sized { IsSized z }
    requires shaped { IsShaped z shared.now.cell }
    ensures ok { OnOk result (string_bytes text.new ≡ string_bytes text.old ++ over_each (announced_line z shared.now.cell) z.processes) }
    ensures left { OnErr result (GoesOn (string_bytes text.old) (string_bytes text.new)) }
{
    for p in 0..z.processes {
        push_announcement(text, z, shared, p)?;
    }
    Ok(())
}

/// Appends the line of a process's announcement.
fn push_announcement(
    text: &mut String,
    z: Sizes,
    shared: &Shared,
    p: usize,
) -> Result<(), AllocError>
    requires sized { IsSized z }
    requires shaped { IsShaped z shared.now.cell }
    requires process { p < z.processes }
    ensures ok { OnOk result (string_bytes text.new ≡ string_bytes text.old ++ announced_line z shared.now.cell p) }
    ensures left { OnErr result (GoesOn (string_bytes text.old) (string_bytes text.new)) }
{
    text.push_str("A ")?;
    push_count(text, p as u64)?;
    push_announced(text, shared, p, 0, z.arguments)?;
    text.push_str(" |")?;
    push_announced(text, shared, p, z.arguments, 1)?;
    text.push_str("\n")
}

/// Appends so many words of a process's announcement, from a place on.
fn push_announced(
    text: &mut String,
    shared: &Shared,
    p: usize,
    first: usize,
    count: usize,
) -> Result<(), AllocError>
    requires process { p < length shared.now.cell.announcements }
    requires words { first + count ≤ length (announcement_of shared.now.cell p) }
    requires few { first + count < 2 ^ 64 }
    ensures ok { OnOk result (string_bytes text.new ≡ string_bytes text.old ++ words_from (announcement_of shared.now.cell p) first count) }
    ensures left { OnErr result (GoesOn (string_bytes text.old) (string_bytes text.new)) }
{
    for i in 0..count {
        push_word(text, shared.read_announce(p, first + i))?;
    }
    Ok(())
}

/// Appends the line of the root.
pub(crate) fn push_root(text: &mut String, z: Sizes, shared: &Shared) -> Result<(), AllocError>
    requires sized { IsSized z }
    requires shaped { IsShaped z shared.now.cell }
    ensures ok { OnOk result (string_bytes text.new ≡ string_bytes text.old ++ root_line z shared.now.cell) }
    ensures left { OnErr result (GoesOn (string_bytes text.old) (string_bytes text.new)) }
{
    let root = shared.root();
    text.push_str("R ")?;
    push_count(text, root as u64)?;
    push_block(text, z, shared, root)
}

/// Appends a line for each process's own block.
pub(crate) fn push_own_blocks(
    text: &mut String,
    z: Sizes,
    shared: &Shared,
) -> Result<(), AllocError>
    requires sized { IsSized z }
    requires shaped { IsShaped z shared.now.cell }
    ensures ok { OnOk result (string_bytes text.new ≡ string_bytes text.old ++ over_each (own_line z shared.now.cell) z.processes) }
    ensures left { OnErr result (GoesOn (string_bytes text.old) (string_bytes text.new)) }
{
    for p in 0..z.processes {
        push_own_block(text, z, shared, p)?;
    }
    Ok(())
}

/// Appends the line of a process's own block.
fn push_own_block(text: &mut String, z: Sizes, shared: &Shared, p: usize) -> Result<(), AllocError>
    requires sized { IsSized z }
    requires shaped { IsShaped z shared.now.cell }
    requires process { p < z.processes }
    ensures ok { OnOk result (string_bytes text.new ≡ string_bytes text.old ++ own_line z shared.now.cell p) }
    ensures left { OnErr result (GoesOn (string_bytes text.old) (string_bytes text.new)) }
{
    let block = shared.own_block(p);
    text.push_str("B ")?;
    push_count(text, p as u64)?;
    text.push_str(" ")?;
    push_count(text, block as u64)?;
    push_block(text, z, shared, block)
}

/// Appends the words of a block: its variables, and behind them the part of each process.
fn push_block(text: &mut String, z: Sizes, shared: &Shared, block: usize) -> Result<(), AllocError>
    requires sized { IsSized z }
    requires shaped { IsShaped z shared.now.cell }
    requires block { block < z.processes + 1 }
    ensures ok { OnOk result (string_bytes text.new ≡ string_bytes text.old ++ block_text z (block_of shared.now.cell block)) }
    ensures left { OnErr result (GoesOn (string_bytes text.old) (string_bytes text.new)) }
{
    text.push_str(" |")?;
    push_block_words(text, shared, block, 0, z.variables)?;
    push_parts(text, z, shared, block)?;
    text.push_str("\n")
}

/// Appends the part of each process in a block.
fn push_parts(text: &mut String, z: Sizes, shared: &Shared, block: usize) -> Result<(), AllocError>
    requires sized { IsSized z }
    requires shaped { IsShaped z shared.now.cell }
    requires block { block < z.processes + 1 }
    ensures ok { OnOk result (string_bytes text.new ≡ string_bytes text.old ++ over_each (part_text z (block_of shared.now.cell block)) z.processes) }
    ensures left { OnErr result (GoesOn (string_bytes text.old) (string_bytes text.new)) }
{
    for q in 0..z.processes {
        push_part(text, z, shared, block, q)?;
    }
    Ok(())
}

/// Appends the part of a process in a block.
fn push_part(
    text: &mut String,
    z: Sizes,
    shared: &Shared,
    block: usize,
    q: usize,
) -> Result<(), AllocError>
    requires sized { IsSized z }
    requires shaped { IsShaped z shared.now.cell }
    requires block { block < z.processes + 1 }
    requires process { q < z.processes }
    ensures ok { OnOk result (string_bytes text.new ≡ string_bytes text.old ++ part_text z (block_of shared.now.cell block) q) }
    ensures left { OnErr result (GoesOn (string_bytes text.old) (string_bytes text.new)) }
{
    let width = z.replies + 2;
    let first = z.variables + q * width;
    text.push_str(" |")?;
    push_block_words(text, shared, block, first, width)
}

/// Appends so many words of a block, from a place on.
fn push_block_words(
    text: &mut String,
    shared: &Shared,
    block: usize,
    first: usize,
    count: usize,
) -> Result<(), AllocError>
    requires block { block < length shared.now.cell.blocks }
    requires words { first + count ≤ length (block_of shared.now.cell block) }
    requires few { first + count < 2 ^ 64 }
    ensures ok { OnOk result (string_bytes text.new ≡ string_bytes text.old ++ words_from (block_of shared.now.cell block) first count) }
    ensures left { OnErr result (GoesOn (string_bytes text.old) (string_bytes text.new)) }
{
    for i in 0..count {
        push_word(text, shared.read_word(block, first + i))?;
    }
    Ok(())
}
