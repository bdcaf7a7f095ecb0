//! Load-linked and store-conditional over a root, with n + 1 blocks of words and n announcements.

ghost use Rattle.std.specs.Prelude.{◌≡◌, ◌≢◌, ◌+◌, ◌*◌, ◌^◌, ◌<◌, ◌≤◌, ◌↔◌, IfOk, length, take, replicate, false, ◌⊎◌};
ghost use Rattle.std.specs.List.{range_with_len};
ghost use Rattle.std.specs.Borrow.{sem};
ghost use Rattle.ll_cell.specs.Cell.{fresh};
ghost use Rattle.ll_cell.specs.Form.{whole, row_words};
ghost use Rattle.ll_cell.specs.declared.fault.CellFault as CellFault;
ghost use Rattle.ob_interface.specs.Processes.{most_processes};

use crate::fault::CellFault;
use crate::form::Form;
use crate::table::Table;
use ob_interface::MOST_PROCESSES;
use std::alloc::{AllocError, Global};
use std::marker::Model;

/// What n processes share. The root is the number of a block. Each process owns one block, and no
/// two own the same or the root; so a block is handed on by its number and never copied. The words
/// of all blocks lie in one table, block after block.
#[derive(Drop)]
pub struct Shared {
    root: usize,
    /// The number of the block that each process owns.
    own: Vec<usize>,
    /// Whether nobody stored at the root since the process's last load-linked.
    linked: Vec<bool>,
    blocks: Table,
    /// One block, in which each process's announcement is a part.
    announcements: Table,
    /// How many words an announcement has.
    announce: usize,
}

impl Model for Shared {
    ghost use Rattle.ll_cell.specs.Memory.{Memory, IsMemory, memory_view};

    ghost Value = { Memory };

    ghost view = { λ s. memory_view s.root s.own.items s.linked.items s.blocks s.announcements s.announce };

    ghost invariant = { λ s. IsMemory s.root s.own.items s.blocks s.announcements s.announce };
}

impl Shared {
    ghost use Rattle.ll_cell.specs.Cell.{fresh, own_of, is_linked, block_of, announcement_of, word_at, link, exchange, copy_own, write_own, announce_word};
    ghost use Rattle.ll_cell.specs.Form.{whole, kept_words, IsBit, MayStand};
    ghost use Rattle.ll_cell.specs.Memory.{with_cell, MayAnnounce};
    ghost use Rattle.ll_cell.specs.Lending.{LendsOwnWords};
    ghost use Rattle.ll_cell.specs.declared.fault.CellFault as CellFault;

    /// The cell of n processes, with so many words in each block and in each announcement, all 0.
    /// Block 0 is the root, process p owns block p + 1, and no process is linked.
    pub fn new(alloc: Global, n: usize, words: usize, announce: usize) -> Result<Self, CellFault>
        ensures cell { IfOk result (λ s. s ≡ record { cell = fresh n words announce; form = whole words }) }
        ensures processes { (result ≡ Err CellFault.Processes) ↔ ((n ≡ 0) ⊎ (most_processes < n)) }
    {
        if n == 0 || n > MOST_PROCESSES {
            return Err(CellFault::Processes);
        }
        let Some(all) = n.checked_mul(announce) else {
            return Err(CellFault::NoMemory);
        };
        assembled(alloc, n, announce, undivided(words), undivided(all))
    }

    /// The cell that `new` makes with `head + n * part` words in each block, where the last word of
    /// each part of a block, and of each announcement, is a bit.
    pub fn packed(
        alloc: Global,
        n: usize,
        head: usize,
        part: usize,
        announce: usize,
    ) -> Result<Self, CellFault>
        requires part { 0 < part }
        requires announce { 0 < announce }
        ensures cell { IfOk result (λ s. s ≡ record { cell = fresh n (head + n * part) announce; form = record { head = head; parts = n; part = part } }) }
        ensures processes { (result ≡ Err CellFault.Processes) ↔ ((n ≡ 0) ⊎ (most_processes < n)) }
    {
        if n == 0 || n > MOST_PROCESSES {
            return Err(CellFault::Processes);
        }
        let Some(_) = n.checked_mul(announce) else {
            return Err(CellFault::NoMemory);
        };
        let blocks = Form {
            head,
            parts: n,
            part,
        };
        let announcements = Form {
            head: 0,
            parts: n,
            part: announce,
        };
        assembled(alloc, n, announce, blocks, announcements)
    }

    /// How many words of all blocks are no bits.
    pub fn table_words(&self) -> usize
        ensures { result ≡ kept_words self.now.form * length self.now.cell.blocks }
    {
        self.blocks.words()
    }

    /// The root's block number; p is linked from now on.
    pub fn load_linked(&mut self, p: usize) -> usize
        requires { p < length self.old.cell.linked }
        ensures block { result ≡ self.old.cell.root }
        ensures linked { self.new ≡ with_cell self.old (link self.old.cell p) }
    {
        let block = self.root;
        self.linked[p] = true;
        block
    }

    /// Whether p is linked: nobody stored at the root since p's last load-linked.
    pub fn validate(&self, p: usize) -> bool
        requires { p < length self.now.cell.linked }
        ensures { result ≡ is_linked self.now.cell p }
    {
        self.linked[p]
    }

    /// Where p is linked, p's own block becomes the root, the old root becomes p's own block, and
    /// all links are cleared. Else nothing changes.
    pub fn store_conditional(&mut self, p: usize) -> bool
        requires links { p < length self.old.cell.linked }
        requires owns { p < length self.old.cell.own }
        ensures done { result ≡ is_linked self.old.cell p }
        ensures exchanged { self.new ≡ with_cell self.old (exchange self.old.cell p) }
    {
        if !self.linked[p] {
            return false;
        }
        let old = self.root;
        self.root = self.own[p];
        self.own[p] = old;
        clear(&mut self.linked);
        true
    }

    /// The number of the root's block.
    pub fn root(&self) -> usize
        ensures { result ≡ self.now.cell.root }
    {
        self.root
    }

    /// The number of the block that p owns.
    pub fn own_block(&self, p: usize) -> usize
        requires { p < length self.now.cell.own }
        ensures { result ≡ own_of self.now.cell p }
    {
        self.own[p]
    }

    /// Word i of a block, whoever owns it.
    pub fn read_word(&self, block: usize, i: usize) -> i64
        requires block { block < length self.now.cell.blocks }
        requires word { i < length (block_of self.now.cell block) }
        ensures { result ≡ word_at (block_of self.now.cell block) i }
    {
        self.blocks.word(block, i)
    }

    /// Word i of part q of a block, whoever owns it.
    #[inline]
    pub fn read_part(&self, block: usize, q: usize, i: usize) -> i64
        requires block { block < length self.now.cell.blocks }
        requires part { i < self.now.form.part }
        requires word { self.now.form.head + q * self.now.form.part + i < length (block_of self.now.cell block) }
        ensures { result ≡ word_at (block_of self.now.cell block) (self.now.form.head + q * self.now.form.part + i) }
    {
        self.blocks.part_word(block, q, i)
    }

    /// Writes word i of p's own block.
    pub fn write_word(&mut self, p: usize, i: usize, w: i64)
        requires owns { p < length self.old.cell.own }
        requires block { own_of self.old.cell p < length self.old.cell.blocks }
        requires word { i < length (block_of self.old.cell (own_of self.old.cell p)) }
        requires bit { MayStand self.old.form i w }
        ensures { self.new ≡ with_cell self.old (write_own self.old.cell p i w) }
    {
        let own = self.own[p];
        self.blocks.write(own, i, w);
    }

    /// Writes word i of part q of p's own block.
    #[inline]
    pub fn write_part(&mut self, p: usize, q: usize, i: usize, w: i64)
        requires owns { p < length self.old.cell.own }
        requires block { own_of self.old.cell p < length self.old.cell.blocks }
        requires part { i < self.old.form.part }
        requires word { self.old.form.head + q * self.old.form.part + i < length (block_of self.old.cell (own_of self.old.cell p)) }
        requires bit { i + 1 ≡ self.old.form.part → IsBit w }
        ensures { self.new ≡ with_cell self.old (write_own self.old.cell p (self.old.form.head + q * self.old.form.part + i) w) }
    {
        let own = self.own[p];
        self.blocks.write_part(own, q, i, w);
    }

    /// Copies so many words of a block into p's own, from word `first` on. None of them is a bit.
    pub fn copy_words(&mut self, p: usize, block: usize, first: usize, count: usize)
        requires owns { p < length self.old.cell.own }
        requires own { own_of self.old.cell p < length self.old.cell.blocks }
        requires block { block < length self.old.cell.blocks }
        requires words { first + count ≤ self.old.form.head }
        ensures { self.new ≡ with_cell self.old (copy_own self.old.cell p block first count) }
    {
        let own = self.own[p];
        self.blocks.copy_front(own, block, first, count);
    }

    /// Word i of p's announcement.
    pub fn read_announce(&self, p: usize, i: usize) -> i64
        requires process { p < length self.now.cell.announcements }
        requires word { i < length (announcement_of self.now.cell p) }
        ensures { result ≡ word_at (announcement_of self.now.cell p) i }
    {
        if self.announcements.has_parts() {
            return self.announcements.part_word(0, p, i);
        }
        self.announcements.word(0, p * self.announce + i)
    }

    /// Writes word i of p's announcement.
    pub fn write_announce(&mut self, p: usize, i: usize, w: i64)
        requires process { p < length self.old.cell.announcements }
        requires word { i < length (announcement_of self.old.cell p) }
        requires bit { MayAnnounce self.old p i w }
        ensures { self.new ≡ with_cell self.old (announce_word self.old.cell p i w) }
    {
        if self.announcements.has_parts() {
            self.announcements.write_part(0, p, i, w);
        } else {
            let place = p * self.announce + i;
            self.announcements.write(0, place, w);
        }
    }

    /// The first words of the root's block, which are no bits.
    pub fn root_words(&self, count: usize) -> &[i64]
        requires block { self.now.cell.root < length self.now.cell.blocks }
        requires words { count ≤ self.now.form.head }
        ensures { result.now ≡ take count (block_of self.now.cell self.now.cell.root) }
    {
        self.blocks.front(self.root, count)
    }

    /// The first words of a block, which are no bits.
    pub fn block_words(&self, block: usize, count: usize) -> &[i64]
        requires block { block < length self.now.cell.blocks }
        requires words { count ≤ self.now.form.head }
        ensures { result.now ≡ take count (block_of self.now.cell block) }
    {
        self.blocks.front(block, count)
    }

    /// The first words of p's own block, which are no bits, lent to be written; the rest of the
    /// cell stays.
    pub fn own_words(&mut self, p: usize, count: usize) -> &mut [i64]
        requires owns { p < length self.old.cell.own }
        requires block { own_of self.old.cell p < length self.old.cell.blocks }
        requires words { count ≤ self.old.form.head }
        ensures* writes_back { sem 𝓛 (LendsOwnWords self.entry p result) }
        ensures value { result.now ≡ take count (block_of self.old.cell (own_of self.old.cell p)) }
    {
        let own = self.own[p];
        self.blocks.front_mut(own, count)
    }
}

/// A block without parts.
fn undivided(words: usize) -> Form
    ensures { result ≡ whole words }
{
    Form {
        head: words,
        parts: 0,
        part: 1,
    }
}

/// The cell of n processes with blocks and announcements of these forms, all 0.
fn assembled(
    alloc: Global,
    n: usize,
    announce: usize,
    blocks: Form,
    announcements: Form,
) -> Result<Shared, CellFault>
    requires few { n ≤ 16 }
    requires parts { blocks.parts ≤ 16 }
    requires part { 0 < blocks.part }
    requires announced_parts { announcements.parts ≤ 16 }
    requires announced_part { 0 < announcements.part }
    requires words { row_words announcements ≡ n * announce }
    requires fits { n * announce < 2 ^ 64 }
    requires flagged { 0 < announcements.parts → (0 < blocks.parts) × (announcements.head ≡ 0) × (announcements.part ≡ announce) }
    ensures cell { IfOk result (λ s. s ≡ record { cell = fresh n (row_words blocks) announce; form = blocks }) }
    ensures fault { result ≢ Err CellFault.Processes }
{
    let own = numbers(alloc, n)?;
    let linked = vec![in alloc; false; n]?;
    let blocks = Table::new(alloc, n + 1, blocks)?;
    let announcements = Table::new(alloc, 1, announcements)?;
    Ok(Shared {
        root: 0,
        own,
        linked,
        blocks,
        announcements,
        announce,
    })
}

/// The numbers 1 to n.
fn numbers(alloc: Global, n: usize) -> Result<Vec<usize>, AllocError>
    requires { n ≤ most_processes }
    ensures { IfOk result (λ v. v.items ≡ range_with_len 1 n) }
{
    let mut v = Vec::new(alloc);
    for p in 0..n {
        v.push(p + 1)?;
    }
    Ok(v)
}

fn clear(linked: &mut [bool])
    ensures { linked.new ≡ replicate (length linked.old) false }
{
    linked.fill(false);
}
