//! Blocks of one form, whose words lie side by side.

ghost use Rattle.std.specs.Prelude.{◌≡◌, ◌≢◌, ◌↔◌, IsTrue, ℕ, ◌+◌, ◌*◌, ◌<◌, ◌≤◌, IfOk, length, take, drop, replicate, pos};
ghost use Rattle.std.specs.Borrow.{sem};
ghost use Rattle.std.specs.Int.{bit_at};
ghost use Rattle.ll_cell.specs.Cell.{word_at};
ghost use Rattle.ll_cell.specs.Form.{row_words, kept_words, place_of, IsBit, IsPlace, MayStand, MayStandAt};

use crate::fault::CellFault;
use crate::form::{Form, Place};
use std::alloc::Global;
use std::marker::Model;

/// Blocks of one form. The words that are no bits lie in one list, block after block; the bits of
/// a block are the bits of one number.
#[derive(Drop)]
pub struct Table {
    form: Form,
    /// How many words of a block are no bits.
    stride: usize,
    words: Vec<i64>,
    bits: Vec<u16>,
}

impl Model for Table {
    ghost use Rattle.ll_cell.specs.Rows.{Rows, rows_kept, IsTable};

    ghost Value = { Rows };

    ghost view = { λ t. record { form = t.form; rows = rows_kept t.form t.words.items t.bits.items } };

    ghost invariant = { λ t. IsTable t.form t.stride t.words.items t.bits.items };
}

impl Table {
    ghost use Rattle.ll_cell.specs.Rows.{row_of, with_copied, with_word};
    ghost use Rattle.ll_cell.specs.LendingRows.{LendsFront};

    /// So many blocks of 0s.
    pub fn new(alloc: Global, rows: usize, form: Form) -> Result<Self, CellFault>
        requires few { form.parts ≤ 16 }
        requires part { 0 < form.part }
        ensures form { IfOk result (λ t. t.form ≡ form) }
        ensures rows { IfOk result (λ t. t.rows ≡ replicate rows (replicate (row_words form) (pos 0))) }
        ensures fault { result ≢ Err CellFault.Processes }
    {
        let Some(stride) = form.kept() else {
            return Err(CellFault::NoMemory);
        };
        let Some(count) = stride.checked_mul(rows) else {
            return Err(CellFault::NoMemory);
        };
        let words = vec![in alloc; 0; count]?;
        let bits = vec![in alloc; 0; rows]?;
        Ok(Table {
            form,
            stride,
            words,
            bits,
        })
    }

    /// How many words are kept that are no bits.
    pub fn words(&self) -> usize
        ensures { result ≡ kept_words self.now.form * length self.now.rows }
    {
        self.words.len()
    }

    /// Whether its blocks have parts.
    #[inline]
    pub fn has_parts(&self) -> bool
        ensures { IsTrue result ↔ 0 < self.now.form.parts }
    {
        self.form.parts > 0
    }

    /// Word i of a block.
    #[inline]
    pub fn word(&self, row: usize, i: usize) -> i64
        requires row { row < length self.now.rows }
        requires word { i < length (row_of self.now row) }
        ensures { result ≡ word_at (row_of self.now row) i }
    {
        self.kept(row, self.form.place(i))
    }

    /// Word i of part q of a block.
    #[inline]
    pub fn part_word(&self, row: usize, q: usize, i: usize) -> i64
        requires row { row < length self.now.rows }
        requires part { i < self.now.form.part }
        requires word { self.now.form.head + q * self.now.form.part + i < length (row_of self.now row) }
        ensures { result ≡ word_at (row_of self.now row) (self.now.form.head + q * self.now.form.part + i) }
    {
        self.kept(row, self.form.place_in(q, i))
    }

    /// Writes word i of a block.
    #[inline]
    pub fn write(&mut self, row: usize, i: usize, w: i64)
        requires row { row < length self.old.rows }
        requires word { i < length (row_of self.old row) }
        requires bit { MayStand self.old.form i w }
        ensures { self.new ≡ with_word self.old row i w }
    {
        let place = self.form.place(i);
        self.keep(row, place, w);
    }

    /// Writes word i of part q of a block.
    #[inline]
    pub fn write_part(&mut self, row: usize, q: usize, i: usize, w: i64)
        requires row { row < length self.old.rows }
        requires part { i < self.old.form.part }
        requires word { self.old.form.head + q * self.old.form.part + i < length (row_of self.old row) }
        requires bit { i + 1 ≡ self.old.form.part → IsBit w }
        ensures { self.new ≡ with_word self.old row (self.old.form.head + q * self.old.form.part + i) w }
    {
        let place = self.form.place_in(q, i);
        self.keep(row, place, w);
    }

    /// What is kept at a place of a block.
    #[inline(always)]
    fn kept(&self, row: usize, place: Place) -> i64
        requires row { row < length self.now.rows }
        requires place { IsPlace self.now.form place }
        ensures { (i : ℕ) → i < length (row_of self.now row) → place_of self.now.form i ≡ place → result ≡ word_at (row_of self.now row) i }
    {
        match place {
            Place::Word(k) => self.words[row * self.stride + k],
            Place::Bit(q) => i64::from(self.bits[row] >> q & 1),
        }
    }

    /// Keeps w at a place of a block.
    #[inline(always)]
    fn keep(&mut self, row: usize, place: Place, w: i64)
        requires row { row < length self.old.rows }
        requires place { IsPlace self.old.form place }
        requires bit { MayStandAt place w }
        ensures { (i : ℕ) → i < length (row_of self.old row) → place_of self.old.form i ≡ place → self.new ≡ with_word self.old row i w }
    {
        match place {
            Place::Word(k) => {
                self.words[row * self.stride + k] = w;
            }
            Place::Bit(q) => {
                let bits = self.bits[row];
                self.bits[row] = with_bit(bits, q, w);
            }
        }
    }

    /// Copies so many words of block b into a block, from word `first` on. None of them is a bit.
    pub fn copy_front(&mut self, row: usize, b: usize, first: usize, count: usize)
        requires row { row < length self.old.rows }
        requires source { b < length self.old.rows }
        requires words { first + count ≤ self.old.form.head }
        ensures { self.new ≡ with_copied self.old row b first count }
    {
        let source = b * self.stride + first;
        let place = row * self.stride + first;
        self.words.copy_within(source..source + count, place);
    }

    /// The first words of a block.
    pub fn front(&self, row: usize, count: usize) -> &[i64]
        requires row { row < length self.now.rows }
        requires words { count ≤ self.now.form.head }
        ensures { result.now ≡ take count (row_of self.now row) }
    {
        let first = row * self.stride;
        run(&self.words, first, count)
    }

    /// The first words of a block, lent to be written.
    pub fn front_mut(&mut self, row: usize, count: usize) -> &mut [i64]
        requires row { row < length self.old.rows }
        requires words { count ≤ self.old.form.head }
        ensures* writes_back { sem 𝓛 (LendsFront self.entry row result) }
        ensures value { result.now ≡ take count (row_of self.old row) }
    {
        let first = row * self.stride;
        self.words.slice_mut(first..first + count)
    }
}

/// So many words from the first one on.
fn run(words: &[i64], first: usize, count: usize) -> &[i64]
    requires { first + count ≤ length words.now }
    ensures { result.now ≡ take count (drop first words.now) }
{
    &words[first..first + count]
}

/// The bits with bit q set to w.
fn with_bit(bits: u16, q: usize, w: i64) -> u16
    requires place { q < 16 }
    requires bit { IsBit w }
    ensures set { pos (bit_at result q) ≡ w }
    ensures others { (j : ℕ) → j < 16 → j ≢ q → bit_at result j ≡ bit_at bits j }
{
    if w == 0 {
        bits & !(1 << q)
    } else {
        bits | 1 << q
    }
}
