//! The stack of a body: words in memory that is reserved once.

ghost use Rattle.std.specs.Prelude.{◌≡◌, ◌+◌, ◌-◌, ◌^◌, ◌<◌, ◌≤◌, [], ◌∷◌, ◌++◌, pos, length, take, replicate, slice_get, slice_set, slice_index_or, IfOk};
ghost use Rattle.ob_code_words.specs.StackWords.{two_on_top, with_words};

use std::alloc::{AllocError, Global};
use std::marker::Model;

/// The words below the height; what lies above is room.
#[derive(Drop)]
pub struct Stack {
    words: Vec<i64>,
    height: usize,
}

impl Model for Stack {
    ghost use Rattle.std.specs.Prelude.{◌≤◌, ◌<◌, ◌^◌, length, take};
    ghost use Rattle.ob_code_words.specs.StackWords.{StackWords};

    ghost Value = { StackWords };

    ghost view = { λ s. record { reserve = length s.words.items; words = take s.height s.words.items } };

    ghost invariant = { λ s. (s.height ≤ length s.words.items) × (length s.words.items < 2 ^ 32) };
}

impl Stack {
    /// An empty stack with room for so many words.
    pub fn new(alloc: Global, reserve: u32) -> Result<Stack, AllocError>
        ensures { IfOk result (λ s. s ≡ record { reserve = reserve; words = [] }) }
    {
        Ok(Stack {
            words: vec![in alloc; 0; reserve as usize]?,
            height: 0,
        })
    }

    /// How many more words there is room for.
    pub fn room(&self) -> usize
        ensures room { result + length self.now.words ≡ self.now.reserve }
        ensures small { self.now.reserve < 2 ^ 32 }
    {
        self.words.len() - self.height
    }

    /// How many words it holds.
    pub fn height(&self) -> usize
        ensures height { result ≡ length self.now.words }
        ensures within { result ≤ self.now.reserve }
    {
        self.height
    }

    /// The word on top.
    pub fn top(&self) -> Option<i64>
        ensures { result ≡ slice_get self.now.words (length self.now.words - 1) }
    {
        if self.height == 0 {
            return None;
        }
        Some(self.words[self.height - 1])
    }

    /// The two words on top, the upper one behind.
    pub fn two(&self) -> Option<(i64, i64)>
        ensures { result ≡ two_on_top self.now.words }
    {
        if self.height < 2 {
            return None;
        }
        Some((self.words[self.height - 2], self.words[self.height - 1]))
    }

    /// Puts a word on top.
    pub fn push(&mut self, word: i64)
        requires { length self.old.words < self.old.reserve }
        ensures { self.new ≡ with_words self.old (self.old.words ++ word ∷ []) }
    {
        self.words[self.height] = word;
        self.height += 1;
    }

    /// Puts so many zeros on top.
    pub fn push_zeros(&mut self, count: usize)
        requires { length self.old.words + count ≤ self.old.reserve }
        ensures { self.new ≡ with_words self.old (self.old.words ++ replicate count (pos 0)) }
    {
        let height = self.height + count;
        let above = self.words.slice_mut(self.height..height);
        above.fill(0);
        self.height = height;
    }

    /// Drops the words from a height on.
    pub fn truncate(&mut self, height: usize)
        requires { height ≤ length self.old.words }
        ensures { self.new ≡ with_words self.old (take height self.old.words) }
    {
        self.height = height;
    }

    /// Replaces the word on top.
    pub fn replace_top(&mut self, word: i64)
        requires { 0 < length self.old.words }
        ensures { self.new ≡ with_words self.old (take (length self.old.words - 1) self.old.words ++ word ∷ []) }
    {
        self.words[self.height - 1] = word;
    }

    /// Replaces the two words on top by one.
    pub fn replace_two(&mut self, word: i64)
        requires { 2 ≤ length self.old.words }
        ensures { self.new ≡ with_words self.old (take (length self.old.words - 2) self.old.words ++ word ∷ []) }
    {
        self.words[self.height - 2] = word;
        self.height -= 1;
    }

    /// The word at a height.
    pub fn word(&self, i: usize) -> i64
        requires { i < length self.now.words }
        ensures { result ≡ slice_index_or self.now.words i (pos 0) }
    {
        self.words[i]
    }

    /// Writes the word at a height.
    pub fn set(&mut self, i: usize, word: i64)
        requires { i < length self.old.words }
        ensures { self.new ≡ with_words self.old (slice_set self.old.words i word) }
    {
        self.words[i] = word;
    }
}
