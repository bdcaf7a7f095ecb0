//! How the words of a block are kept.

ghost use Rattle.std.specs.Prelude.{◌≡◌, ◌+◌, ◌-◌, ◌*◌, ◌^◌, ◌<◌, IfSome};
ghost use Rattle.ll_cell.specs.Form.{place_of, kept_words};

/// A block has `head` words and behind them `parts` parts of `part` words each. The last word of
/// each part is a bit.
#[derive(Clone, Copy, Debug, PartialEq, Eq)]
pub struct Form {
    pub head: usize,
    pub parts: usize,
    pub part: usize,
}

/// Where a word of a block is kept.
#[derive(Clone, Copy, Debug, PartialEq, Eq)]
pub enum Place {
    /// Among the words that are no bits, at this place from the block's first one on.
    Word(usize),
    /// Among the bits of the block.
    Bit(usize),
}

impl Form {
    /// Where word i is kept.
    #[inline]
    pub fn place(self, i: usize) -> Place
        requires { 0 < self.part }
        ensures { result ≡ place_of self i }
    {
        if i < self.head {
            return Place::Word(i);
        }
        let behind = i - self.head;
        // Nothing is divided for a word of part 0.
        if behind < self.part {
            return self.place_in(0, behind);
        }
        self.place_in(behind / self.part, behind % self.part)
    }

    /// Where word i of part q is kept.
    #[inline]
    pub fn place_in(self, q: usize, i: usize) -> Place
        requires word { i < self.part }
        requires fits { self.head + q * (self.part - 1) + i < 2 ^ 64 }
        ensures { result ≡ place_of self (self.head + q * self.part + i) }
    {
        if i + 1 == self.part {
            Place::Bit(q)
        } else {
            Place::Word(self.head + q * (self.part - 1) + i)
        }
    }

    /// How many words of a block are no bits, where that many fit a number.
    pub fn kept(self) -> Option<usize>
        requires { 0 < self.part }
        ensures { IfSome result (λ n. n ≡ kept_words self) }
    {
        (self.part - 1)
            .checked_mul(self.parts)?
            .checked_add(self.head)
    }
}
