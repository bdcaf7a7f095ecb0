//! Steps of a body by leaps: where an instruction brings what only the next one takes, they are one move.

ghost use Rattle.std.specs.Prelude.{◌≡◌, ◌+◌, ◌-◌, ◌<◌, ◌≤◌, ◌↔◌, ◌∷◌, ◌++◌, [], ℕ, false, IfSome, IsTrue, List, length, MatchBool, Some, slice_get, take, ℤ};
ghost use Rattle.ob_code_machine.specs.Body.{ShowsOnAnyBlock, at, shown, steps};
ghost use Rattle.ob_code_machine.specs.Leaps.{AreMade, Assigns, Brings, Goes, IsComputed, IsLeap, IsMadeWith, IsOperator, MakesBoth, MakesBothOnAnyBlock, PutsIf, behind_both};
ghost use Rattle.ob_code_machine.specs.Machine as Machine;
ghost use Rattle.ob_code_words.specs.declared.instr.Instr.TheVariants as Instrs;
ghost use Rattle.ob_code_machine.specs.declared.turn.BodyTurn.TheVariants as Answers;

use super::Body;
use crate::code::Code;
use crate::turn::BodyTurn;
use ob_code_words::effect::{
    Answer, local_word, of_one, of_two, push, push_local, put_at, word_at,
};
use ob_code_words::instr::Instr;
use ob_code_words::stack_operators::{Made, made_of_one, made_of_two};

impl Body {
    /// Steps of a body on a block, at most so many, up to the first behind which it doesn't go on: how many they are, and what the last
    /// one answers. It stands apart, so that what a step needs is at hand in the loop.
    #[inline(never)]
    pub fn run_on(&mut self, code: &Code, block: &mut [i64], most: u64) -> (u64, BodyTurn)
        ensures few { result.0 ≤ most }
        ensures some { 0 < most → 0 < result.0 }
        ensures on { (j : ℕ) → j < result.0 → (steps code.now.instructions j self.old block.old).turn ≡ Answers.On }
        ensures taken { record { turn = result.1; run = self.new; block = block.new } ≡ steps code.now.instructions result.0 self.old block.old }
        ensures all { record { turn = result.1; run = self.new; block = block.new } ≡ steps code.now.instructions most self.old block.old }
    {
        if most == 0 {
            return (0, BodyTurn::On);
        }
        if self.is_over {
            return (1, BodyTurn::Stuck);
        }
        let mut left = most;
        while left >= 3 {
            let (turn, taken) = self.leap(code, block);
            left -= taken;
            match turn {
                BodyTurn::On => {}
                turn => return (most - left, turn),
            }
        }
        let (taken, turn) = self.walk(code, block, left);
        (most - left + taken, turn)
    }

    /// The same, each step by itself.
    fn walk(&mut self, code: &Code, block: &mut [i64], most: u64) -> (u64, BodyTurn)
        ensures few { result.0 ≤ most }
        ensures some { 0 < most → 0 < result.0 }
        ensures on { (j : ℕ) → j < result.0 → (steps code.now.instructions j self.old block.old).turn ≡ Answers.On }
        ensures taken { record { turn = result.1; run = self.new; block = block.new } ≡ steps code.now.instructions result.0 self.old block.old }
        ensures all { record { turn = result.1; run = self.new; block = block.new } ≡ steps code.now.instructions most self.old block.old }
    {
        for count in 0..most {
            match self.step(code, block) {
                BodyTurn::On => {}
                turn => return (count + 1, turn),
            }
        }
        (most, BodyTurn::On)
    }

    /// One step, or some that are one move: what the last of them answers, and how many they were.
    #[inline(always)]
    fn leap(&mut self, code: &Code, block: &mut [i64]) -> (BodyTurn, u64)
        requires works { self.old.is_over ≡ false }
        ensures { IsLeap code.now.instructions result.0 result.1 self.old block.old self.new block.new }
    {
        let Some(instr) = code.instruction(self.pc) else {
            return (BodyTurn::Stuck, 1);
        };
        match instr {
            Instr::Put => (self.put(block), 1),
            Instr::Literal { value } => self.leap_from_literal(code, value, block),
            Instr::Add => self.leap_from_operator(code, Instr::Add, block),
            Instr::Subtract => self.leap_from_operator(code, Instr::Subtract, block),
            Instr::Multiply => self.leap_from_operator(code, Instr::Multiply, block),
            Instr::Equal => self.leap_from_comparison(code, Instr::Equal, block),
            Instr::NotEqual => self.leap_from_comparison(code, Instr::NotEqual, block),
            Instr::Less => self.leap_from_comparison(code, Instr::Less, block),
            Instr::LessOrEqual => self.leap_from_comparison(code, Instr::LessOrEqual, block),
            Instr::Greater => self.leap_from_comparison(code, Instr::Greater, block),
            Instr::GreaterOrEqual => self.leap_from_comparison(code, Instr::GreaterOrEqual, block),
            Instr::Local { word } => self.leap_from_local(code, word, block),
            Instr::Global { word } => self.leap_from_global(code, word, block),
            Instr::Field { offset } => self.leap_from_field(code, offset, block),
            Instr::Index {
                length,
                element_words,
            } => self.leap_from_index(code, length, element_words, block),
            _ => (self.act(instr, block), 1),
        }
    }

    /// An instruction that makes a word of two; where PUT stands behind it, both.
    #[inline(always)]
    fn leap_from_operator(
        &mut self,
        code: &Code,
        instr: Instr,
        block: &mut [i64],
    ) -> (BodyTurn, u64)
        requires works { self.old.is_over ≡ false }
        requires operator { IsOperator instr }
        requires here { slice_get code.now.instructions self.old.body.pc ≡ Some instr }
        requires within { self.old.body.pc < 65535 }
        ensures { IsLeap code.now.instructions result.0 result.1 self.old block.old self.new block.new }
    {
        if self.is_put_ahead(code, 1) && self.assigns(instr, block) {
            return (BodyTurn::On, 2);
        }
        (self.combine(instr), 1)
    }

    /// A comparison; where JF stands behind it, both, and the turn that is taken behind JF.
    #[inline(always)]
    fn leap_from_comparison(&mut self, code: &Code, instr: Instr, block: &[i64]) -> (BodyTurn, u64)
        requires works { self.old.is_over ≡ false }
        requires operator { IsOperator instr }
        requires here { slice_get code.now.instructions self.old.body.pc ≡ Some instr }
        requires within { self.old.body.pc < 65535 }
        ensures { IsLeap code.now.instructions result.0 result.1 self.old block.now self.new block.now }
    {
        if !self.is_condition(code, instr) {
            return (self.combine(instr), 1);
        }
        if self.takes_turn(code) {
            return (BodyTurn::On, 3);
        }
        (BodyTurn::On, 2)
    }

    /// LIT; where an operator stands behind it, both, and PUT behind that.
    #[inline(always)]
    fn leap_from_literal(&mut self, code: &Code, value: i32, block: &mut [i64]) -> (BodyTurn, u64)
        requires works { self.old.is_over ≡ false }
        requires here { slice_get code.now.instructions self.old.body.pc ≡ Some (Instrs.Literal value) }
        requires within { self.old.body.pc < 65535 }
        ensures { IsLeap code.now.instructions result.0 result.1 self.old block.old self.new block.new }
    {
        let Some(word) = self.made_with(code, value) else {
            return (self.push_literal(value), 1);
        };
        if self.puts_made(code, word, block) {
            return (BodyTurn::On, 3);
        }
        self.keep_made(word);
        (BodyTurn::On, 2)
    }

    /// LOC; where GET stands behind it, both.
    #[tactic(auto, using(crate::proofs::Leaps::leap_if))]
    #[inline(always)]
    fn leap_from_local(&mut self, code: &Code, word: u16, block: &[i64]) -> (BodyTurn, u64)
        requires works { self.old.is_over ≡ false }
        requires here { slice_get code.now.instructions self.old.body.pc ≡ Some (Instrs.Local word) }
        requires within { self.old.body.pc < 65535 }
        ensures { IsLeap code.now.instructions result.0 result.1 self.old block.now self.new block.now }
    {
        if self.is_got(code) && self.get_local(word, block) {
            return (BodyTurn::On, 2);
        }
        (self.push_local(word, block), 1)
    }

    /// GLOB; where GET stands behind it, both.
    #[tactic(auto, using(crate::proofs::Leaps::leap_if))]
    #[inline(always)]
    fn leap_from_global(&mut self, code: &Code, word: u16, block: &[i64]) -> (BodyTurn, u64)
        requires works { self.old.is_over ≡ false }
        requires here { slice_get code.now.instructions self.old.body.pc ≡ Some (Instrs.Global word) }
        requires within { self.old.body.pc < 65535 }
        ensures { IsLeap code.now.instructions result.0 result.1 self.old block.now self.new block.now }
    {
        if self.is_got(code) && self.get_global(word, block) {
            return (BodyTurn::On, 2);
        }
        (self.push_global(word), 1)
    }

    /// FLD; where GET stands behind it, both.
    #[tactic(auto, using(crate::proofs::Leaps::leap_if))]
    #[inline(always)]
    fn leap_from_field(&mut self, code: &Code, offset: u16, block: &[i64]) -> (BodyTurn, u64)
        requires works { self.old.is_over ≡ false }
        requires here { slice_get code.now.instructions self.old.body.pc ≡ Some (Instrs.Field offset) }
        requires within { self.old.body.pc < 65535 }
        ensures { IsLeap code.now.instructions result.0 result.1 self.old block.now self.new block.now }
    {
        if self.is_got(code) && self.get_field(offset, block) {
            return (BodyTurn::On, 2);
        }
        (self.go_to_field(offset), 1)
    }

    /// IDX; where GET stands behind it, both.
    #[tactic(auto, using(crate::proofs::Leaps::leap_if))]
    #[inline(always)]
    fn leap_from_index(
        &mut self,
        code: &Code,
        length: u16,
        element_words: u16,
        block: &[i64],
    ) -> (BodyTurn, u64)
        requires works { self.old.is_over ≡ false }
        requires here { slice_get code.now.instructions self.old.body.pc ≡ Some (Instrs.Index length element_words) }
        requires within { self.old.body.pc < 65535 }
        ensures { IsLeap code.now.instructions result.0 result.1 self.old block.now self.new block.now }
    {
        if self.is_got(code) && self.get_element(length, element_words, block) {
            return (BodyTurn::On, 2);
        }
        (
            self.combine(Instr::Index {
                length,
                element_words,
            }),
            1,
        )
    }

    /// Whether the next instruction but one is GET.
    #[inline(always)]
    fn is_got(&self, code: &Code) -> bool
        requires { self.now.body.pc < 65535 }
        ensures { IsTrue result → slice_get code.now.instructions (self.now.body.pc + 1) ≡ Some Instrs.Get }
    {
        match code.instruction(self.pc + 1) {
            Some(Instr::Get) => true,
            _ => false,
        }
    }

    /// Whether PUT stands so many instructions ahead.
    #[inline(always)]
    fn is_put_ahead(&self, code: &Code, ahead: usize) -> bool
        requires within { self.now.body.pc < 65535 }
        requires few { ahead ≤ 2 }
        ensures { IsTrue result → slice_get code.now.instructions (self.now.body.pc + ahead) ≡ Some Instrs.Put }
    {
        match code.instruction(self.pc + ahead) {
            Some(Instr::Put) => true,
            _ => false,
        }
    }

    /// The word that the next instruction makes of the word on top and a number, where there is room for that number.
    #[inline(always)]
    fn made_with(&self, code: &Code, value: i32) -> Option<i64>
        requires { self.now.body.pc < 65535 }
        ensures { IfSome result (IsMadeWith code.now.instructions self.now value) }
    {
        let Some(second) = code.instruction(self.pc + 1) else {
            return None;
        };
        if self.stack.room() == 0 {
            return None;
        }
        let Some(x) = self.stack.top() else {
            return None;
        };
        match made_of_two(second, x, i64::from(value)) {
            Made::Word(word) => Some(word),
            _ => None,
        }
    }

    /// Puts a word at the address of this height, and goes on so many instructions behind, where there is such an address.
    #[inline(always)]
    fn puts(&mut self, height: usize, behind: usize, word: i64, block: &mut [i64]) -> bool
        requires within { self.old.body.pc < 65535 }
        requires height { height < length self.old.body.stack }
        requires few { behind ≤ 3 }
        ensures { PutsIf result height behind word self.old block.old self.new block.new }
    {
        let address = self.stack.word(height);
        if !put_at(block, &mut self.stack, height, address, word) {
            return false;
        }
        self.pc += behind;
        true
    }

    /// Puts the word that was made of the one on top, where PUT stands behind.
    #[inline(always)]
    fn puts_made(&mut self, code: &Code, word: i64, block: &mut [i64]) -> bool
        requires { self.old.body.pc < 65535 }
        ensures puts { PutsIf result (length self.old.body.stack - 2) 3 word self.old block.old self.new block.new }
        ensures high { IsTrue result → 2 ≤ length self.old.body.stack }
        ensures there { IsTrue result → slice_get code.now.instructions (self.old.body.pc + 2) ≡ Some Instrs.Put }
    {
        let height = self.stack.height();
        self.is_put_ahead(code, 2) && height >= 2 && self.puts(height - 2, 3, word, block)
    }

    /// Leaves the word that was made in place of the one on top.
    #[inline(always)]
    fn keep_made(&mut self, word: i64)
        requires some { 0 < length self.old.body.stack }
        requires within { self.old.body.pc < 65535 }
        ensures { self.new ≡ behind_both self.old (take (length self.old.body.stack - 1) self.old.body.stack ++ word ∷ []) }
    {
        self.stack.replace_top(word);
        self.pc += 2;
    }

    /// Puts what an operator makes of the two words on top.
    #[inline(always)]
    fn assigns(&mut self, instr: Instr, block: &mut [i64]) -> bool
        requires { self.old.body.pc < 65535 }
        ensures { MatchBool result (Assigns instr self.old block.old self.new block.new) ((self.new ≡ self.old) × (block.new ≡ block.old)) }
    {
        let Some((x, y)) = self.stack.two() else {
            return false;
        };
        let Made::Word(word) = made_of_two(instr, x, y) else {
            return false;
        };
        let height = self.stack.height();
        height >= 3 && self.puts(height - 3, 2, word, block)
    }

    /// One that makes a word of two, by itself.
    #[inline(always)]
    fn combine(&mut self, instr: Instr) -> BodyTurn
        requires operator { IsOperator instr }
        requires within { self.old.body.pc < 65535 }
        ensures { ShowsOnAnyBlock result self.old self.new (Machine.act self.old.reserve instr) }
    {
        match of_two(&mut self.stack, instr) {
            Answer::Done => {
                self.pc += 1;
                BodyTurn::On
            }
            Answer::Trap(number) => {
                self.is_over = true;
                BodyTurn::Trapped(number)
            }
            Answer::Stuck => BodyTurn::Stuck,
        }
    }

    /// LIT by itself.
    #[inline(always)]
    fn push_literal(&mut self, value: i32) -> BodyTurn
        requires { self.old.body.pc < 65535 }
        ensures { ShowsOnAnyBlock result self.old self.new (Machine.act self.old.reserve (Instrs.Literal value)) }
    {
        match push(&mut self.stack, i64::from(value)) {
            Answer::Done => {
                self.pc += 1;
                BodyTurn::On
            }
            _ => BodyTurn::Stuck,
        }
    }

    /// GLOB by itself.
    #[inline(always)]
    fn push_global(&mut self, word: u16) -> BodyTurn
        requires { self.old.body.pc < 65535 }
        ensures { ShowsOnAnyBlock result self.old self.new (Machine.act self.old.reserve (Instrs.Global word)) }
    {
        match push(&mut self.stack, i64::from(word)) {
            Answer::Done => {
                self.pc += 1;
                BodyTurn::On
            }
            _ => BodyTurn::Stuck,
        }
    }

    /// LOC by itself.
    #[inline(always)]
    fn push_local(&mut self, word: u16, block: &[i64]) -> BodyTurn
        requires { self.old.body.pc < 65535 }
        ensures { record { turn = result; run = self.new; block = block.now } ≡ shown self.old block.now (Machine.act self.old.reserve (Instrs.Local word) (at self.old block.now)) }
    {
        match push_local(block, &mut self.stack, self.fp, word) {
            Answer::Done => {
                self.pc += 1;
                BodyTurn::On
            }
            _ => BodyTurn::Stuck,
        }
    }

    /// FLD by itself.
    #[inline(always)]
    fn go_to_field(&mut self, offset: u16) -> BodyTurn
        requires { self.old.body.pc < 65535 }
        ensures { ShowsOnAnyBlock result self.old self.new (Machine.act self.old.reserve (Instrs.Field offset)) }
    {
        match of_one(&mut self.stack, Instr::Field { offset }) {
            Answer::Done => {
                self.pc += 1;
                BodyTurn::On
            }
            _ => BodyTurn::Stuck,
        }
    }

    /// Whether two words were compared and the jump behind was made.
    #[tactic(auto, using(crate::proofs::Leaps::made_if))]
    #[inline(always)]
    fn is_condition(&mut self, code: &Code, instr: Instr) -> bool
        requires works { self.old.is_over ≡ false }
        requires computed { IsComputed instr }
        requires here { slice_get code.now.instructions self.old.body.pc ≡ Some instr }
        requires within { self.old.body.pc < 65535 }
        ensures { (block : List ℤ) → MatchBool result (AreMade code.now.instructions self.old self.new block) (self.new ≡ self.old) }
    {
        match code.instruction(self.pc + 1) {
            Some(Instr::JumpIfFalse { target }) => self.test(instr, target),
            _ => false,
        }
    }

    /// Whether TURN stands at the body's place, and a turn was taken.
    #[inline(always)]
    fn takes_turn(&mut self, code: &Code) -> bool
        requires works { self.old.is_over ≡ false }
        ensures { (block : List ℤ) → MatchBool result (Goes code.now.instructions 1 self.old block self.new block) (self.new ≡ self.old) }
    {
        if self.turns == 0 {
            return false;
        }
        match code.instruction(self.pc) {
            Some(Instr::Turn) => {
                self.turns -= 1;
                self.pc += 1;
                true
            }
            _ => false,
        }
    }

    /// Puts a word on top and goes on behind two instructions, where there is room for it.
    #[inline(always)]
    fn bring(&mut self, word: i64) -> bool
        requires { self.old.body.pc < 65535 }
        ensures { Brings result word self.old self.new }
    {
        if self.stack.room() == 0 {
            return false;
        }
        self.stack.push(word);
        self.pc += 2;
        true
    }

    /// LOC and GET: the word of a variable of the frame.
    #[inline(always)]
    fn get_local(&mut self, word: u16, block: &[i64]) -> bool
        requires { self.old.body.pc < 65535 }
        ensures { MakesBoth result (Instrs.Local word) Instrs.Get self.old self.new block.now }
    {
        if self.stack.room() == 0 {
            return false;
        }
        match local_word(block, &self.stack, self.fp, word) {
            Some(value) => self.bring(value),
            None => false,
        }
    }

    /// GLOB and GET: the word of a variable of the block.
    #[inline(always)]
    fn get_global(&mut self, word: u16, block: &[i64]) -> bool
        requires { self.old.body.pc < 65535 }
        ensures { MakesBoth result (Instrs.Global word) Instrs.Get self.old self.new block.now }
    {
        let height = self.stack.height();
        match word_at(block, &self.stack, height, i64::from(word)) {
            Some(value) => self.bring(value),
            None => false,
        }
    }

    /// FLD and GET: the word of a field of the record at the address on top.
    #[tactic(auto, using(crate::proofs::Leaps::field_got))]
    #[inline(always)]
    fn get_field(&mut self, offset: u16, block: &[i64]) -> bool
        requires { self.old.body.pc < 65535 }
        ensures { MakesBoth result (Instrs.Field offset) Instrs.Get self.old self.new block.now }
    {
        let Some(x) = self.stack.top() else {
            return false;
        };
        let Made::Word(address) = made_of_one(Instr::Field { offset }, x) else {
            return false;
        };
        let below = self.stack.height() - 1;
        let Some(value) = word_at(block, &self.stack, below, address) else {
            return false;
        };
        self.stack.replace_top(value);
        self.pc += 2;
        true
    }

    /// IDX and GET: the word of an element.
    #[tactic(auto, using(crate::proofs::Leaps::element_got))]
    #[inline(always)]
    fn get_element(&mut self, length: u16, element_words: u16, block: &[i64]) -> bool
        requires { self.old.body.pc < 65535 }
        ensures { MakesBoth result (Instrs.Index length element_words) Instrs.Get self.old self.new block.now }
    {
        let Some((x, y)) = self.stack.two() else {
            return false;
        };
        let index = Instr::Index {
            length,
            element_words,
        };
        let Made::Word(address) = made_of_two(index, x, y) else {
            return false;
        };
        let below = self.stack.height() - 2;
        let Some(value) = word_at(block, &self.stack, below, address) else {
            return false;
        };
        self.stack.replace_two(value);
        self.pc += 2;
        true
    }

    /// A comparison and JF: where it doesn't hold, the body goes on at the target.
    #[tactic(auto, using(crate::proofs::Leaps::tested))]
    #[inline(always)]
    fn test(&mut self, first: Instr, target: u16) -> bool
        requires { self.old.body.pc < 65535 }
        ensures { MakesBothOnAnyBlock result first (Instrs.JumpIfFalse target) self.old self.new }
    {
        let Some((x, y)) = self.stack.two() else {
            return false;
        };
        let Made::Word(word) = made_of_two(first, x, y) else {
            return false;
        };
        let below = self.stack.height() - 2;
        self.stack.truncate(below);
        if word == 0 {
            self.pc = usize::from(target);
        } else {
            self.pc += 2;
        }
        true
    }
}
