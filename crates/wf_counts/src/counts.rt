//! How many calls of each process are made.

ghost use Rattle.std.specs.Prelude.{◌≡◌, ◌↔◌, ◌<◌, ◌≤◌, ◌^◌, ◌*◌, get_or, length, replicate, slice_get, IfOk, IsTrue};
ghost use Rattle.wf_counts.specs.Digits.{digits, one_more_at};

use crate::each::with_one_more;
use crate::number::{all_digits, digit_at, raised};
use ob_interface::NoMemory;
use std::alloc::Global;
use std::hash::{Hash, Hasher};
use std::marker::Model;

/// How many processes have their counts in one number at most.
const DIGITS: usize = 8;

/// How many calls of each process are made. Of eight processes and less, with up to 255 calls of each, no memory is taken.
#[derive(Drop)]
pub struct Counts {
    form: Form,
}

/// The counts of so many processes as the digits of a number, or each by itself.
#[derive(Drop)]
enum Form {
    One(u64, usize),
    Each(Vec<u32>),
}

impl Model for Counts {
    ghost use Rattle.wf_counts.specs.Counts.{Counted};

    ghost Value = { Counted };

    ghost use Rattle.wf_counts.specs.Form.{counted, IsKept};

    ghost view = { λ c. counted c.form };

    ghost invariant = { λ c. IsKept c.form };
}

/// One more at a place of a number that has the greatest digit there: not in one number then. It is not inlined, since few counts get there.
#[inline(never)]
fn one_more_past(alloc: Global, number: u64, many: usize, place: usize) -> Result<Counts, NoMemory>
    requires place { place < many }
    requires greatest { get_or (digits many number) place 0 ≡ 255 }
    ensures { IfOk result (λ more. more.items ≡ one_more_at place (digits many number)) }
{
    let each = all_digits(alloc, number, many)?;
    let form = Form::Each(with_one_more(alloc, each.as_slice(), place)?);
    Ok(Counts { form })
}

/// One more at a place of a number, which may not stand in one number then.
#[inline(always)]
fn one_more_in(alloc: Global, number: u64, many: usize, place: usize) -> Result<Counts, NoMemory>
    requires many { many ≤ 8 }
    requires number { number < 2 ^ (8 * many) }
    requires place { place < many }
    ensures { IfOk result (λ more. more.items ≡ one_more_at place (digits many number)) }
{
    if let Some(more) = raised(number, many, place) {
        let form = Form::One(more, many);
        return Ok(Counts { form });
    }
    one_more_past(alloc, number, many, place)
}

impl Counts {
    ghost use Rattle.std.specs.Prelude.{◌≡◌, ◌↔◌, ◌<◌, length, get_or, replicate, slice_get, IfOk, IsTrue};
    ghost use Rattle.wf_counts.specs.Digits.{one_more_at};

    /// No call of any process.
    pub fn none(alloc: Global, processes: usize) -> Result<Counts, NoMemory>
        ensures { IfOk result (λ none. none.items ≡ replicate processes 0) }
    {
        if processes <= DIGITS {
            let form = Form::One(0, processes);
            return Ok(Counts { form });
        }
        let form = Form::Each(Vec::from_elem(alloc, 0, processes)?);
        Ok(Counts { form })
    }

    /// How many processes there are.
    #[inline(always)]
    pub fn len(&self) -> usize
        ensures { result ≡ length self.now.items }
    {
        match &self.form {
            Form::One(_, many) => *many,
            Form::Each(each) => each.len(),
        }
    }

    /// How many calls of a process are made, if there is such a process.
    #[inline(always)]
    pub fn get(&self, process: usize) -> Option<u32>
        ensures { result ≡ slice_get self.now.items process }
    {
        match &self.form {
            Form::One(number, many) => digit_at(*number, *many, process),
            Form::Each(each) => each.as_slice().get(process).copied(),
        }
    }

    /// How many calls of a process are made, and 0 if there is no such process.
    #[inline(always)]
    pub fn count(&self, process: usize) -> u32
        ensures { result ≡ get_or self.now.items process 0 }
    {
        let Some(count) = self.get(process) else {
            return 0;
        };
        count
    }

    /// The counts with one call more of a process.
    #[inline(always)]
    pub fn one_more(&self, alloc: Global, process: usize) -> Result<Counts, NoMemory>
        requires { process < length self.now.items }
        ensures { IfOk result (λ more. more.items ≡ one_more_at process self.now.items) }
    {
        match &self.form {
            Form::One(number, many) => one_more_in(alloc, *number, *many, process),
            Form::Each(each) => {
                let form = Form::Each(with_one_more(alloc, each.as_slice(), process)?);
                Ok(Counts { form })
            }
        }
    }

    /// Whether these are the counts.
    pub fn are(&self, others: &[u32]) -> bool
        ensures { IsTrue result ↔ (self.now.items ≡ others.now) }
    {
        if self.len() != others.len() {
            return false;
        }
        for place in 0..others.len() {
            let Some(count) = self.get(place) else {
                return false;
            };
            if count != others[place] {
                return false;
            }
        }
        true
    }
}

impl PartialEq for Counts {
    ghost use Rattle.std.specs.Prelude.{nat_eq};
    ghost use Rattle.std.specs.Cmp.{on_equiv, partial_equiv_from_equiv};
    ghost use Rattle.std.specs.Cmp.Lexicographic.{pointwise};
    ghost use Rattle.std.proofs.lemmas.Cmp.{nat_list_eq_equiv};

    ghost eq = { λ a b. pointwise nat_eq a.items b.items };

    ghost laws = { partial_equiv_from_equiv (on_equiv (λ c. c.items) nat_list_eq_equiv) };

    #[inline(always)]
    fn eq(&self, other: &Counts) -> bool {
        match (&self.form, &other.form) {
            (Form::One(number, many), Form::One(another, count)) => {
                *number == *another && *many == *count
            }
            (Form::Each(each), Form::Each(others)) => each.as_slice() == others.as_slice(),
            _ => false,
        }
    }
}

impl Eq for Counts {
    ghost use Rattle.std.specs.Cmp.{on_equiv};
    ghost use Rattle.std.proofs.lemmas.Cmp.{nat_list_eq_equiv};

    ghost laws = { on_equiv (λ c. c.items) nat_list_eq_equiv };
}

impl Hash for Counts {
    ghost use Rattle.std.proofs.Common.{ap, refl};
    ghost use Rattle.std.proofs.Math.Dec.{eqb};
    ghost use Rattle.std.proofs.lemmas.Bool.Decides.{Decides-eqb};
    ghost use Rattle.std.proofs.lemmas.Slice.Eq.{slice_eq-Decides};
    ghost use Rattle.wf_counts.specs.Digits.{counts_fed};

    ghost hash_input = { λ c. counts_fed c.items };

    ghost respects_eq = { λ a b same. ap counts_fed ((slice_eq-Decides {E = eqb} Decides-eqb a.items b.items _ refl).0 same) };

    #[inline(always)]
    fn hash<H: Hasher>(&self, state: &mut H) {
        match &self.form {
            Form::One(number, _) => number.hash(state),
            Form::Each(each) => each.as_slice().hash(state),
        }
    }
}
