//! What the lines so far have told, and one more of them.

ghost use Rattle.std.specs.Prelude.{◌≡◌, ◌↔◌, ◌<◌, ◌∷◌, ◌++◌, [], map, option_map, slice_get, IfOk, IsTrue};
ghost use Rattle.ob_checked.specs.CheckedModule.{program_in};
ghost use Rattle.ob_checked.specs.View.{table_of, variable_of};
ghost use Rattle.ob_store.specs.View.{variables_in};
ghost use Rattle.ob_text_reading.specs.HistoryLines.{IsAnyCount};
ghost use Rattle.ob_text_reading.specs.LineReading.{TakesLine, TakesOrLeaves};
ghost use Rattle.ob_text_reading.specs.Names.{MayCome, events_of};
ghost use Rattle.ob_text_reading.specs.Reading.{Leads, LeadsAs, NamesCalls, at_stage, at_start, event_said, is_opened, place};
ghost use Rattle.ob_text_reading.specs.HistoryContents.{heard_of};
ghost use Rattle.ob_text_values_reading.specs.declared.kind.LineKind.TheVariants as Kinds;
ghost use Rattle.ob_text_words.specs.Finding.{FindsAs};
ghost use Rattle.ob_text_words.specs.Words.{words};

use crate::event::{PROCESS_NUMBERS, Said, read_event};
use crate::head::read_budget;
use crate::named_processes::NamedCalls;
use crate::opening_values::{push_value, read_opening};
use ob_checked::checked::Checked;
use ob_checked::program::Variable;
use ob_checked::types::Types;
use ob_interface::NoMemory;
use ob_store::value::Value;
use ob_text_values_reading::id::are_ids;
use ob_text_values_reading::kind::{LineKind, Stage, kind_of};
use ob_text_values_reading::line_words::next_word;
use ob_text_values_reading::said_number::only_process;
use ob_text_values_reading::splitting::is_tail_line;
use ob_text_values_reading::title::read_title;
use ob_text_words::words::words_of;
use std::alloc::{AllocError, Global};

/// What the lines so far have told.
#[derive(Drop)]
pub(crate) struct Reader {
    pub(crate) stage: Stage,
    pub(crate) budget: Option<u64>,
    pub(crate) values: Vec<Value>,
    pub(crate) calls: NamedCalls,
}

impl Reader {
    /// Before the first line.
    pub(crate) fn new(alloc: Global) -> Result<Reader, AllocError>
        ensures { IfOk result (λ r. heard_of «r» ≡ at_start) }
    {
        Ok(Reader {
            stage: Stage::Start,
            budget: None,
            values: Vec::new(alloc),
            calls: NamedCalls::new(alloc)?,
        })
    }

    /// Whether none of the variables has an opening, or each one.
    pub(crate) fn is_opened(&self, checked: &Checked) -> bool
        ensures { result ≡ is_opened (program_in checked.now).variables (variables_in self.now.values.items) }
    {
        self.values.is_empty() || self.values.len() == checked.program().variables.len()
    }

    /// Takes up the line that a text begins with, where it is one of an event or of applied calls as runs write them, and gives the text
    /// behind it. `None` says nothing of the line, and nothing is taken up.
    #[inline(always)]
    pub(crate) fn take_written<'a>(
        &mut self,
        alloc: Global,
        checked: &Checked,
        text: &'a [u8],
    ) -> Result<Option<&'a [u8]>, NoMemory>
        ensures { IfOk result (TakesOrLeaves (heard_of self.old) (heard_of self.new)
            (TakesLine (Leads (program_in checked.now) (heard_of self.old)) text.now)) }
    {
        if !self.may_go_on(checked) {
            return Ok(None);
        }
        let Some(rest) = self.calls.take_written(alloc, checked.exports(), text)? else {
            return Ok(None);
        };
        self.stage = Stage::Events;
        Ok(Some(rest))
    }

    /// Takes a line up; `None` where it may not stand there. Words that say values are put in place of those that the list has. It
    /// stands apart, since most lines are read as runs write them.
    #[inline(never)]
    pub(crate) fn take_line<'a>(
        self,
        alloc: Global,
        checked: &Checked,
        line: &'a [u8],
        list: &mut Vec<&'a [u8]>,
    ) -> Result<Option<Reader>, NoMemory>
        ensures { IfOk result (FindsAs heard_of (Leads (program_in checked.now) (heard_of self) (words line.now))) }
    {
        match kind_of(line) {
            LineKind::Comment => Ok(Some(self)),
            LineKind::Title => self.take_title(alloc, checked, line),
            LineKind::Count => self.take_count(alloc, checked, line),
            LineKind::Budget => self.take_budget(alloc, checked, line),
            LineKind::Opening => self.take_opening(alloc, checked, line),
            LineKind::Event => self.take_event(alloc, checked, line, list),
            LineKind::Applied => Ok(self.take_applied(checked, line)),
            LineKind::Order => Ok(self.take_order(checked, line)),
            LineKind::Tail => Ok(self.take_tail(checked, line)),
            LineKind::Other => Ok(None),
        }
    }

    /// The same, at the next stage.
    fn at(self, stage: Stage) -> Reader
        ensures { heard_of result ≡ at_stage stage (heard_of self) }
    {
        Reader {
            stage,
            budget: self.budget,
            values: self.values,
            calls: self.calls,
        }
    }

    fn take_title(
        self,
        alloc: Global,
        checked: &Checked,
        line: &[u8],
    ) -> Result<Option<Reader>, NoMemory>
        ensures { IfOk result (FindsAs heard_of (LeadsAs (program_in checked.now) (heard_of self) (words line.now) Kinds.Title)) }
    {
        if self.stage.place() >= Stage::Title.place() {
            return Ok(None);
        }
        let words = words_of(alloc, line)?;
        match read_title(&words) {
            Some(_version) => Ok(Some(self.at(Stage::Title))),
            None => Ok(None),
        }
    }

    fn take_count(
        self,
        alloc: Global,
        checked: &Checked,
        line: &[u8],
    ) -> Result<Option<Reader>, NoMemory>
        ensures { IfOk result (FindsAs heard_of (LeadsAs (program_in checked.now) (heard_of self) (words line.now) Kinds.Count)) }
    {
        if self.stage.place() >= Stage::Count.place() {
            return Ok(None);
        }
        let words = words_of(alloc, line)?;
        if !is_count(&words) {
            return Ok(None);
        }
        Ok(Some(self.at(Stage::Count)))
    }

    fn take_budget(
        self,
        alloc: Global,
        checked: &Checked,
        line: &[u8],
    ) -> Result<Option<Reader>, NoMemory>
        ensures { IfOk result (FindsAs heard_of (LeadsAs (program_in checked.now) (heard_of self) (words line.now) Kinds.Budget)) }
    {
        if self.stage.place() >= Stage::Budget.place() {
            return Ok(None);
        }
        let words = words_of(alloc, line)?;
        let Some(budget) = read_budget(&words) else {
            return Ok(None);
        };
        Ok(Some(Reader {
            stage: Stage::Budget,
            budget: Some(budget),
            values: self.values,
            calls: self.calls,
        }))
    }

    fn take_opening(
        self,
        alloc: Global,
        checked: &Checked,
        line: &[u8],
    ) -> Result<Option<Reader>, NoMemory>
        ensures { IfOk result (FindsAs heard_of (LeadsAs (program_in checked.now) (heard_of self) (words line.now) Kinds.Opening)) }
    {
        if self.stage.place() >= Stage::Events.place() {
            return Ok(None);
        }
        let program = checked.program();
        let variables = program.variables.as_slice();
        let Some(variable) = variable_at(&program.types, variables, self.values.len()) else {
            return Ok(None);
        };
        let Some(value) = read_opening(alloc, &program.types, variable, line)? else {
            return Ok(None);
        };
        let mut values = self.values;
        push_value(&mut values, value)?;
        Ok(Some(Reader {
            stage: Stage::Openings,
            budget: self.budget,
            values,
            calls: self.calls,
        }))
    }

    fn take_event<'a>(
        self,
        alloc: Global,
        checked: &Checked,
        line: &'a [u8],
        list: &mut Vec<&'a [u8]>,
    ) -> Result<Option<Reader>, NoMemory>
        ensures { IfOk result (FindsAs heard_of (LeadsAs (program_in checked.now) (heard_of self) (words line.now) Kinds.Event)) }
    {
        if !self.may_go_on(checked) {
            return Ok(None);
        }
        let Some(said) = read_event(alloc, checked.exports(), &self.calls, line, list)? else {
            return Ok(None);
        };
        let calls = note(self.calls, said)?;
        Ok(Some(Reader {
            stage: Stage::Events,
            budget: self.budget,
            values: self.values,
            calls,
        }))
    }

    fn take_applied(self, checked: &Checked, line: &[u8]) -> Option<Reader>
        ensures { FindsAs heard_of (LeadsAs (program_in checked.now) (heard_of self) (words line.now) Kinds.Applied) result }
    {
        if !self.may_go_on(checked) || !names_calls(b'A', line) {
            return None;
        }
        Some(self.at(Stage::Events))
    }

    fn take_order(self, checked: &Checked, line: &[u8]) -> Option<Reader>
        ensures { FindsAs heard_of (LeadsAs (program_in checked.now) (heard_of self) (words line.now) Kinds.Order) result }
    {
        if !self.may_go_on(checked) || !names_calls(b'O', line) {
            return None;
        }
        Some(self.at(Stage::Order))
    }

    /// Whether events or the order may stand next.
    fn may_go_on(&self, checked: &Checked) -> bool
        ensures { IsTrue result ↔ ((place self.now.stage < 6) × IsTrue (is_opened (program_in checked.now).variables (variables_in self.now.values.items))) }
    {
        self.stage.place() < Stage::Order.place() && self.is_opened(checked)
    }

    fn take_tail(self, checked: &Checked, line: &[u8]) -> Option<Reader>
        ensures { FindsAs heard_of (LeadsAs (program_in checked.now) (heard_of self) (words line.now) Kinds.Tail) result }
    {
        if self.stage.place() < Stage::Order.place() || !is_tail_line(line) {
            return None;
        }
        Some(self)
    }
}

/// Whether a line tells how many processes there are: `n N`.
fn is_count(words: &[&[u8]]) -> bool
    ensures { IsTrue result ↔ IsAnyCount (map (λ w. w.now) words.now) }
{
    let Some((first, rest)) = words.split_first() else {
        return false;
    };
    if *first != b"n".as_slice() {
        return false;
    }
    only_process(rest).is_some()
}

/// Whether a line is this letter and names of calls.
fn names_calls(letter: u8, line: &[u8]) -> bool
    ensures { IsTrue result ↔ NamesCalls letter (words line.now) }
{
    let Some((first, rest)) = next_word(line) else {
        return false;
    };
    let [byte] = first else {
        return false;
    };
    *byte == letter && are_ids(PROCESS_NUMBERS, rest)
}

/// The variable of a number.
fn variable_at<'a>(types: &Types, variables: &'a [Variable], number: usize) -> Option<&'a Variable>
    ensures { option_map (λ v. variable_of (table_of types.now) v.now) result ≡ slice_get (map (variable_of (table_of types.now)) variables.now) number }
{
    let _types = types;
    variables.get(number)
}

/// The calls with one more event.
fn note(calls: NamedCalls, said: Said) -> Result<NamedCalls, NoMemory>
    requires { MayCome (events_of calls) (event_said said) }
    ensures { IfOk result (λ c. events_of c ≡ events_of calls ++ event_said said ∷ []) }
{
    match said {
        Said::Begin(id, call) => calls.begin(id, call),
        Said::End(id, reply) => calls.end(id, reply),
    }
}
