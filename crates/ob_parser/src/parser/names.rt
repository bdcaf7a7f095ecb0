//! Names.

ghost use Rattle.std.specs.Prelude.{◌≡◌, IsTrue, string_bytes, map, IfOk};
ghost use Rattle.std.specs.List.{list_all};
ghost use Rattle.std.specs.Char.{is_ascii_alphanumeric};
ghost use Rattle.ob_grammar.specs.View.{name_of};
ghost use Rattle.ob_parser.specs.Forms as forms;
ghost use Rattle.ob_parser.specs.Answers.{Answers, AnswersName};

use crate::parser::{ParseFault, Parser};
use ob_grammar::tree::Name;
use ob_scan::{Kind, TokenSource};
use std::alloc::{AllocError, Global};

/// The text of a name.
fn text_of(alloc: Global, bytes: &[u8]) -> Result<String, AllocError>
    requires { IsTrue (list_all is_ascii_alphanumeric bytes.now) }
    ensures { IfOk result (λ text. string_bytes text ≡ bytes.now) }
{
    match str::from_utf8(bytes) {
        Ok(text) => String::from_str(alloc, text),
        Err(_) => unreachable!(),
    }
}

impl<S: TokenSource> Parser<S> {
    /// ident
    pub(super) fn name(&mut self) -> Result<Name, ParseFault>
        ensures { AnswersName (S.state self.old.source) result (S.state self.new.source) }
    {
        if !self.at(Kind::Ident) {
            return Err(self.unexpected());
        }
        let text = text_of(self.alloc, self.bytes())?;
        let place = self.take();
        Ok(Name { text, place })
    }

    /// The ident behind an END, which is to be this name.
    pub(super) fn end_name(&mut self, name: &Name) -> Result<Name, ParseFault>
        ensures { Answers name_of (forms.end_name (name_of name.now)) (S.state self.old.source) result (S.state self.new.source) }
    {
        let end_name = self.name()?;
        if name.text != end_name.text {
            return Err(ParseFault::NameDiffers(end_name.place));
        }
        Ok(end_name)
    }

    /// IdentList = ident {"," ident}
    pub(super) fn ident_list(&mut self) -> Result<Vec<Name>, ParseFault>
        ensures { Answers (λ ns. map name_of ns.items) forms.ident_list (S.state self.old.source) result (S.state self.new.source) }
    {
        let mut all = Vec::new(self.alloc);
        let first = self.name()?;
        all.push(first)?;
        while self.at(Kind::Comma) {
            self.take();
            let next = self.name()?;
            all.push(next)?;
        }
        Ok(all)
    }
}
