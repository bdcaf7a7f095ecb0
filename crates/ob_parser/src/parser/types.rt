//! Types.

ghost use Rattle.ob_scan.specs.declared.token.Kind.{Kind};
ghost use Rattle.ob_grammar.specs.View.{type_of, fields_in};
ghost use Rattle.ob_parser.specs.Forms as forms;
ghost use Rattle.ob_parser.specs.Answers.{IsAt, Answers, AnswersPart, field_list_of};

use crate::parser::{ParseFault, Parser};
use ob_grammar::tree::{DEEPEST_NESTING, FieldList, TypeExpr};
use ob_scan::{Kind, TokenSource};

impl<S: TokenSource> Parser<S> {
    /// type = ident | ArrayType | RecordType
    #[cycle(types)]
    pub(super) fn type_expr(&mut self, depth: usize) -> Result<TypeExpr, ParseFault>
        ensures { Answers type_of (forms.type_expr depth) (S.state self.old.source) result (S.state self.new.source) }
    {
        if self.at(Kind::Array) {
            self.array_type(depth)
        } else if self.at(Kind::Record) {
            self.record_type(depth)
        } else {
            let name = self.name()?;
            Ok(TypeExpr::Named(name))
        }
    }

    /// ArrayType = "ARRAY" expression "OF" type
    #[cycle(types)]
    fn array_type(&mut self, depth: usize) -> Result<TypeExpr, ParseFault>
        requires { IsAt (S.state self.old.source) Kind.Array }
        ensures { Answers type_of (forms.type_expr depth) (S.state self.old.source) result (S.state self.new.source) }
    {
        if depth >= DEEPEST_NESTING {
            return Err(self.too_deep());
        }
        let place = self.take();
        let length = self.expression(depth + 1)?;
        let element = self.element(depth + 1)?;
        let element = Box::new(self.alloc, element)?;
        Ok(TypeExpr::Array {
            place,
            length,
            element,
        })
    }

    /// "OF" type
    #[cycle(types)]
    fn element(&mut self, depth: usize) -> Result<TypeExpr, ParseFault>
        ensures { AnswersPart (λ t p. (p, type_of t)) (forms.element depth) (S.state self.old.source) result (S.state self.new.source) }
    {
        self.expect(Kind::Of)?;
        self.type_expr(depth)
    }

    /// RecordType = "RECORD" FieldList {";" FieldList} "END"
    #[cycle(types)]
    fn record_type(&mut self, depth: usize) -> Result<TypeExpr, ParseFault>
        requires { IsAt (S.state self.old.source) Kind.Record }
        ensures { Answers type_of (forms.type_expr depth) (S.state self.old.source) result (S.state self.new.source) }
    {
        if depth >= DEEPEST_NESTING {
            return Err(self.too_deep());
        }
        let place = self.take();
        let fields = self.field_lists(depth + 1)?;
        self.expect(Kind::End)?;
        Ok(TypeExpr::Record { place, fields })
    }

    /// FieldList {";" FieldList}
    #[cycle(types)]
    fn field_lists(&mut self, depth: usize) -> Result<Vec<FieldList>, ParseFault>
        ensures { Answers (λ fs. fields_in fs.items) (forms.field_lists depth) (S.state self.old.source) result (S.state self.new.source) }
    {
        let mut all = Vec::new(self.alloc);
        let first = self.field_list(depth)?;
        all.push(first)?;
        while self.at(Kind::Semicolon) {
            self.take();
            let next = self.field_list(depth)?;
            all.push(next)?;
        }
        Ok(all)
    }

    /// FieldList = [IdentList ":" type]
    #[cycle(types)]
    fn field_list(&mut self, depth: usize) -> Result<FieldList, ParseFault>
        ensures { Answers field_list_of (forms.field_list depth) (S.state self.old.source) result (S.state self.new.source) }
    {
        if !self.at(Kind::Ident) {
            return Ok(FieldList::Empty);
        }
        let names = self.ident_list()?;
        self.expect(Kind::Colon)?;
        let of_type = self.type_expr(depth)?;
        Ok(FieldList::Fields { names, of_type })
    }
}
