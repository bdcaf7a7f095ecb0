//! Expressions, from the operators that bind least inwards.

ghost use Rattle.std.specs.Prelude.{◌≡◌, ℕ, ◌<◌, ◌≤◌, pos, IsTrue, IsSome, IfSome, IfNone, OnOk, OnSome};
ghost use Rattle.std.specs.List.{list_all};
ghost use Rattle.std.specs.Char.{is_ascii_digit};
ghost use Rattle.ob_scan.specs.declared.token.Kind.{Kind};
ghost use Rattle.ob_scan.specs.Spelling.{number_value};
ghost use Rattle.ob_grammar.specs.declared.tree.Operator.{Operator};
ghost use Rattle.ob_grammar.specs.Grammar.{IsRelation, IsAddition, IsMultiplication};
ghost use Rattle.ob_grammar.specs.View.{expr_of, operands_in, selectors_in};
ghost use Rattle.ob_parser.specs.Forms as forms;
ghost use Rattle.ob_parser.specs.Answers.{IsAt, Went, Answers, selector_of};

use crate::parser::{ParseFault, Parser};
use ob_grammar::tree::{DEEPEST_NESTING, Designator, Expr, Operand, Operator, Selector, Sign};
use ob_scan::token::LARGEST_NUMBER;
use ob_scan::{Kind, TokenSource};

/// The number that digits spell.
fn number_of(digits: &[u8]) -> i32
    requires digits { IsTrue (list_all is_ascii_digit digits.now) }
    requires limit { number_value digits.now ≤ LARGEST_NUMBER }
    ensures { result ≡ pos (number_value digits.now) }
{
    let mut value: u32 = 0;
    for digit in digits {
        value = value * 10 + u32::from(*digit - b'0');
    }
    value as i32
}

impl<S: TokenSource> Parser<S> {
    /// expression = SimpleExpression [("=" | "#" | "<" | "<=" | ">" | ">=") SimpleExpression]
    #[cycle(expr)]
    pub(super) fn expression(&mut self, depth: usize) -> Result<Expr, ParseFault>
        ensures { Answers expr_of (forms.expression depth) (S.state self.old.source) result (S.state self.new.source) }
    {
        let left = self.simple_expression(depth)?;
        let Some(operator) = self.relation() else {
            return Ok(left);
        };
        let place = self.take();
        let right = self.simple_expression(depth)?;
        let left = Box::new(self.alloc, left)?;
        let right = Box::new(self.alloc, right)?;
        Ok(Expr::Comparison {
            left,
            operator,
            place,
            right,
        })
    }

    /// "=" | "#" | "<" | "<=" | ">" | ">=", where one stands here.
    fn relation(&self) -> Option<Operator>
        ensures some { IfSome result (λ operator. (kind : Kind) × IsRelation kind operator × (IsAt (S.state self.now.source) kind)) }
        ensures none { IfNone result ((kind : Kind) (operator : Operator) → IsRelation kind operator → IsAt (S.state self.now.source) kind → ⊥) }
        ensures within { OnSome result (IsSome (S.state self.now.source).here) }
    {
        match self.source.here()?.kind {
            Kind::Equal => Some(Operator::Equal),
            Kind::NotEqual => Some(Operator::NotEqual),
            Kind::Less => Some(Operator::Less),
            Kind::LessOrEqual => Some(Operator::LessOrEqual),
            Kind::Greater => Some(Operator::Greater),
            Kind::GreaterOrEqual => Some(Operator::GreaterOrEqual),
            _ => None,
        }
    }

    /// SimpleExpression = ["+" | "-"] term {("+" | "-" | "OR") term}
    #[cycle(expr)]
    fn simple_expression(&mut self, depth: usize) -> Result<Expr, ParseFault>
        ensures { Answers expr_of (forms.simple_expression depth) (S.state self.old.source) result (S.state self.new.source) }
    {
        let sign = self.sign();
        let first = self.term(depth)?;
        let rest = self.terms(depth)?;
        if sign.is_none() && rest.is_empty() {
            return Ok(first);
        }
        let first = Box::new(self.alloc, first)?;
        Ok(Expr::Sum { sign, first, rest })
    }

    /// ["+" | "-"]
    fn sign(&mut self) -> Option<Sign>
        ensures { Went forms.sign (S.state self.old.source) result (S.state self.new.source) }
    {
        let is_minus = self.at(Kind::Minus);
        if !is_minus && !self.at(Kind::Plus) {
            return None;
        }
        let place = self.take();
        Some(Sign { is_minus, place })
    }

    /// {("+" | "-" | "OR") term}
    #[cycle(expr)]
    fn terms(&mut self, depth: usize) -> Result<Vec<Operand>, ParseFault>
        ensures { Answers (λ os. operands_in os.items) (forms.terms depth) (S.state self.old.source) result (S.state self.new.source) }
    {
        let mut all = Vec::new(self.alloc);
        while let Some(operator) = self.addition() {
            let place = self.take();
            let value = self.term(depth)?;
            all.push(Operand {
                operator,
                place,
                value,
            })?;
        }
        Ok(all)
    }

    /// "+" | "-" | "OR", where one stands here.
    fn addition(&self) -> Option<Operator>
        ensures some { IfSome result (λ operator. (kind : Kind) × IsAddition kind operator × (IsAt (S.state self.now.source) kind)) }
        ensures none { IfNone result ((kind : Kind) (operator : Operator) → IsAddition kind operator → IsAt (S.state self.now.source) kind → ⊥) }
        ensures within { OnSome result (IsSome (S.state self.now.source).here) }
    {
        match self.source.here()?.kind {
            Kind::Plus => Some(Operator::Plus),
            Kind::Minus => Some(Operator::Minus),
            Kind::Or => Some(Operator::Or),
            _ => None,
        }
    }

    /// term = factor {("*" | "DIV" | "MOD" | "&") factor}
    #[cycle(expr)]
    fn term(&mut self, depth: usize) -> Result<Expr, ParseFault>
        ensures { Answers expr_of (forms.term depth) (S.state self.old.source) result (S.state self.new.source) }
    {
        let first = self.factor(depth)?;
        let rest = self.factors(depth)?;
        if rest.is_empty() {
            return Ok(first);
        }
        let first = Box::new(self.alloc, first)?;
        Ok(Expr::Product { first, rest })
    }

    /// {("*" | "DIV" | "MOD" | "&") factor}
    #[cycle(expr)]
    fn factors(&mut self, depth: usize) -> Result<Vec<Operand>, ParseFault>
        ensures { Answers (λ os. operands_in os.items) (forms.factors depth) (S.state self.old.source) result (S.state self.new.source) }
    {
        let mut all = Vec::new(self.alloc);
        while let Some(operator) = self.multiplication() {
            let place = self.take();
            let value = self.factor(depth)?;
            all.push(Operand {
                operator,
                place,
                value,
            })?;
        }
        Ok(all)
    }

    /// "*" | "DIV" | "MOD" | "&", where one stands here.
    fn multiplication(&self) -> Option<Operator>
        ensures some { IfSome result (λ operator. (kind : Kind) × IsMultiplication kind operator × (IsAt (S.state self.now.source) kind)) }
        ensures none { IfNone result ((kind : Kind) (operator : Operator) → IsMultiplication kind operator → IsAt (S.state self.now.source) kind → ⊥) }
        ensures within { OnSome result (IsSome (S.state self.now.source).here) }
    {
        match self.source.here()?.kind {
            Kind::Times => Some(Operator::Times),
            Kind::Div => Some(Operator::Div),
            Kind::Mod => Some(Operator::Mod),
            Kind::And => Some(Operator::And),
            _ => None,
        }
    }

    /// factor = ident selector | number | "(" expression ")" | "~" factor
    #[cycle(expr)]
    fn factor(&mut self, depth: usize) -> Result<Expr, ParseFault>
        ensures { Answers expr_of (forms.factor depth) (S.state self.old.source) result (S.state self.new.source) }
    {
        if self.at(Kind::LeftParen) {
            self.parenthesized(depth)
        } else if self.at(Kind::Not) {
            self.negation(depth)
        } else if self.at(Kind::Number) {
            Ok(self.number())
        } else if self.at(Kind::Ident) {
            let name = self.name()?;
            let selectors = self.selectors(depth)?;
            Ok(Expr::Named(Designator { name, selectors }))
        } else {
            Err(self.unexpected())
        }
    }

    /// number
    fn number(&mut self) -> Expr
        requires { IsAt (S.state self.old.source) Kind.Number }
        ensures { (depth : ℕ) → Went (forms.factor depth) (S.state self.old.source) (expr_of result) (S.state self.new.source) }
    {
        let value = number_of(self.bytes());
        let place = self.take();
        Expr::Number { value, place }
    }

    /// "(" expression ")"
    #[cycle(expr)]
    fn parenthesized(&mut self, depth: usize) -> Result<Expr, ParseFault>
        requires { IsAt (S.state self.old.source) Kind.LeftParen }
        ensures { Answers expr_of (forms.factor depth) (S.state self.old.source) result (S.state self.new.source) }
    {
        if depth >= DEEPEST_NESTING {
            return Err(self.too_deep());
        }
        let place = self.take();
        let inner = self.expression(depth + 1)?;
        self.expect(Kind::RightParen)?;
        let inner = Box::new(self.alloc, inner)?;
        Ok(Expr::Parens { place, inner })
    }

    /// "~" factor
    #[cycle(expr)]
    fn negation(&mut self, depth: usize) -> Result<Expr, ParseFault>
        requires { IsAt (S.state self.old.source) Kind.Not }
        ensures { Answers expr_of (forms.factor depth) (S.state self.old.source) result (S.state self.new.source) }
    {
        if depth >= DEEPEST_NESTING {
            return Err(self.too_deep());
        }
        let place = self.take();
        let operand = self.factor(depth + 1)?;
        let operand = Box::new(self.alloc, operand)?;
        Ok(Expr::Not { place, operand })
    }

    /// selector = {"." ident | "[" expression "]"}
    #[cycle(expr)]
    pub(super) fn selectors(&mut self, depth: usize) -> Result<Vec<Selector>, ParseFault>
        ensures { Answers (λ ss. selectors_in ss.items) (forms.selectors depth) (S.state self.old.source) result (S.state self.new.source) }
    {
        let mut all = Vec::new(self.alloc);
        while self.at(Kind::Dot) || self.at(Kind::LeftBracket) {
            let next = self.selector(depth)?;
            all.push(next)?;
        }
        Ok(all)
    }

    /// "." ident | "[" expression "]"
    #[cycle(expr)]
    fn selector(&mut self, depth: usize) -> Result<Selector, ParseFault>
        ensures answers { Answers selector_of (forms.selector depth) (S.state self.old.source) result (S.state self.new.source) }
        ensures moved { OnOk result ((S.state self.new.source).left < (S.state self.old.source).left) }
    {
        if self.at(Kind::LeftBracket) {
            return self.index(depth);
        }
        let place = self.expect(Kind::Dot)?;
        let name = self.name()?;
        Ok(Selector::Field { place, name })
    }

    /// "[" expression "]"
    #[cycle(expr)]
    fn index(&mut self, depth: usize) -> Result<Selector, ParseFault>
        requires { IsAt (S.state self.old.source) Kind.LeftBracket }
        ensures answers { Answers selector_of (forms.selector depth) (S.state self.old.source) result (S.state self.new.source) }
        ensures moved { OnOk result ((S.state self.new.source).left < (S.state self.old.source).left) }
    {
        if depth >= DEEPEST_NESTING {
            return Err(self.too_deep());
        }
        let place = self.take();
        let index = self.expression(depth + 1)?;
        self.expect(Kind::RightBracket)?;
        Ok(Selector::Index { place, index })
    }
}
