//! Statements.

ghost use Rattle.std.specs.Prelude.{◌↔◌, IsTrue, map, option_map};
ghost use Rattle.ob_scan.specs.declared.token.Kind.{Kind};
ghost use Rattle.ob_grammar.specs.View.{expr_of, stmt_of, stmts_in, branches_in, otherwise_of};
ghost use Rattle.ob_parser.specs.Forms as forms;
ghost use Rattle.ob_parser.specs.Answers.{IsAt, GoesOnAsAssignment, Answers, AnswersPart, between, branch_of};

use crate::parser::{ParseFault, Parser};
use ob_grammar::tree::{Branch, DEEPEST_NESTING, Designator, Expr, Stmt};
use ob_scan::{Kind, TokenSource};

impl<S: TokenSource> Parser<S> {
    /// StatementSequence = statement {";" statement}
    #[cycle(statements)]
    pub(super) fn statements(&mut self, depth: usize) -> Result<Vec<Stmt>, ParseFault>
        ensures { Answers (λ ss. stmts_in ss.items) (forms.statements depth) (S.state self.old.source) result (S.state self.new.source) }
    {
        let mut all = Vec::new(self.alloc);
        let first = self.statement(depth)?;
        all.push(first)?;
        while self.at(Kind::Semicolon) {
            self.take();
            let next = self.statement(depth)?;
            all.push(next)?;
        }
        Ok(all)
    }

    /// statement = [assignment | ProcedureCall | IfStatement | WhileStatement | RepeatStatement]
    #[cycle(statements)]
    fn statement(&mut self, depth: usize) -> Result<Stmt, ParseFault>
        ensures { Answers stmt_of (forms.statement depth) (S.state self.old.source) result (S.state self.new.source) }
    {
        if self.at(Kind::If) {
            self.if_statement(depth)
        } else if self.at(Kind::While) {
            self.while_statement(depth)
        } else if self.at(Kind::Repeat) {
            self.repeat_statement(depth)
        } else if self.at(Kind::Ident) {
            self.assignment_or_call(depth)
        } else {
            Ok(Stmt::Empty)
        }
    }

    /// Whether what follows a name makes it an assignment: `:=`, or a selector.
    fn at_assignment(&self) -> bool
        ensures { IsTrue result ↔ (GoesOnAsAssignment (S.state self.now.source)) }
    {
        self.at(Kind::Assign) || self.at(Kind::Dot) || self.at(Kind::LeftBracket)
    }

    /// assignment = ident selector ":=" expression, or ProcedureCall = ident [ActualParameters]
    fn assignment_or_call(&mut self, depth: usize) -> Result<Stmt, ParseFault>
        requires { IsAt (S.state self.old.source) Kind.Ident }
        ensures { Answers stmt_of (forms.statement depth) (S.state self.old.source) result (S.state self.new.source) }
    {
        let name = self.name()?;
        if self.at(Kind::LeftParen) {
            let actuals = self.actual_parameters(depth)?;
            Ok(Stmt::Call {
                procedure: name,
                actuals: Some(actuals),
            })
        } else if self.at_assignment() {
            let selectors = self.selectors(depth)?;
            self.expect(Kind::Assign)?;
            let value = self.expression(depth)?;
            Ok(Stmt::Assign {
                target: Designator { name, selectors },
                value,
            })
        } else {
            Ok(Stmt::Call {
                procedure: name,
                actuals: None,
            })
        }
    }

    /// ActualParameters = "(" [expression {"," expression}] ")"
    fn actual_parameters(&mut self, depth: usize) -> Result<Vec<Expr>, ParseFault>
        ensures { Answers (λ es. map expr_of es.items) (forms.actual_parameters depth) (S.state self.old.source) result (S.state self.new.source) }
    {
        self.expect(Kind::LeftParen)?;
        if self.at(Kind::RightParen) {
            self.take();
            return Ok(Vec::new(self.alloc));
        }
        let arguments = self.arguments(depth)?;
        self.expect(Kind::RightParen)?;
        Ok(arguments)
    }

    /// expression {"," expression}
    fn arguments(&mut self, depth: usize) -> Result<Vec<Expr>, ParseFault>
        ensures { Answers (λ es. map expr_of es.items) (forms.arguments depth) (S.state self.old.source) result (S.state self.new.source) }
    {
        let mut all = Vec::new(self.alloc);
        let first = self.expression(depth)?;
        all.push(first)?;
        while self.at(Kind::Comma) {
            self.take();
            let next = self.expression(depth)?;
            all.push(next)?;
        }
        Ok(all)
    }

    /// IfStatement = "IF" expression "THEN" StatementSequence
    ///   {"ELSIF" expression "THEN" StatementSequence} ["ELSE" StatementSequence] "END"
    #[cycle(statements)]
    fn if_statement(&mut self, depth: usize) -> Result<Stmt, ParseFault>
        requires { IsAt (S.state self.old.source) Kind.If }
        ensures { Answers stmt_of (forms.statement depth) (S.state self.old.source) result (S.state self.new.source) }
    {
        if depth >= DEEPEST_NESTING {
            return Err(self.too_deep());
        }
        let place = self.take();
        let branches = self.branches(depth + 1)?;
        let otherwise = self.otherwise(depth + 1)?;
        self.expect(Kind::End)?;
        Ok(Stmt::If {
            place,
            branches,
            otherwise,
        })
    }

    /// expression "THEN" StatementSequence {"ELSIF" expression "THEN" StatementSequence}
    #[cycle(statements)]
    fn branches(&mut self, depth: usize) -> Result<Vec<Branch>, ParseFault>
        ensures { Answers (λ bs. branches_in bs.items) (forms.branches depth) (S.state self.old.source) result (S.state self.new.source) }
    {
        let mut all = Vec::new(self.alloc);
        let first = self.branch(depth)?;
        all.push(first)?;
        while self.at(Kind::Elsif) {
            self.take();
            let next = self.branch(depth)?;
            all.push(next)?;
        }
        Ok(all)
    }

    /// expression "THEN" StatementSequence
    #[cycle(statements)]
    fn branch(&mut self, depth: usize) -> Result<Branch, ParseFault>
        ensures { Answers branch_of (forms.branch depth) (S.state self.old.source) result (S.state self.new.source) }
    {
        let condition = self.expression(depth)?;
        self.expect(Kind::Then)?;
        let body = self.statements(depth)?;
        Ok(Branch { condition, body })
    }

    /// ["ELSE" StatementSequence]
    #[cycle(statements)]
    fn otherwise(&mut self, depth: usize) -> Result<Option<Vec<Stmt>>, ParseFault>
        ensures { Answers otherwise_of (forms.otherwise depth) (S.state self.old.source) result (S.state self.new.source) }
    {
        if !self.at(Kind::Else) {
            return Ok(None);
        }
        self.take();
        let statements = self.statements(depth)?;
        Ok(Some(statements))
    }

    /// WhileStatement = "WHILE" expression "DO" StatementSequence "END"
    #[cycle(statements)]
    fn while_statement(&mut self, depth: usize) -> Result<Stmt, ParseFault>
        requires { IsAt (S.state self.old.source) Kind.While }
        ensures { Answers stmt_of (forms.statement depth) (S.state self.old.source) result (S.state self.new.source) }
    {
        if depth >= DEEPEST_NESTING {
            return Err(self.too_deep());
        }
        let place = self.take();
        let condition = self.expression(depth + 1)?;
        let body = self.repeated(depth + 1)?;
        Ok(Stmt::While {
            place,
            condition,
            body,
        })
    }

    /// "DO" StatementSequence "END"
    #[cycle(statements)]
    fn repeated(&mut self, depth: usize) -> Result<Vec<Stmt>, ParseFault>
        ensures { AnswersPart (λ ss p. between (stmts_in ss.items) p) (forms.repeated depth) (S.state self.old.source) result (S.state self.new.source) }
    {
        self.expect(Kind::Do)?;
        let body = self.statements(depth)?;
        self.expect(Kind::End)?;
        Ok(body)
    }

    /// RepeatStatement = "REPEAT" StatementSequence "UNTIL" expression
    #[cycle(statements)]
    fn repeat_statement(&mut self, depth: usize) -> Result<Stmt, ParseFault>
        requires { IsAt (S.state self.old.source) Kind.Repeat }
        ensures { Answers stmt_of (forms.statement depth) (S.state self.old.source) result (S.state self.new.source) }
    {
        if depth >= DEEPEST_NESTING {
            return Err(self.too_deep());
        }
        let place = self.take();
        let body = self.statements(depth + 1)?;
        self.expect(Kind::Until)?;
        let condition = self.expression(depth + 1)?;
        Ok(Stmt::Repeat {
            place,
            body,
            condition,
        })
    }

    /// ["BEGIN" StatementSequence]
    pub(super) fn body(&mut self, depth: usize) -> Result<Option<Vec<Stmt>>, ParseFault>
        ensures { Answers (λ b. option_map (λ ss. stmts_in ss.items) b) (forms.body depth) (S.state self.old.source) result (S.state self.new.source) }
    {
        if !self.at(Kind::Begin) {
            return Ok(None);
        }
        self.take();
        let statements = self.statements(depth)?;
        Ok(Some(statements))
    }
}
