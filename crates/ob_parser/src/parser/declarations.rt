//! Declarations and the module.

ghost use Rattle.std.specs.Prelude.{◌<◌, map, option_map, OnOk};
ghost use Rattle.ob_grammar.specs.View.{const_decl_of, type_decl_of, var_decl_of, constants_of, types_of, variables_of};
ghost use Rattle.ob_grammar.specs.View.{section_of, procedures_in, declarations_of, module_of, name_of, expr_of, type_of};
ghost use Rattle.ob_parser.specs.Forms as forms;
ghost use Rattle.ob_parser.specs.Answers.{Answers, AnswersModule, AnswersPart, between, heading_in, block_in, procedure_of};

use crate::parser::{ParseFault, Parser};
use ob_grammar::tree::{
    ConstDecl, Constants, DEEPEST_NESTING, Declarations, Expr, ModuleTree, Name, Procedure,
    Section, Stmt, TypeDecl, TypeExpr, Types, VarDecl, Variables,
};
use ob_scan::{Kind, TokenSource};

/// The heading of a procedure, with the place of PROCEDURE.
#[derive(Drop)]
struct Heading {
    place: usize,
    name: Name,
    is_exported: bool,
    parameters: Option<Vec<Section>>,
}

/// What stands behind the heading of a procedure, or behind the name of a module up to the dot.
#[derive(Drop)]
struct Block {
    declarations: Declarations,
    body: Option<Vec<Stmt>>,
    end_name: Name,
}

impl<S: TokenSource> Parser<S> {
    /// "=" expression ";"
    fn constant_value(&mut self, depth: usize) -> Result<Expr, ParseFault>
        ensures answers { AnswersPart (λ e p. between (expr_of e) p) (forms.constant_value depth) (S.state self.old.source) result (S.state self.new.source) }
        ensures moved { OnOk result ((S.state self.new.source).left < (S.state self.old.source).left) }
    {
        self.expect(Kind::Equal)?;
        let value = self.expression(depth)?;
        self.expect(Kind::Semicolon)?;
        Ok(value)
    }

    /// A token of this kind, and then type ";"
    fn declared_type(&mut self, kind: Kind, depth: usize) -> Result<TypeExpr, ParseFault>
        ensures answers { AnswersPart (λ t p. between (type_of t) p) (forms.declared_type kind depth) (S.state self.old.source) result (S.state self.new.source) }
        ensures moved { OnOk result ((S.state self.new.source).left < (S.state self.old.source).left) }
    {
        self.expect(kind)?;
        let of_type = self.type_expr(depth)?;
        self.expect(Kind::Semicolon)?;
        Ok(of_type)
    }

    /// ident "=" expression ";"
    fn const_declaration(&mut self, depth: usize) -> Result<ConstDecl, ParseFault>
        ensures answers { Answers const_decl_of (forms.const_declaration depth) (S.state self.old.source) result (S.state self.new.source) }
        ensures moved { OnOk result ((S.state self.new.source).left < (S.state self.old.source).left) }
    {
        let name = self.name()?;
        let value = self.constant_value(depth)?;
        Ok(ConstDecl { name, value })
    }

    /// {ident "=" expression ";"}
    fn const_declarations(&mut self, depth: usize) -> Result<Vec<ConstDecl>, ParseFault>
        ensures { Answers (λ xs. map const_decl_of xs.items) (forms.const_declarations depth) (S.state self.old.source) result (S.state self.new.source) }
    {
        let mut all = Vec::new(self.alloc);
        while self.at(Kind::Ident) {
            let next = self.const_declaration(depth)?;
            all.push(next)?;
        }
        Ok(all)
    }

    /// ["CONST" {ident "=" expression ";"}]
    fn constants(&mut self, depth: usize) -> Result<Option<Constants>, ParseFault>
        ensures { Answers (λ x. option_map constants_of x) (forms.constants depth) (S.state self.old.source) result (S.state self.new.source) }
    {
        if !self.at(Kind::Const) {
            return Ok(None);
        }
        let place = self.take();
        let declared = self.const_declarations(depth)?;
        Ok(Some(Constants { place, declared }))
    }

    /// ident "=" type ";"
    fn type_declaration(&mut self, depth: usize) -> Result<TypeDecl, ParseFault>
        ensures answers { Answers type_decl_of (forms.type_declaration depth) (S.state self.old.source) result (S.state self.new.source) }
        ensures moved { OnOk result ((S.state self.new.source).left < (S.state self.old.source).left) }
    {
        let name = self.name()?;
        let definition = self.declared_type(Kind::Equal, depth)?;
        Ok(TypeDecl { name, definition })
    }

    /// {ident "=" type ";"}
    fn type_declarations(&mut self, depth: usize) -> Result<Vec<TypeDecl>, ParseFault>
        ensures { Answers (λ xs. map type_decl_of xs.items) (forms.type_declarations depth) (S.state self.old.source) result (S.state self.new.source) }
    {
        let mut all = Vec::new(self.alloc);
        while self.at(Kind::Ident) {
            let next = self.type_declaration(depth)?;
            all.push(next)?;
        }
        Ok(all)
    }

    /// ["TYPE" {ident "=" type ";"}]
    fn types(&mut self, depth: usize) -> Result<Option<Types>, ParseFault>
        ensures { Answers (λ x. option_map types_of x) (forms.types depth) (S.state self.old.source) result (S.state self.new.source) }
    {
        if !self.at(Kind::Type) {
            return Ok(None);
        }
        let place = self.take();
        let declared = self.type_declarations(depth)?;
        Ok(Some(Types { place, declared }))
    }

    /// IdentList ":" type ";"
    fn var_declaration(&mut self, depth: usize) -> Result<VarDecl, ParseFault>
        ensures answers { Answers var_decl_of (forms.var_declaration depth) (S.state self.old.source) result (S.state self.new.source) }
        ensures moved { OnOk result ((S.state self.new.source).left < (S.state self.old.source).left) }
    {
        let names = self.ident_list()?;
        let of_type = self.declared_type(Kind::Colon, depth)?;
        Ok(VarDecl { names, of_type })
    }

    /// {IdentList ":" type ";"}
    fn var_declarations(&mut self, depth: usize) -> Result<Vec<VarDecl>, ParseFault>
        ensures { Answers (λ xs. map var_decl_of xs.items) (forms.var_declarations depth) (S.state self.old.source) result (S.state self.new.source) }
    {
        let mut all = Vec::new(self.alloc);
        while self.at(Kind::Ident) {
            let next = self.var_declaration(depth)?;
            all.push(next)?;
        }
        Ok(all)
    }

    /// ["VAR" {IdentList ":" type ";"}]
    fn variables(&mut self, depth: usize) -> Result<Option<Variables>, ParseFault>
        ensures { Answers (λ x. option_map variables_of x) (forms.variables depth) (S.state self.old.source) result (S.state self.new.source) }
    {
        if !self.at(Kind::Var) {
            return Ok(None);
        }
        let place = self.take();
        let declared = self.var_declarations(depth)?;
        Ok(Some(Variables { place, declared }))
    }

    /// FPSection = ["VAR"] IdentList ":" type
    fn section(&mut self, depth: usize) -> Result<Section, ParseFault>
        ensures { Answers section_of (forms.section depth) (S.state self.old.source) result (S.state self.new.source) }
    {
        let is_var = self.word(Kind::Var);
        let names = self.ident_list()?;
        self.expect(Kind::Colon)?;
        let of_type = self.type_expr(depth)?;
        Ok(Section {
            is_var,
            names,
            of_type,
        })
    }

    /// FPSection {";" FPSection}
    fn sections(&mut self, depth: usize) -> Result<Vec<Section>, ParseFault>
        ensures { Answers (λ ss. map section_of ss.items) (forms.sections depth) (S.state self.old.source) result (S.state self.new.source) }
    {
        let mut all = Vec::new(self.alloc);
        let first = self.section(depth)?;
        all.push(first)?;
        while self.at(Kind::Semicolon) {
            self.take();
            let next = self.section(depth)?;
            all.push(next)?;
        }
        Ok(all)
    }

    /// FormalParameters = "(" [FPSection {";" FPSection}] ")"
    fn formal_parameters(&mut self, depth: usize) -> Result<Vec<Section>, ParseFault>
        ensures { Answers (λ ss. map section_of ss.items) (forms.formal_parameters depth) (S.state self.old.source) result (S.state self.new.source) }
    {
        self.expect(Kind::LeftParen)?;
        if self.at(Kind::RightParen) {
            self.take();
            return Ok(Vec::new(self.alloc));
        }
        let sections = self.sections(depth)?;
        self.expect(Kind::RightParen)?;
        Ok(sections)
    }

    /// [FormalParameters]
    fn parameters(&mut self, depth: usize) -> Result<Option<Vec<Section>>, ParseFault>
        ensures { Answers (λ p. option_map (λ ss. map section_of ss.items) p) (forms.parameters depth) (S.state self.old.source) result (S.state self.new.source) }
    {
        if !self.at(Kind::LeftParen) {
            return Ok(None);
        }
        let sections = self.formal_parameters(depth)?;
        Ok(Some(sections))
    }

    /// ProcedureHeading = "PROCEDURE" ident ["*"] [FormalParameters]; the parameters stand within the procedure.
    fn heading(&mut self, depth: usize) -> Result<Heading, ParseFault>
        requires { depth < DEEPEST_NESTING }
        ensures { Answers heading_in (forms.heading depth) (S.state self.old.source) result (S.state self.new.source) }
    {
        let place = self.expect(Kind::Procedure)?;
        let name = self.name()?;
        let is_exported = self.word(Kind::Times);
        let parameters = self.parameters(depth + 1)?;
        Ok(Heading {
            place,
            name,
            is_exported,
            parameters,
        })
    }

    /// ProcedureDeclaration = ProcedureHeading ";" declarations ["BEGIN" StatementSequence] "END" ident
    #[cycle(declarations)]
    fn procedure(&mut self, depth: usize) -> Result<Procedure, ParseFault>
        requires { depth < DEEPEST_NESTING }
        ensures { Answers procedure_of (forms.procedure_declaration depth) (S.state self.old.source) result (S.state self.new.source) }
    {
        let heading = self.heading(depth)?;
        let block = self.block(depth + 1, &heading.name)?;
        Ok(Procedure {
            place: heading.place,
            name: heading.name,
            is_exported: heading.is_exported,
            parameters: heading.parameters,
            declarations: block.declarations,
            body: block.body,
            end_name: block.end_name,
        })
    }

    /// "END" ident
    fn ending(&mut self, name: &Name) -> Result<Name, ParseFault>
        ensures { AnswersPart (λ n p. (p, name_of n)) (forms.ending (name_of name.now)) (S.state self.old.source) result (S.state self.new.source) }
    {
        self.expect(Kind::End)?;
        self.end_name(name)
    }

    /// ";" declarations ["BEGIN" StatementSequence] "END" ident
    #[cycle(declarations)]
    fn block(&mut self, depth: usize, name: &Name) -> Result<Block, ParseFault>
        ensures { AnswersPart block_in (forms.block depth (name_of name.now)) (S.state self.old.source) result (S.state self.new.source) }
    {
        self.expect(Kind::Semicolon)?;
        let declarations = self.declarations(depth)?;
        let body = self.body(depth)?;
        let end_name = self.ending(name)?;
        Ok(Block {
            declarations,
            body,
            end_name,
        })
    }

    /// {ProcedureDeclaration ";"}
    #[cycle(declarations)]
    fn procedures(&mut self, depth: usize) -> Result<Vec<Procedure>, ParseFault>
        ensures { Answers (λ ps. procedures_in ps.items) (forms.procedures depth) (S.state self.old.source) result (S.state self.new.source) }
    {
        let mut all = Vec::new(self.alloc);
        while self.at(Kind::Procedure) {
            if depth >= DEEPEST_NESTING {
                return Err(self.too_deep());
            }
            let next = self.procedure(depth)?;
            self.expect(Kind::Semicolon)?;
            all.push(next)?;
        }
        Ok(all)
    }

    /// declarations = ["CONST" {ident "=" expression ";"}] ["TYPE" {ident "=" type ";"}]
    ///   ["VAR" {IdentList ":" type ";"}] {ProcedureDeclaration ";"}
    #[cycle(declarations)]
    fn declarations(&mut self, depth: usize) -> Result<Declarations, ParseFault>
        ensures { Answers declarations_of (forms.declarations depth) (S.state self.old.source) result (S.state self.new.source) }
    {
        let constants = self.constants(depth)?;
        let types = self.types(depth)?;
        let variables = self.variables(depth)?;
        let procedures = self.procedures(depth)?;
        Ok(Declarations {
            constants,
            types,
            variables,
            procedures,
        })
    }

    /// module = "MODULE" ident ";" declarations ["BEGIN" StatementSequence] "END" ident "."
    fn module_text(&mut self) -> Result<ModuleTree, ParseFault>
        ensures { Answers module_of forms.module_text (S.state self.old.source) result (S.state self.new.source) }
    {
        self.expect(Kind::Module)?;
        let name = self.name()?;
        let block = self.block(0, &name)?;
        self.expect(Kind::Dot)?;
        Ok(ModuleTree {
            name,
            declarations: block.declarations,
            body: block.body,
            end_name: block.end_name,
        })
    }

    /// The module that all tokens derive.
    pub(super) fn whole_module(&mut self) -> Result<ModuleTree, ParseFault>
        ensures { AnswersModule (S.state self.old.source) result (S.state self.new.source) }
    {
        let tree = self.module_text()?;
        if self.source.here().is_some() {
            return Err(self.unexpected());
        }
        Ok(tree)
    }
}
