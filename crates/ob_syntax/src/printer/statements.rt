//! The printed text of statements.

ghost use Rattle.std.specs.Prelude.{◌≡◌, ◌++◌, map, option_map, string_bytes, OnOk};
ghost use Rattle.ob_grammar.specs.View.{expr_of, stmt_of, stmts_in, branches_in};
ghost use Rattle.ob_syntax.specs.Printing.{spaced, perhaps, actual_words, stmt_words, stmts_words, branch_words, body_words};

use crate::printer::expressions::{push_expr, push_selectors};
use crate::printer::{push_name, push_separator, push_word};
use ob_grammar::tree::{Branch, Expr, Stmt};
use ob_interface::NoMemory;

/// Appends `BEGIN` and the statements of a body, where they stand.
pub(super) fn push_body(text: &mut String, body: &Option<Vec<Stmt>>) -> Result<(), NoMemory>
    ensures { OnOk result (string_bytes text.new ≡ string_bytes text.old ++ spaced (body_words (option_map (λ b. stmts_in b.items) body.now))) }
{
    match body {
        None => Ok(()),
        Some(statements) => {
            push_word(text, "BEGIN")?;
            push_statements(text, statements)
        }
    }
}

/// Appends statements with semicolons between them.
#[cycle(statements)]
fn push_statements(text: &mut String, statements: &[Stmt]) -> Result<(), NoMemory>
    ensures { OnOk result (string_bytes text.new ≡ string_bytes text.old ++ spaced (stmts_words (stmts_in statements.now))) }
{
    let mut is_first = true;
    for statement in statements {
        push_separator(text, is_first, ";")?;
        push_statement(text, statement)?;
        is_first = false;
    }
    Ok(())
}

/// Appends a statement.
#[cycle(statements)]
fn push_statement(text: &mut String, statement: &Stmt) -> Result<(), NoMemory>
    ensures { OnOk result (string_bytes text.new ≡ string_bytes text.old ++ spaced (stmt_words (stmt_of statement.now))) }
{
    match statement {
        Stmt::Empty => Ok(()),
        Stmt::Assign { target, value } => {
            push_name(text, &target.name)?;
            push_selectors(text, &target.selectors)?;
            push_word(text, ":=")?;
            push_expr(text, value)
        }
        Stmt::Call { procedure, actuals } => {
            push_name(text, procedure)?;
            push_actuals(text, actuals)
        }
        Stmt::If {
            branches,
            otherwise,
            ..
        } => {
            push_word(text, "IF")?;
            push_branches(text, branches)?;
            if let Some(statements) = otherwise {
                push_word(text, "ELSE")?;
                push_statements(text, statements)?;
            }
            push_word(text, "END")
        }
        Stmt::While {
            condition,
            body,
            ..
        } => {
            push_word(text, "WHILE")?;
            push_expr(text, condition)?;
            push_word(text, "DO")?;
            push_statements(text, body)?;
            push_word(text, "END")
        }
        Stmt::Repeat {
            body,
            condition,
            ..
        } => {
            push_word(text, "REPEAT")?;
            push_statements(text, body)?;
            push_word(text, "UNTIL")?;
            push_expr(text, condition)
        }
    }
}

/// Appends actual parameters in parentheses, where they stand.
fn push_actuals(text: &mut String, actuals: &Option<Vec<Expr>>) -> Result<(), NoMemory>
    ensures { OnOk result (string_bytes text.new ≡ string_bytes text.old ++ spaced (perhaps actual_words (option_map (λ es. map expr_of es.items) actuals.now))) }
{
    let Some(actuals) = actuals else {
        return Ok(());
    };
    push_word(text, "(")?;
    let mut is_first = true;
    for actual in actuals {
        push_separator(text, is_first, ",")?;
        push_expr(text, actual)?;
        is_first = false;
    }
    push_word(text, ")")
}

/// Appends the branches of an IF, with `ELSIF` between two.
#[cycle(statements)]
fn push_branches(text: &mut String, branches: &[Branch]) -> Result<(), NoMemory>
    ensures { OnOk result (string_bytes text.new ≡ string_bytes text.old ++ spaced (branch_words (branches_in branches.now))) }
{
    let mut is_first = true;
    for branch in branches {
        push_separator(text, is_first, "ELSIF")?;
        push_expr(text, &branch.condition)?;
        push_word(text, "THEN")?;
        push_statements(text, &branch.body)?;
        is_first = false;
    }
    Ok(())
}
