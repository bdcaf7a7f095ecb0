//! The text of code.

ghost use Rattle.std.specs.Prelude.{◌≡◌, ◌<◌, ◌+◌, ◌-◌, ◌++◌, length, drop, IfOk, OnOk, codes, map, string_bytes, slice_get};
ghost use Rattle.std.specs.List.{flat_map};
ghost use Rattle.std.specs.Fmt.{signed_decimal};
ghost use Rattle.ob_object_compile.specs.Listing as Listing;

use itoa::{Buffer, Integer};
use ob_code_machine::{Code, Instr};
use ob_interface::NoMemory;
use std::alloc::{AllocError, Global};

/// The text of code whose procedures have these names: of each procedure `PROCEDURE` and its name, and
/// then each of its instructions as place, name and operands.
pub fn list(alloc: Global, code: &Code, names: &[String]) -> Result<String, NoMemory>
    ensures { IfOk result (λ text. string_bytes text ≡ Listing.listing code.now.instructions code.now.entries (map string_bytes names.now)) }
{
    let mut text = String::new(alloc);
    for (k, name) in names.iter().enumerate() {
        push_procedure(&mut text, code, k, name.as_str())?;
    }
    Ok(text)
}

/// Appends the heading and the lines of a procedure, where there is one of this number.
fn push_procedure(
    text: &mut String,
    code: &Code,
    procedure: usize,
    name: &str,
) -> Result<(), AllocError>
    ensures { OnOk result (string_bytes text.new ≡ string_bytes text.old ++ Listing.procedure_text code.now.instructions (drop procedure code.now.entries) name.now) }
{
    match code.entry(procedure) {
        Some(entry) => {
            push_heading(text, name)?;
            push_lines(text, code, usize::from(entry), end_of(code, procedure))
        }
        None => Ok(()),
    }
}

/// Where a procedure ends: at the next one, or at the end of the code.
fn end_of(code: &Code, procedure: usize) -> usize
    requires { procedure < length code.now.entries }
    ensures { result ≡ Listing.end_of (drop (procedure + 1) code.now.entries) (length code.now.instructions) }
{
    let entries = code.entries();
    let count = entries.len();
    if procedure + 1 < count {
        return usize::from(entries[procedure + 1]);
    }
    code.instructions().len()
}

/// Appends the heading of a procedure.
fn push_heading(text: &mut String, name: &str) -> Result<(), AllocError>
    ensures { OnOk result (string_bytes text.new ≡ string_bytes text.old ++ Listing.heading_line name.now) }
{
    text.push_str("PROCEDURE ")?;
    text.push_str(name)?;
    text.push_str("\n")
}

/// Appends the lines of the instructions between two places.
fn push_lines(text: &mut String, code: &Code, from: usize, to: usize) -> Result<(), AllocError>
    ensures { OnOk result (string_bytes text.new ≡ string_bytes text.old ++ Listing.lines_from code.now.instructions from (to - from)) }
{
    for place in from..to {
        push_line_at(text, code, place)?;
    }
    Ok(())
}

/// Appends the line of the instruction at a place, where there is one.
fn push_line_at(text: &mut String, code: &Code, place: usize) -> Result<(), AllocError>
    ensures { OnOk result (string_bytes text.new ≡ string_bytes text.old ++ Listing.line_at place (slice_get code.now.instructions place)) }
{
    match code.instruction(place) {
        Some(instr) => push_line(text, place, instr),
        None => Ok(()),
    }
}

/// Appends the line of an instruction.
fn push_line(text: &mut String, place: usize, instr: Instr) -> Result<(), AllocError>
    ensures { OnOk result (string_bytes text.new ≡ string_bytes text.old ++ Listing.instruction_line place instr) }
{
    push_number(text, place)?;
    text.push_str(" ")?;
    text.push_str(mnemonic(instr))?;
    push_operands(text, instr)?;
    text.push_str("\n")
}

fn mnemonic(instr: Instr) -> &'static str
    ensures { result.now ≡ Listing.mnemonic instr }
{
    match instr {
        Instr::Literal { .. } => "LIT",
        Instr::Global { .. } => "GLOB",
        Instr::Local { .. } => "LOC",
        Instr::Field { .. } => "FLD",
        Instr::Index { .. } => "IDX",
        Instr::Get => "GET",
        Instr::Put => "PUT",
        Instr::Add => "ADD",
        Instr::Subtract => "SUB",
        Instr::Multiply => "MUL",
        Instr::Divide => "DIV",
        Instr::Modulo => "MOD",
        Instr::Negate => "NEG",
        Instr::Not => "NOT",
        Instr::Equal => "EQ",
        Instr::NotEqual => "NE",
        Instr::Less => "LT",
        Instr::LessOrEqual => "LE",
        Instr::Greater => "GT",
        Instr::GreaterOrEqual => "GE",
        Instr::Jump { .. } => "JMP",
        Instr::JumpIfFalse { .. } => "JF",
        Instr::AndJump { .. } => "ANDJ",
        Instr::OrJump { .. } => "ORJ",
        Instr::Call { .. } => "CALL",
        Instr::Frame { .. } => "FRAME",
        Instr::Return => "RET",
        Instr::Turn => "TURN",
    }
}

/// Appends the operands of an instruction, each behind a space.
fn push_operands(text: &mut String, instr: Instr) -> Result<(), AllocError>
    ensures { OnOk result (string_bytes text.new ≡ string_bytes text.old ++ flat_map (λ z. codes " " ++ signed_decimal z) (Listing.operands instr)) }
{
    match instr {
        Instr::Literal { value } => push_operand(text, value),
        Instr::Global { word } => push_operand(text, i32::from(word)),
        Instr::Local { word } => push_operand(text, i32::from(word)),
        Instr::Field { offset } => push_operand(text, i32::from(offset)),
        Instr::Index {
            length,
            element_words,
        } => {
            push_operand(text, i32::from(length))?;
            push_operand(text, i32::from(element_words))
        }
        Instr::Jump { target } => push_operand(text, i32::from(target)),
        Instr::JumpIfFalse { target } => push_operand(text, i32::from(target)),
        Instr::AndJump { target } => push_operand(text, i32::from(target)),
        Instr::OrJump { target } => push_operand(text, i32::from(target)),
        Instr::Call { entry, parameters } => {
            push_operand(text, i32::from(entry))?;
            push_operand(text, i32::from(parameters))
        }
        Instr::Frame { words } => push_operand(text, i32::from(words)),
        _ => Ok(()),
    }
}

/// Appends a space and an operand.
fn push_operand(text: &mut String, operand: i32) -> Result<(), AllocError>
    ensures { OnOk result (string_bytes text.new ≡ string_bytes text.old ++ (codes " " ++ signed_decimal operand)) }
{
    text.push_str(" ")?;
    push_number(text, operand)
}

/// Appends a number in decimal digits, with a `-` where it is below 0.
fn push_number<I: Integer>(text: &mut String, number: I) -> Result<(), AllocError>
    ensures { OnOk result (string_bytes text.new ≡ string_bytes text.old ++ I.text number) }
{
    let mut buffer = Buffer::new();
    text.push_str(buffer.format(number))
}
