//! Code: instructions, and of each procedure the place where it begins.

ghost use Rattle.std.specs.Prelude.{◌≡◌, ◌<◌, ◌≤◌, ◌↔◌, [], ◌∷◌, ◌++◌, length, slice_get, slice_set, IfOk, OnOk, OnErr, OnSome};

use crate::fault::CodeFault;
use ob_code_words::instr::Instr;
use ob_interface::NoMemory;
use std::alloc::Global;
use std::marker::Model;

/// At most 65,535 instructions, and of each procedure its entry, the place of its first instruction,
/// in the order of their headings.
#[derive(Drop)]
pub struct Code {
    instructions: Vec<Instr>,
    entries: Vec<u16>,
}

impl Model for Code {
    ghost use Rattle.std.specs.Prelude.{◌≤◌, length};
    ghost use Rattle.ob_code_machine.specs.Code.{CodeParts};

    ghost Value = { CodeParts };

    ghost view = { λ c. record { instructions = c.instructions.items; entries = c.entries.items } };

    ghost invariant = { λ c. length c.instructions.items ≤ 65535 };
}

impl Code {
    ghost use Rattle.ob_code_machine.specs.declared.fault.CodeFault as CodeFault;

    /// Equal code.
    pub fn copy(&self, alloc: Global) -> Result<Code, NoMemory>
        ensures { IfOk result (λ c. c ≡ self.now) }
    {
        Ok(Code {
            instructions: Vec::from_slice(alloc, self.instructions.as_slice())?,
            entries: Vec::from_slice(alloc, self.entries.as_slice())?,
        })
    }

    /// The most instructions.
    pub const LIMIT: usize = 65535;

    /// Code without instructions and procedures.
    pub fn new(alloc: Global) -> Code
        ensures instructions { result.instructions ≡ [] }
        ensures entries { result.entries ≡ [] }
    {
        Code {
            instructions: Vec::new(alloc),
            entries: Vec::new(alloc),
        }
    }

    /// The place behind the last instruction.
    pub fn end(&self) -> u16
        ensures { result ≡ length self.now.instructions }
    {
        self.instructions.len() as u16
    }

    /// Adds an instruction at the end.
    pub fn push(&mut self, instr: Instr) -> Result<(), CodeFault>
        ensures ok { OnOk result (self.new ≡ record self.old { instructions = self.old.instructions ++ instr ∷ [] }) }
        ensures too_long { (result ≡ Err CodeFault.TooLong) ↔ (length self.old.instructions ≡ 65535) }
        ensures err { OnErr result (self.new ≡ self.old) }
    {
        if self.instructions.len() >= Code::LIMIT {
            return Err(CodeFault::TooLong);
        }
        self.instructions.push(instr)?;
        Ok(())
    }

    /// Puts another instruction at a place, as where a jump learns its target.
    pub fn set(&mut self, place: u16, instr: Instr)
        requires { place < length self.old.instructions }
        ensures { self.new ≡ record self.old { instructions = slice_set self.old.instructions place instr } }
    {
        self.instructions[usize::from(place)] = instr;
    }

    /// The next procedure begins at the end.
    pub fn begin_procedure(&mut self) -> Result<(), CodeFault>
        ensures ok { OnOk result (self.new ≡ record self.old { entries = self.old.entries ++ length self.old.instructions ∷ [] }) }
        ensures memory { OnErr result (result ≡ Err CodeFault.NoMemory) }
        ensures err { OnErr result (self.new ≡ self.old) }
    {
        let entry = self.instructions.len() as u16;
        self.entries.push(entry)?;
        Ok(())
    }

    /// The instruction at a place.
    pub fn instruction(&self, place: usize) -> Option<Instr>
        ensures value { result ≡ slice_get self.now.instructions place }
        ensures within { OnSome result (place < 65535) }
    {
        if place < self.instructions.len() {
            return Some(self.instructions[place]);
        }
        None
    }

    /// The instructions, from place 0 on.
    pub fn instructions(&self) -> &[Instr]
        ensures value { result.now ≡ self.now.instructions }
        ensures short { length result.now ≤ 65535 }
    {
        self.instructions.as_slice()
    }

    /// The entries of the procedures.
    pub fn entries(&self) -> &[u16]
        ensures { result.now ≡ self.now.entries }
    {
        self.entries.as_slice()
    }

    /// The entry of a procedure.
    pub fn entry(&self, procedure: usize) -> Option<u16>
        ensures { result ≡ slice_get self.now.entries procedure }
    {
        if procedure < self.entries.len() {
            return Some(self.entries[procedure]);
        }
        None
    }
}
