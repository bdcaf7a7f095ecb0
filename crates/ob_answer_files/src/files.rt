//! Reading whole files.

ghost use Rattle.std.specs.Prelude.{List, ℕ, Result};
ghost use Rattle.std.specs.Result.{result_map_both};
ghost use Rattle.ob_answer_files.specs.declared.files.FileFault.{FileFault};
ghost use Rattle.ob_answer_files.specs.Reads.{ReadsBeginning};

use thiserror::Error;

/// Why a file gives no bytes.
#[derive(Clone, Copy, Debug, PartialEq, Eq, Error)]
pub enum FileFault {
    /// There is no such file, or it can't be read.
    #[error("cannot read")]
    Unreadable,
    /// Want of memory.
    #[error("NoMemory")]
    NoMemory,
}

/// What reads files by name.
pub trait Files {
    /// Of a read: the state before, the file's name, what was answered, and the state after.
    ghost reads: { Self → List ℕ → Result (List ℕ) FileFault → Self → Type 0 };

    /// All the bytes of a file.
    fn read(&mut self, name: &str) -> Result<Vec<u8>, FileFault>
        ensures { reads self.old name.now (result_map_both (λ v. v.items) (λ e. e) result) self.new };

    /// The first `most` bytes of a file, or all where it has fewer.
    fn read_beginning(&mut self, name: &str, most: usize) -> Result<Vec<u8>, FileFault>
        ensures { ReadsBeginning reads self.old name.now most (result_map_both (λ v. v.items) (λ e. e) result) self.new }
    {
        let mut bytes = self.read(name)?;
        bytes.truncate(most);
        Ok(bytes)
    }
}
