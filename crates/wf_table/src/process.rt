//! Where a process stands, its registers, and the numbers of an object.

/// Where a process stands: the row of the table that its next step takes.
#[derive(Clone, Copy, PartialEq, Eq)]
pub enum Label {
    /// Takes the next call of the script; halted where there is none.
    Next,
    /// Writes the announcement of the call, word by word.
    Post,
    /// Inverts the announced toggle: from here on the call is open to all.
    Flip,
    /// Begins a round, at most two.
    Try,
    /// Reads and links the root.
    Link,
    /// Reads a word of the linked block.
    Load,
    /// Writes it to the own block.
    Store,
    /// Is the copy the root's?
    Check1,
    /// Has the own call been applied?
    Mine,
    /// Has the next process's call been applied?
    Seen,
    /// Reads that process's announcement, word by word.
    Fetch,
    /// Is the announcement that of an open call?
    Check2,
    /// Saves the variables, word by word.
    Save,
    /// Starts the body.
    Enter,
    /// One step of the body.
    Body,
    /// Brings a variable back after a trap.
    Undo,
    /// Writes status, results and toggle of the served process.
    Keep,
    /// Stores the own block as the root, if it is still linked.
    Commit,
    /// Reads the root anew.
    Read,
    /// Takes the own status and results from it, word by word.
    Take,
    /// Answers.
    Give,
}

#[derive(Clone, Copy)]
pub struct Registers {
    /// The number of the block that is read.
    pub r: usize,
    /// The word that is copied.
    pub acc: i64,
    /// The place in the loop over words.
    pub i: usize,
    /// The process that is looked at.
    pub j: usize,
    /// The number of the round, from 1; 0 before the first.
    pub round: u8,
    /// The status of the body: 0, or a trap's number.
    pub status: i64,
}

/// The numbers of an object.
#[derive(Clone, Copy)]
pub struct Sizes {
    pub processes: usize,
    /// Words of the object's variables.
    pub variables: usize,
    /// Words of a reply's values.
    pub replies: usize,
    /// Words of an announced call, the toggle apart.
    pub arguments: usize,
}
