//! Laws of words. What a function here ensures is proved; it does nothing.

ghost use Rattle.ob_code_words.specs.Laws.{DividesAll, MemoryIsOneList};

/// A quotient is rounded down, and the rest is from 0 to the divisor less one.
pub fn divides_down()
    ensures { DividesAll }
{}

/// The words that have an address are one list: the block, and the stack behind it.
pub fn memory_is_one_list()
    ensures { MemoryIsOneList }
{}
