//! What is said of a fault of a text: the sentences and hints, which are rows of tables, and how a fault's place is shown. A new sentence
//! is a new row. That what is said is a row of the fault's number, filled with what is known of it, is promised; which of the rows of
//! a number is given may be changed without asking.
#![tactic(auto)]

pub mod construct_rows;
pub mod explanation;
pub mod first_word;
pub mod function_rows;
pub mod groups;
pub mod kinds;
pub mod matcher;
pub mod phrases;
pub mod place;
pub mod remark;
pub mod said;
pub mod sentence_rows;
pub mod shown;
pub mod table_rows;
pub mod token_rows;
pub mod word_rows;
