//! What the lines of records and histories are made of, read: words, names of calls, texts of values, lines of variables; the kinds of
//! lines; and what a text tells of all variables.
#![tactic(auto)]

pub mod comments;
pub mod id;
pub mod kind;
pub mod laws;
pub mod line_words;
pub mod lines;
pub mod said_number;
pub mod splitting;
pub mod taken_names;
pub mod text_beginning;
pub mod title;
pub mod value_reading;
pub mod value_texts;
pub mod variables;
pub mod written_values;

pub use value_reading::{ValuesFault, read_values};
