//! Pictures of records that were printed before, where the call of a fault is marked; and of histories, by a legal order that is found, or up
//! to the end with which there ceases to be one.
//!
//! One may rely on the clauses of the public functions, which are in the words of `specs/`.
#![tactic(auto)]

pub mod drawn_part;
pub mod history_pictures;
pub mod marking;
pub mod picture_faults;
pub mod record_form;
pub mod record_pictures;
pub mod shown_history;

pub use history_pictures::draw_history_text;
pub use picture_faults::DrawHistoryFault;
pub use record_form::is_record_form;
pub use record_pictures::{DrawRecordFault, draw_record_text};
