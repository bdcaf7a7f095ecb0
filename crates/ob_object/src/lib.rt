//! The door of the shared object: from the text of a module to the object, and from the texts of a run to its record.
#![tactic(auto)]

pub use ob_carry::carrying::{CarryFault, carry};
pub use ob_carry::fields_by_name::{NamedField, NamedValue};
pub use ob_code_engine::CodeEngine;
pub use ob_interface::call::{Call, Reply};
pub use ob_object_calls::{
    Details, SeqTextFault, VerifyFault, check_text, seq_asked, seq_asked_told, seq_text,
    verify_text,
};
pub use ob_object_compile::{
    Asked, Beginning, CompileFault, Object, TreeObject, compile, compile_asked, compile_from,
    compile_tree, list_text,
};
pub use ob_object_draw::{DrawRecordFault, draw_record_text};
pub use ob_object_perform::{
    DrawFault, PerformFault, Texts, draw_text, perform, perform_from, perform_tree, run_text,
    run_tree_text,
};
pub use ob_object_run::{OrderFault, check_order};
pub use ob_object_twice::{Turn, perform_twice};
pub use ob_text_record::Record;
