//! The door of texts beside a module's: scripts, schedules and records, read and written.
#![tactic(auto)]

pub use ob_text_reading::{ReadRecord, RecordFault, read_record};
pub use ob_text_record::{Record, write_record};
pub use ob_text_scripts::{ScriptFault, Scripts, read_scripts};
pub use ob_text_values_reading::{ValuesFault, read_values};
pub use ob_text_words::{Item, ScheduleFault, read_schedule};
