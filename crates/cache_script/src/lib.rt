//! The text of a script: its commands one after another, read from a source, and what is printed of a refusal, of a
//! record and of a finding.
#![tactic(auto)]

mod command;
mod findings;
mod first_command;
mod front;
mod laws;
mod lines;
mod reader;
mod reading;
mod records;
mod refusals;
mod room;

pub use command::Command;
pub use findings::finding_text;
pub use laws::{bytes_have_commands, commands_are_one, none_begins_another};
pub use reader::{Reader, ScriptFault};
pub use records::{extend_record, record_text};
pub use refusals::refusal_text;
