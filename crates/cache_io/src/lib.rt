//! Where bytes come from and go to: sources and sinks that count their faults and may tell their bytes, in memory
//! and as standard input and output.
#![tactic(auto)]

mod mem;
mod sink;
mod source;
mod stdio;
mod window;

pub use mem::{MemSink, MemSource};
pub use sink::{Sink, SinkFault, write_whole};
pub use source::{Source, SourceFault, read_after};
pub use stdio::{StdSink, StdSource};
pub use window::{ReadFault, Window};
