//! What every crate of Pirtwald speaks of: names, line numbers and lists; tags, gates and the events of
//! runs, with their text; and the outside, as files and sinks, with both of them in memory for tests.
#![tactic(auto)]

pub mod event;
pub mod event_text;
mod fault_plan;
pub mod files;
pub mod laws;
mod limit;
pub mod memory_files;
pub mod memory_sink;
pub mod name;
pub mod sequence;
pub mod sink;
pub mod stack;
pub mod tag;

pub use event::{End, Event, Events, GateName};
pub use files::{Failed, Files};
pub use limit::SOURCE_LIMIT;
pub use memory_files::MemoryFiles;
pub use memory_sink::MemorySink;
pub use name::{LineNo, Name, Names};
pub use sequence::{Sequence, TextBytes};
pub use sink::{Sink, write_all};
pub use stack::Stack;
pub use tag::Tag;
