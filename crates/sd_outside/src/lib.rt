//! What stands outside the program, and the small owned values that each layer hands on.
//!
//! Bytes come from a [`Cabinet`], by name, or from a [`Source`], in pieces, and go to a [`Sink`].
//! These are traits with a meaning and a count of faults, so that a layer above can be proved
//! without knowing which one it is given. The objects in memory tell what they hold. Those of the
//! host tell what the standard library says of their streams, and nothing of files under a name:
//! they are the trusted edge.
#![tactic(auto)]

mod byte_box;
mod cabinet;
mod call_plan;
mod errors;
mod host_cabinet;
mod host_sink;
mod host_source;
mod list_of;
mod memory_cabinet;
mod memory_sink;
mod memory_source;
mod sink;
mod source;
mod status;
mod text;

pub use byte_box::ByteBox;
pub use cabinet::Cabinet;
pub use errors::{Failed, FetchError, NoMemory};
pub use host_cabinet::HostCabinet;
pub use host_sink::HostSink;
pub use host_source::HostSource;
pub use list_of::{ListOf, TextList};
pub use memory_cabinet::MemCabinet;
pub use memory_sink::MemSink;
pub use memory_source::MemSource;
pub use sink::Sink;
pub use source::Source;
pub use status::Status;
pub use text::{TextBox, copy_text};
