//! Sources and sinks that count their faults, lines and frames of what was read, numbers as bytes, and
//! the status of a run.
#![tactic(auto)]

mod fill;
mod found;
mod frame_reader;
mod framing;
mod intake;
mod line_reader;
mod memory;
mod memory_sink;
mod memory_source;
mod refusal;
mod sink;
mod source;
mod status;
mod std_sink;
mod std_source;
mod varint;
mod writing;

pub use frame_reader::FrameReader;
pub use line_reader::LineReader;
pub use memory::NoMemory;
pub use memory_sink::MemorySink;
pub use memory_source::MemorySource;
pub use refusal::ReadRefusal;
pub use sink::{Sink, SinkRefusal};
pub use source::{Source, SourceFailed};
pub use status::Status;
pub use std_sink::StdSink;
pub use std_source::StdSource;
pub use varint::{
    VarintFault, put_varint32, put_varint64, unzigzag32, unzigzag64, varint32_of, varint64_of,
    zigzag32, zigzag64,
};
pub use writing::write_all;
