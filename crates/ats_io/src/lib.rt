//! A document is read to its end and a journal is written whole; a fault is told only where the device counted one.
#![tactic(auto)]

mod ends;
mod gate;
mod memory;
mod reading;
mod whole;
mod writing;

pub use ends::{Failed, Sink, Source};
pub use gate::{Gate, Moment, NoGate};
pub use memory::{Fails, MemSink, MemSource, SINK_ROOM, SureSink, SureSource};
pub use reading::Reading;
pub use whole::{ReadAll, WriteFault, read_all, write_all};
pub use writing::Writing;
