// Sources and sinks in memory, that fail where they are told to, or never.

mod plan;
mod room;
mod sinks;
mod sources;
mod stock;

pub use plan::Fails;
pub use room::SINK_ROOM;
pub use sinks::{MemSink, SureSink};
pub use sources::{MemSource, SureSource};
