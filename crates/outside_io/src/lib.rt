//! Where bytes come from and where they go.
//!
//! A [`Source`] gives bytes and a [`Sink`] takes them. Both may fail, and count their faults, so
//! that a caller of several layers above can prove that a failure was answered only where one
//! happened. What is proved over any source and any sink, as [`read_all`] and [`write_all`] are,
//! holds of those in memory, whose bytes contracts know, and of the standard ones alike.
#![tactic(auto)]

mod all;
mod errors;
mod memory;
mod standard;
mod sure;
mod traits;

pub use all::{read_all, write_all};
pub use errors::{Failed, ReadError, WriteError};
pub use memory::{MemorySink, MemorySource};
pub use standard::{StdSink, StdSource};
pub use sure::{SureSink, SureSource};
pub use traits::{Sink, Source};
