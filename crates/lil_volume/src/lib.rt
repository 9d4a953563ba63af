//! The outside: a volume of files, a keyboard and sinks, each kept in memory or by the host.
#![tactic(auto)]

mod folder;
mod outside;
mod ram_keys;
mod ram_sink;
mod ram_volume;
mod schedule;
mod streams;

pub use folder::FolderVolume;
pub use outside::{KeyFailed, Keyboard, Sink, SinkFailed, Volume, VolumeError};
pub use ram_keys::RamKeys;
pub use ram_sink::RamSink;
pub use ram_volume::RamVolume;
pub use streams::{ErrorSink, InputKeys, OutputSink};
