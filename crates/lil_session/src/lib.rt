//! The top call: compiling definitions, and reading, translating and running programs.
#![tactic(auto)]

mod definition;
mod lines;
mod options;
mod rack;
mod report;
mod run;
mod status;
mod text_run;
mod top;
mod words;

pub use lil_volume::{
    ErrorSink, FolderVolume, InputKeys, KeyFailed, Keyboard, OutputSink, RamKeys, RamSink,
    RamVolume, Sink, SinkFailed, Volume, VolumeError,
};
pub use options::Options;
pub use rack::{Channel, ChannelFailed, Rack};
pub use status::Status;
pub use text_run::once;
pub use top::lilith;
