//! Formats of files as data, with the laws that hold of each, and what reads and writes their fields.
#![tactic(auto)]

mod ending;
mod fields;
mod name;
mod source;
mod stop;

pub use ending::to_end;
pub use fields::{any_byte, any_long, any_run, any_word, put_text8, put_text16, put_text32};
pub use name::{
    Wanted, is_among, name_length, put_name, put_wanted, read_name, read_name_but, read_wanted,
};
pub use source::{Source, offset, same};
pub use stop::Stop;
