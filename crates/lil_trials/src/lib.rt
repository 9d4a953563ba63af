//! Tests by calls: of single crates by their public functions, and of whole commands, from the words to the screen, the
//! report and the answer, where the built program can't be made to do it. What it can do stands in tests/ at the top. A
//! crate with tests of its own would be proved twice.
#![tactic(auto)]

#[cfg(test)]
mod asm;
#[cfg(test)]
mod base;
#[cfg(test)]
mod book;
#[cfg(test)]
mod commands;
#[cfg(test)]
mod definitions;
#[cfg(test)]
mod kernel;
#[cfg(test)]
mod mcode;
#[cfg(test)]
mod tour;
#[cfg(test)]
mod volume;
