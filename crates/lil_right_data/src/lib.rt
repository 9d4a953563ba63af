//! The laws of the data of right texts: each of their types has a shape, and their variables and strings have room.
#![tactic(auto)]
