//! Matched states of the meaning and the machine.
#![tactic(auto)]
