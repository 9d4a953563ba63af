//! The laws of calls in which no test finds a fault: they have values, and are statements.
#![tactic(auto)]
