//! The laws of right texts, in which no test finds a fault: what the check knows of their types is what their values are.
#![tactic(auto)]
