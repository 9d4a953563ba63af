//! The laws of right texts: expressions in which no test finds a fault have values and forms.
#![tactic(auto)]
