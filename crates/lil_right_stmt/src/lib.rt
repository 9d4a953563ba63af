//! The laws of right statements: where no test finds a fault, they have forms.
#![tactic(auto)]
