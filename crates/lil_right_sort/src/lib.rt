//! The laws of types that a right text declares: they keep the types and names before them told, and something lies in what they declare.
#![tactic(auto)]
