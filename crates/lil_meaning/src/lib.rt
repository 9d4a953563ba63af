//! What programs mean: definitions alone. A state has cells, items left to do and a world, and takes one step at a time.
#![tactic(auto)]
