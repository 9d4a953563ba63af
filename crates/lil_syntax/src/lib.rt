//! Grammars as data: what a production derives, how it is read, and one theorem for all; and the tokens that a grammar
//! takes.
#![tactic(auto)]

mod kinds;
mod operand;

pub use operand::{
    addition, chars, code, finish, multiplication, number, relation, sees_addition, sees_code,
    sees_multiplication, sees_name, sees_number, sees_relation, sees_sign, sign,
};
