//! The rows of operators.

ghost use Rattle.std.specs.Prelude.{◌≡◌, ◌<◌, ◌≤◌, length, drop, Some};
ghost use Rattle.lil_base.specs.Words.{Cardinal, Integer, negation, absolute};
ghost use Rattle.lil_mcode.specs.{Operators.{operator_of, comparison_of, settled}, Table.{sign_row, change_row, capital, denied, on_one, two_row, compare_row}};

use super::Processor;
use crate::arithmetic::{
    Comparison, Operator, as_word, capital_of, compares, integer, on_cardinals, on_integers,
    trap_of, truth_word,
};
use crate::machine::Event;
use lil_base::{ArithFault, abs_int, neg_int};

impl Processor {
    pub(super) fn settle(
        &mut self,
        dropped: u8,
        outcome: Result<u16, ArithFault>,
        next: u16,
    ) -> Event
        requires some { 1 ≤ dropped }
        requires there { dropped ≤ length self.old.stack }
        ensures { settled self.old next (drop dropped self.old.stack) outcome ≡ (result, self.new) }
    {
        match outcome {
            Ok(word) => {
                self.replace(dropped, word, next);
                Event::Went
            }
            Err(fault) => Event::Trap(trap_of(fault)),
        }
    }

    #[tactic(auto, using(crate::proofs::Rows::result_settled))]
    pub(super) fn cardinals(&mut self, operator: Operator, next: u16) -> Event
        ensures { two_row (operator_of operator) Cardinal next self.old self.old.stack ≡ (result, self.new) }
    {
        let Some((x, y)) = self.two() else {
            return Event::BadCode;
        };
        self.settle(2, on_cardinals(operator, x, y), next)
    }

    #[tactic(auto, using(crate::proofs::Rows::result_settled))]
    pub(super) fn integers(&mut self, operator: Operator, next: u16) -> Event
        ensures { two_row (operator_of operator) Integer next self.old self.old.stack ≡ (result, self.new) }
    {
        let Some((x, y)) = self.two() else {
            return Event::BadCode;
        };
        self.settle(2, on_integers(operator, x, y), next)
    }

    #[tactic(auto, using(crate::proofs::Rows::result_settled))]
    pub(super) fn negate(&mut self, next: u16) -> Event
        ensures { on_one self.old self.old.stack (sign_row negation next self.old) ≡ (result, self.new) }
    {
        let Some(word) = self.topmost() else {
            return Event::BadCode;
        };
        self.settle(1, as_word(neg_int(integer(word))), next)
    }

    #[tactic(auto, using(crate::proofs::Rows::result_settled))]
    pub(super) fn take_sign(&mut self, next: u16) -> Event
        ensures { on_one self.old self.old.stack (sign_row absolute next self.old) ≡ (result, self.new) }
    {
        let Some(word) = self.topmost() else {
            return Event::BadCode;
        };
        self.settle(1, as_word(abs_int(integer(word))), next)
    }

    pub(super) fn compare(&mut self, comparison: Comparison, next: u16) -> Event
        ensures { compare_row (comparison_of comparison) next self.old self.old.stack ≡ (result, self.new) }
    {
        let Some((x, y)) = self.two() else {
            return Event::BadCode;
        };
        self.replace(2, truth_word(compares(comparison, x, y)), next);
        Event::Went
    }

    pub(super) fn make_capital(&mut self, next: u16) -> Event
        ensures { on_one self.old self.old.stack (change_row capital next self.old) ≡ (result, self.new) }
    {
        let Some(word) = self.topmost() else {
            return Event::BadCode;
        };
        self.replace(1, capital_of(word), next);
        Event::Went
    }

    pub(super) fn deny(&mut self, next: u16) -> Event
        ensures { on_one self.old self.old.stack (change_row denied next self.old) ≡ (result, self.new) }
    {
        let Some(word) = self.topmost() else {
            return Event::BadCode;
        };
        self.replace(1, truth_word(word == 0), next);
        Event::Went
    }
}
