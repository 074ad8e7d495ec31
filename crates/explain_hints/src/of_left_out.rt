//! Hints for parts of PDDL that are left out.
use crate::context::Context;
use crate::hint::{Hint, Sentence};
use crate::lists::{head_of, is_among};
use crate::near::is_near;

impl<'a> Context<'_, 'a> {
    /// Which part of PDDL the reported word belongs to, and a way round.
    pub(crate) fn of_left_out(self) -> Option<Hint<'a>> {
        let word = self.word;
        let is = |name: &[u8]| word.eq_ignore_ascii_case(name);
        if is_among(word, &[b":durative-action", b":duration", b":condition"]) {
            Some(Hint::advised(
                "durations (PDDL 2.1) are not supported",
                "If steps need not overlap, use `:action` with `(increase (total-cost) 10)` for a duration of 10.",
            ))
        } else if is_among(word, &[b":derived", b":axiom"]) {
            Some(Hint::text("derived predicates (PDDL 2.2) are not supported"))
        } else if is(b":constraints") {
            Some(Hint::text("constraints on trajectories (PDDL 3) are not supported"))
        } else if is(b"preference") {
            Some(Hint::advised(
                "preferences (PDDL 3) are not supported",
                "For each, add an action that gives it up, with its penalty as the cost.",
            ))
        } else if is(b"maximize") {
            Some(Hint::advised(
                "nothing can be maximized; the only metric is `minimize (total-cost)`",
                "Minimize what is lost: for each gain, add an action that gives it up, with its worth as the cost.",
            ))
        } else if is(b"when") {
            Some(Hint::advised(
                "a `when` cannot contain another one",
                "Join the conditions: `(when (and ..) ..)`.",
            ))
        } else if is(b"forall") {
            Some(Hint::advised(
                "a `when` cannot contain a `forall`",
                "Put the `forall` around the `when`.",
            ))
        } else {
            self.of_numbers()
        }
    }

    /// The same for a word about numbers.
    fn of_numbers(self) -> Option<Hint<'a>> {
        let word = self.word;
        if is_among(word, &[b"assign", b"decrease", b"scale-up", b"scale-down"]) {
            let text = "` is not supported: only the total cost changes, by `increase`";
            return Some(Hint {
                message: Some(Sentence::Around("`", word, text)),
                advice: Some(
                    "If a number has few values, declare an object for each, and a predicate for the one that holds.",
                ),
            });
        }
        let head = head_of(self.outer());
        let is_metric = head.eq_ignore_ascii_case(b":metric");
        if !is_metric && !head.eq_ignore_ascii_case(b"increase") {
            None
        } else if is_near(word, b"total-cost") {
            Some(Hint::text("did you mean `total-cost`?"))
        } else if is_metric {
            Some(Hint::advised(
                "only `(total-cost)` can be minimized",
                "Rename the function, or leave out the metric: each step then costs 1.",
            ))
        } else {
            Some(Hint::advised(
                "only `(total-cost)` can be increased",
                "Other numbers never change: leave the effect out.",
            ))
        }
    }
}
