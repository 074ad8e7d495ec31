//! Hints for forms that the grammar does not have.
use crate::context::Context;
use crate::hint::Hint;
use crate::lists::{has_word, head_of, is_among, keyword_before};
use crate::of_runs::{ARITHMETIC, TYPE, is_name};
use tokens::{Lexeme, Shape, Word};

/// What is said of several formulas where one is required.
const FORMULAS: &str = "put the formulas into one `(and ..)`";

/// What is said of several effects where one is required.
const EFFECTS: &str = "put the effects into one `(and ..)`";

/// What is said of facts with `and`, or in parentheses of their own.
const INIT: &str = "`:init` is a list of facts";

/// What to do about it.
const INIT_ADVICE: &str = "Write the facts one after another, without `and`.";

/// What is said of an effect with a condition.
const WHEN: &str = "an effect with a condition is written `(when CONDITION EFFECT)`";

/// What is said of a condition with a premise.
const IMPLY: &str = "in a condition write `(imply PREMISE CONCLUSION)`";

impl<'a> Context<'_, 'a> {
    /// What an unexpected piece with this index may mean in its list, given the words that may occur in its place.
    pub(crate) fn of_form(self, at: usize, allowed: &[Word<'_>]) -> Option<Hint<'a>> {
        let here = self.here();
        let piece = here.get(at)?;
        let before = here.get(at.saturating_sub(1))?;
        match (piece.shape(), before.shape()) {
            (Shape::Open, Shape::Open) => self.of_first_list(at),
            (Shape::Open, Shape::Run) if before.is(b"if") => {
                Some(Hint::text(if self.is_in_effect(at) { WHEN } else { IMPLY }))
            }
            (Shape::Run, Shape::Open) => self.of_head(at, piece),
            (Shape::Run, _) if has_word(allowed, b"(") => self.of_bare_words(at),
            (Shape::Run, Shape::Run) if self.word.starts_with(b":") && has_word(allowed, b"-") => {
                Some(Hint::text(TYPE))
            }
            (Shape::Run, Shape::Run) => self.of_later_word(piece, before),
            (Shape::Run, Shape::Close) => self.of_second_list(at),
            (Shape::Open, Shape::Close) => self.of_second_list(at),
            _ => None,
        }
    }

    /// The hint for a second list where one is required.
    fn of_second_list(self, at: usize) -> Option<Hint<'a>> {
        let head = head_of(self.list());
        if is_among(head, &[b":goal", b"exists"]) {
            Some(Hint::text(FORMULAS))
        } else if head.eq_ignore_ascii_case(b"not") {
            Some(Hint::text("`not` takes one formula"))
        } else if is_among(head, &[b"when", b"forall"]) {
            Some(Hint::text("put what belongs together into one `(and ..)`"))
        } else if head.eq_ignore_ascii_case(b":action") {
            self.of_lists_in_part(at)
        } else {
            None
        }
    }

    /// The hint for several lists in a part of an action, by the last keyword before them.
    fn of_lists_in_part(self, at: usize) -> Option<Hint<'a>> {
        let part = keyword_before(self.here(), at)?;
        if part.eq_ignore_ascii_case(b":precondition") {
            Some(Hint::text(FORMULAS))
        } else if part.eq_ignore_ascii_case(b":effect") {
            Some(Hint::text(EFFECTS))
        } else {
            None
        }
    }

    /// The hint for a list at the head of a list.
    fn of_first_list(self, at: usize) -> Option<Hint<'a>> {
        let outer = head_of(self.outer());
        if outer.eq_ignore_ascii_case(b":init") {
            Some(Hint::advised(INIT, INIT_ADVICE))
        } else if is_among(outer, &[b":goal", b"and", b"or", b"not", b"imply"]) {
            Some(Hint::text(FORMULAS))
        } else if outer.eq_ignore_ascii_case(b":action") {
            self.of_lists_in_part(at)
        } else {
            None
        }
    }

    /// The hint for a word at the head of a list.
    fn of_head(self, at: usize, piece: &Lexeme<'a>) -> Option<Hint<'a>> {
        let is_in_init = head_of(self.outer()).eq_ignore_ascii_case(b":init");
        if piece.is(b"-") {
            Some(Hint::text(ARITHMETIC))
        } else if is_in_init && piece.is(b"and") {
            Some(Hint::advised(INIT, INIT_ADVICE))
        } else if self.is_in_effect(at) {
            of_effect(piece)
        } else if !is_in_init && piece.is(b"when") {
            Some(Hint::text(IMPLY))
        } else if self.is_of_variables() {
            of_name(piece)
        } else {
            None
        }
    }

    /// Whether the piece with this index is in an effect.
    fn is_in_effect(self, at: usize) -> bool {
        let keyword = keyword_before(self.here(), at).unwrap_or(b"");
        keyword.eq_ignore_ascii_case(b":effect")
    }

    /// Whether the list of the fault is one of variables: the parameters of an action, the variables of a quantifier, or after its head
    /// a declaration of a predicate or a function.
    fn is_of_variables(self) -> bool {
        let Some(open) = self.open() else {
            return false;
        };
        if is_among(head_of(self.outer()), &[b":predicates", b":functions"]) {
            return !self.is_head();
        }
        match self.here().get(open.saturating_sub(1)) {
            Some(before) => is_among(before.text(), &[b":parameters", b"forall", b"exists"]),
            None => false,
        }
    }

    /// The hint for a word after another one.
    fn of_later_word(self, piece: &Lexeme<'a>, before: &Lexeme<'a>) -> Option<Hint<'a>> {
        let (word, last) = (piece.text(), before.text());
        let is_type = self.section(b":types").iter().any(|one| one.is(word));
        let is_number = word.iter().all(|byte| byte.is_ascii_digit());
        let is_in_init = head_of(self.outer()).eq_ignore_ascii_case(b":init");
        if is_number && is_in_init && before.is(b"at") {
            Some(Hint::text("facts that become true at a time (PDDL 2.2) are not supported"))
        } else if !self.is_of_variables() {
            None
        } else if last.starts_with(b"?") && last.ends_with(b"-") {
            Some(Hint::around(
                "a blank is missing before the `-` at the end of `",
                last,
                "`",
            ))
        } else if last.starts_with(b"?") && is_type {
            Some(Hint::around("a `-` is missing before the type `", word, "`"))
        } else {
            of_name(piece)
        }
    }
}

/// The hint for a word at the head of a list in an effect.
fn of_effect<'a>(piece: &Lexeme<'a>) -> Option<Hint<'a>> {
    if piece.is(b"or") {
        Some(Hint::advised(
            "an effect cannot be a choice",
            "Write an action for each choice.",
        ))
    } else if piece.is(b"exists") {
        Some(Hint::advised(
            "an effect cannot choose an object",
            "Make the variable a parameter of the action.",
        ))
    } else if piece.is(b"imply") {
        Some(Hint::text(WHEN))
    } else {
        None
    }
}

/// The hint for a word in place of a variable.
fn of_name<'a>(piece: &Lexeme<'a>) -> Option<Hint<'a>> {
    if is_name(piece.text()) {
        Some(Hint::around(
            "a variable begins with `?`; did you mean `?",
            piece.text(),
            "`?",
        ))
    } else {
        None
    }
}
