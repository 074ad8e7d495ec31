//! Hints for common mistakes: a file's encoding, the wrong file, and how to rewrite constructs that other planners accept.
use crate::context::Context;
use crate::hint::Hint;
use crate::lists::is_among;
use crate::of_characters::of_character;
use crate::of_runs::{is_comment_elsewhere, of_run};
use crate::texts::File;
use faults::Code;
use tokens::{Lexeme, Shape, Word};

impl<'a> Context<'_, 'a> {
    /// The common mistake that explains the fault, if there is one, given the words that may occur in place of a refused one.
    pub fn hint(self, allowed: &[Word<'_>]) -> Option<Hint<'a>> {
        match self.fault.code {
            Code::BadByte => self.of_character(),
            Code::BadWord => of_run(self.word),
            Code::BadForm => self.of_unexpected(allowed),
            Code::LeftOut => self.of_left_out(),
            Code::Unbalanced | Code::Trailing if self.begins_with_list() => self.of_beginning(),
            Code::UnknownRequirement => Some(Hint::advice(
                "If the file does not use it, leave it out.",
            )),
            Code::TimedStep => Some(of_other_plan()),
            Code::PlanForm => self.of_plan(),
            _ => None,
        }
    }

    /// The sentence about the tool that can rewrite the construct, which files of competitions have and the language does not.
    pub fn rewriter(self) -> Option<&'static str> {
        if !self.is_rewritable() {
            None
        } else if self.word.eq_ignore_ascii_case(b":derived") {
            Some("`tools/ipc-files` can rewrite this, unless it is recursive.")
        } else {
            Some("`tools/ipc-files` can rewrite this.")
        }
    }

    /// Whether `tools/ipc-files` has another form for the construct.
    fn is_rewritable(self) -> bool {
        match self.fault.code {
            Code::NegativeInit | Code::Shadowed => true,
            Code::UnknownRequirement => !is_among(self.word, &REFUSED),
            Code::UnknownType => self.is_parent(),
            Code::BadWord => is_name_elsewhere(self.word),
            Code::LeftOut => is_among(self.word, &REWRITABLE),
            Code::MissingSection => self.is_action_incomplete(),
            Code::Duplicate => self.is_built_in(),
            _ => false,
        }
    }

    /// What a byte means that is not printable ASCII.
    fn of_character(self) -> Option<Hint<'a>> {
        of_character(self.texts.text(self.fault.file), self.fault.span.start)
    }

    /// What an unexpected word may mean.
    fn of_unexpected(self, allowed: &[Word<'_>]) -> Option<Hint<'a>> {
        if self.here().is_empty() {
            return Some(Hint::text(if self.texts.text(self.fault.file).is_empty() {
                "the file is empty"
            } else {
                "the file has only blanks and comments"
            }));
        }
        match self.at()? {
            0..=3 => self.of_beginning(),
            at => self.of_begun_inside(at).or(self.of_form(at, allowed)),
        }
    }

    /// Whether the file at fault begins with a list of at least four pieces.
    fn begins_with_list(self) -> bool {
        match self.here() {
            [first, _, _, _, ..] => first.shape() == Shape::Open,
            _ => false,
        }
    }

    /// Which file the text is, if it does not begin like this one: by its first words, `(define (domain` or `(define (problem`.
    fn of_beginning(self) -> Option<Hint<'a>> {
        match kind_of(self.here()) {
            Some(kind) if kind != self.fault.file => Some(of_swapped(kind)),
            Some(_) => None,
            None => Some(Hint::advice(
                "A domain begins with `(define (domain NAME)`, a problem with `(define (problem NAME)`.",
            )),
        }
    }

    /// What a text is that is not a plan.
    fn of_plan(self) -> Option<Hint<'a>> {
        if !self.word.is_ascii() {
            return self.of_character();
        }
        if self.texts.text(File::Plan).starts_with(b"pddl-cert ") {
            return Some(Hint::advised(
                "this is a certificate, not a plan",
                "`optplan check` reads certificates.",
            ));
        }
        if let Some(kind) = kind_of(self.here()) {
            return Some(of_swapped(kind));
        }
        let piece = self.here().get(self.at()?)?;
        if piece.shape() == Shape::Run && self.open().is_none() {
            Some(of_other_plan())
        } else {
            None
        }
    }
}

/// The file that a text is, if it begins like one.
fn kind_of(here: &[Lexeme<'_>]) -> Option<File> {
    match here {
        [_, define, _, kind, ..] if define.is(b"define") && kind.is(b"domain") => {
            Some(File::Domain)
        }
        [_, define, _, kind, ..] if define.is(b"define") && kind.is(b"problem") => {
            Some(File::Problem)
        }
        _ => None,
    }
}

/// The hint for a text that is meant for this file.
fn of_swapped<'a>(kind: File) -> Hint<'a> {
    Hint::text(match kind {
        File::Domain => "this is a domain: are the files swapped?",
        File::Problem => "this is a problem: are the files swapped?",
        File::Plan => "this is a plan: are the files swapped?",
    })
}

/// The hint for a plan as other planners write it.
fn of_other_plan<'a>() -> Hint<'a> {
    Hint::advice("`tools/plan-of` rewrites plans of other planners.")
}

/// Words that are left out and for whose constructs `tools/ipc-files` has another form.
static REWRITABLE: [&[u8]; 5] = [b":derived", b":length", b"total-time", b"forall", b"when"];

/// Requirements of parts of PDDL that `tools/ipc-files` refuses, too.
static REFUSED: [&[u8]; 5] = [
    b":durative-actions",
    b":preferences",
    b":constraints",
    b":open-world",
    b":true-negation",
];

/// Whether a run that is not a word here is a name or a number in other planners' files: it contains `#` or `.`, or begins with a
/// digit or an underscore, and begins no comment.
fn is_name_elsewhere(word: &[u8]) -> bool {
    let is_number_first = word
        .first()
        .is_some_and(|byte| byte.is_ascii_digit() || *byte == b'_');
    let is_marked = word.contains(&b'#') || word.contains(&b'.');
    is_number_first || (is_marked && !is_comment_elsewhere(word))
}
