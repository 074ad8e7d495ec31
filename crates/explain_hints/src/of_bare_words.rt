//! Hints for words without the parentheses around them, and for a `)` that is missing before a section.
use crate::context::Context;
use crate::hint::Hint;
use crate::line::line_at;
use crate::lists::{head_of, is_among, keyword_before};
use crate::of_runs::is_name;
use crate::refusal::reported_bytes;
use faults::RefusalIn;
use tokens::Shape;

/// The parts of an action.
static PARTS: [&[u8]; 3] = [b":parameters", b":precondition", b":effect"];

/// Places of lists of variables.
static OF_VARIABLES: [&[u8]; 3] = [b":parameters", b"forall", b"exists"];

/// Places of lists that have no names after their heads.
static OF_HEADS: [&[u8]; 4] = [b":predicates", b":functions", b":metric", b"increase"];

const FUNCTION: &str = "functions are written in parentheses: `(";

const VARIABLES: &str = "put the variables in parentheses: `(";

/// Places where lists are required, and the texts around the words of such a list.
static PLACES: [(&[u8], &str, &str); 9] = [
    (b":predicates", "each predicate is a list: `(", ")`"),
    (b":functions", "each function is a list: `(", ")`"),
    (b":parameters", "parameters are in parentheses: `(", ")`"),
    (b"forall", VARIABLES, ")`"),
    (b"exists", VARIABLES, ")`"),
    (b":metric", FUNCTION, ")`"),
    (b"increase", FUNCTION, ")`"),
    (b"=", FUNCTION, ")`"),
    (b"not", "write `(not (", "))`"),
];

impl<'a> Context<'_, 'a> {
    /// The hint for a section, or for a part of an action, inside a list that cannot contain it.
    pub(crate) fn of_begun_inside(self, at: usize) -> Option<Hint<'a>> {
        let before = self.here().get(at.saturating_sub(1))?;
        let first = self.here().get(at)?;
        let keyword = if first.shape() == Shape::Open {
            self.here().get(at.saturating_add(1))?.text()
        } else {
            self.word
        };
        let is_list = first.shape() == Shape::Open || before.shape() == Shape::Open;
        let is_part = is_among(keyword, &PARTS);
        if is_part == is_list || !keyword.starts_with(b":") || before.text().starts_with(b":") {
            None
        } else {
            Some(Hint::around("a `)` may be missing before `", keyword, "`"))
        }
    }

    /// The hint for words where a list is required, from the piece with this index on.
    pub(crate) fn of_bare_words(self, at: usize) -> Option<Hint<'a>> {
        let place = self.list_place(at)?;
        let next = self.here().get(at.saturating_add(1))?;
        if is_among(place, &OF_VARIABLES) != self.is_variable() || !is_head(self.word) {
            return None;
        }
        if next.shape() == Shape::Open && !self.is_variable() {
            return Some(Hint::around("write `(", self.word, " ..)`, with parentheses"));
        }
        let words = self.words_from(at, place)?;
        match PLACES.iter().find(|one| place.eq_ignore_ascii_case(one.0)) {
            Some((_, before, after)) => Some(Hint::around(before, words, after)),
            None => Some(Hint::around("write `(", words, ")`, with parentheses")),
        }
    }

    /// The place of the piece with this index: the head of its list, or in an action the keyword before it.
    fn list_place(self, at: usize) -> Option<&'a [u8]> {
        let head = head_of(self.list());
        if head.eq_ignore_ascii_case(b":action") {
            keyword_before(self.here(), at)
        } else {
            Some(head)
        }
    }

    /// The words from the piece with this index on, in its line, that belong into one list of this place.
    fn words_from(self, at: usize, place: &[u8]) -> Option<&'a [u8]> {
        let mut span = self.fault.span;
        let line = line_at(self.texts.text(self.fault.file), span.start);
        for piece in self.here().get(at.saturating_add(1)..)? {
            if line.end < piece.span().start || !goes_on(piece.text(), place) {
                break;
            }
            span.end = piece.span().end;
        }
        let (file, code) = (self.fault.file, self.fault.code);
        Some(reported_bytes(self.texts, RefusalIn { file, code, span }))
    }
}

/// Whether a word can be the first of a list: a variable, `=`, or a name but the type of functions.
fn is_head(word: &[u8]) -> bool {
    let is_named = is_name(word) && !word.eq_ignore_ascii_case(b"number");
    is_named || word.starts_with(b"?") || word == b"=".as_slice()
}

/// Whether a word can go on with a list of this place.
fn goes_on(word: &[u8], place: &[u8]) -> bool {
    let is_later = is_name(word) || word == b"-".as_slice();
    word.starts_with(b"?") || (is_later && !is_among(place, &OF_HEADS))
}
