//! A fault among the pieces of the texts, and what is declared there.
use crate::declarations::{Declarations, TypedName, action_name, in_scope, parameters, section};
use crate::lists::{Items, head_of, index_at, is_among, item_at, opening_of, pieces};
use crate::refusal::{FileRefusal, reported_bytes};
use crate::texts::{File, NamedTexts};
use faults::{Code, NoMemory};
use std::alloc::{AllocError, Global};
use tokens::Lexeme;

/// The pieces of the texts of a task and a plan.
#[derive(Drop)]
pub struct CutTexts<'a> {
    domain: Vec<Lexeme<'a>>,
    problem: Vec<Lexeme<'a>>,
    plan: Vec<Lexeme<'a>>,
}

impl<'a> CutTexts<'a> {
    /// The pieces that help with a fault of this code, and with others of its phase; none if none help.
    ///
    /// # Errors
    /// An allocation failed.
    pub fn of(alloc: Global, texts: &NamedTexts<'a>, code: Code) -> Result<CutTexts<'a>, NoMemory> {
        if is_of_lists(code) {
            Ok(CutTexts {
                domain: pieces(alloc, texts.domain.text)?,
                problem: pieces(alloc, texts.problem.text)?,
                plan: pieces(alloc, texts.plan.text)?,
            })
        } else {
            Ok(CutTexts {
                domain: Vec::new(alloc),
                problem: Vec::new(alloc),
                plan: Vec::new(alloc),
            })
        }
    }

    /// The pieces of a file.
    pub fn of_file(&self, file: File) -> &[Lexeme<'a>] {
        match file {
            File::Domain => &self.domain,
            File::Problem => &self.problem,
            File::Plan => &self.plan,
        }
    }
}

/// Whether what helps with a fault of this code, and with others of its phase, is found in the lists of the texts.
fn is_of_lists(code: Code) -> bool {
    match code {
        Code::BadByte | Code::BadWord | Code::TooDeep | Code::TooLong => false,
        Code::UnknownSection | Code::UnknownRequirement | Code::NumberTooLarge => false,
        Code::TimedStep => false,
        _ => true,
    }
}

/// A fault among the pieces of the texts.
#[derive(Clone, Copy)]
pub struct Context<'w, 'a> {
    /// Supplies memory.
    pub(crate) alloc: Global,
    /// The texts.
    pub(crate) texts: &'w NamedTexts<'a>,
    /// Their pieces.
    pieces: &'w CutTexts<'a>,
    /// The fault.
    pub(crate) fault: FileRefusal,
    /// The bytes that it is reported for.
    pub word: &'a [u8],
}

impl<'w, 'a> Context<'w, 'a> {
    /// The fault of these texts, given their pieces.
    pub fn of(
        alloc: Global,
        texts: &'w NamedTexts<'a>,
        pieces: &'w CutTexts<'a>,
        fault: FileRefusal,
    ) -> Context<'w, 'a> {
        Context {
            alloc,
            texts,
            pieces,
            fault,
            word: reported_bytes(texts, fault),
        }
    }

    /// The pieces of the file at fault.
    pub(crate) fn here(self) -> &'w [Lexeme<'a>] {
        self.pieces.of_file(self.fault.file)
    }

    /// The pieces of the domain.
    pub(crate) fn domain(self) -> &'w [Lexeme<'a>] {
        self.pieces.of_file(File::Domain)
    }

    /// The index of the piece that the fault is reported for.
    pub(crate) fn at(self) -> Option<usize> {
        index_at(self.here(), self.fault.span.start)
    }

    /// The index of the `(` of the list that contains this piece.
    pub(crate) fn open(self) -> Option<usize> {
        opening_of(self.here(), self.at()?)
    }

    /// The list that contains this piece, with its parentheses; empty if it is in none.
    pub(crate) fn list(self) -> &'w [Lexeme<'a>] {
        list_at(self.here(), self.open())
    }

    /// The list around that one; empty if there is none.
    pub(crate) fn outer(self) -> &'w [Lexeme<'a>] {
        list_at(self.here(), self.outer_open())
    }

    /// The list around the outer one; empty if there is none.
    pub(crate) fn outermost(self) -> &'w [Lexeme<'a>] {
        let open = match self.outer_open() {
            Some(open) => opening_of(self.here(), open),
            None => None,
        };
        list_at(self.here(), open)
    }

    /// The index of the `(` of the outer list.
    fn outer_open(self) -> Option<usize> {
        opening_of(self.here(), self.open()?)
    }

    /// Whether the piece is a variable.
    pub(crate) fn is_variable(self) -> bool {
        self.word.starts_with(b"?")
    }

    /// Whether a piece of the file at fault is the reported word, before the fault.
    pub(crate) fn is_earlier(self, piece: &Lexeme<'a>) -> bool {
        piece.is(self.word) && piece.span().start < self.fault.span.start
    }

    /// Whether the piece comes first in its list.
    pub(crate) fn is_head(self) -> bool {
        match (self.at(), self.open()) {
            (Some(at), Some(open)) => open.saturating_add(1) == at,
            _ => false,
        }
    }

    /// The domain's section with this keyword.
    pub(crate) fn section(self, keyword: &[u8]) -> &'w [Lexeme<'a>] {
        section(self.domain(), keyword)
    }

    /// The domain's constants.
    pub(crate) fn constants(self) -> Declarations<'w, 'a> {
        Declarations::after_head(self.section(b":constants"))
    }

    /// The objects of the problem.
    pub(crate) fn objects(self) -> Declarations<'w, 'a> {
        let problem = self.pieces.of_file(File::Problem);
        Declarations::after_head(section(problem, b":objects"))
    }

    /// The object of this name that the file at fault may name: a constant, or outside the domain an object of the problem.
    pub(crate) fn object(self, name: &[u8]) -> Option<TypedName<'w, 'a>> {
        match self.constants().named(name) {
            None if self.fault.file != File::Domain => self.objects().named(name),
            found => found,
        }
    }

    /// The variables in scope at the piece, those of the innermost list first.
    pub(crate) fn variables(self) -> Result<Vec<TypedName<'w, 'a>>, AllocError> {
        match self.at() {
            Some(at) => in_scope(self.alloc, self.here(), at),
            None => Ok(Vec::new(self.alloc)),
        }
    }

    /// Whether the list that contains the piece is a function of objects: it follows `(total-cost)` in an increase, or the `=` of
    /// a value in `:init`.
    pub(crate) fn is_function(self) -> bool {
        is_among(head_of(self.outer()), &[b"increase", b"="])
    }

    /// The domain's section that declares the head of the list.
    pub(crate) fn heads_declared(self) -> &'w [Lexeme<'a>] {
        self.section(if self.is_function() {
            b":functions"
        } else {
            b":predicates"
        })
    }

    /// The parameters in the declaration that the list of the fault, an atom or a step, refers to, if there is one.
    pub(crate) fn parameters(self) -> Option<Declarations<'w, 'a>> {
        let name = head_of(self.list());
        if self.fault.file == File::Plan {
            return Some(parameters(action_named(self.domain(), name)?));
        }
        match section(self.heads_declared(), name) {
            [] => None,
            declaration => Some(Declarations::after_head(declaration)),
        }
    }
}

/// The list whose `(` has this index; empty without one.
fn list_at<'w, 'a>(pieces: &'w [Lexeme<'a>], open: Option<usize>) -> &'w [Lexeme<'a>] {
    match open {
        Some(open) => item_at(pieces, open),
        None => &pieces[..0],
    }
}

/// The action of a domain with this name.
fn action_named<'w, 'a>(domain: &'w [Lexeme<'a>], name: &[u8]) -> Option<&'w [Lexeme<'a>]> {
    for item in Items::of(domain) {
        if action_name(item).is_some_and(|piece| piece.is(name)) {
            return Some(item);
        }
    }
    None
}
