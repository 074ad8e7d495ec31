//! Sentences about unknown names (codes 14, 15, 17, 32).
use crate::context::Context;
use crate::declarations::{Declarations, TypedName, action_name};
use crate::lists::{Items, head, head_of};
use crate::near::{is_near, near};
use crate::shown::{Chain, FilePlace, Name, NameList};
use crate::texts::File;
use std::alloc::AllocError;
use tokens::Lexeme;

/// If there are at most this many known names, all are listed.
const FEW: usize = 8;

/// What an unknown name was meant to name, in the singular and in the plural.
#[derive(Clone, Copy)]
pub(crate) struct Noun(&'static str, &'static str);

/// An object or a constant.
pub(crate) const OBJECT: Noun = Noun("object", "objects");

const TYPE: Noun = Noun("type", "types");

const VARIABLE: Noun = Noun("variable in scope", "variables in scope");

const PREDICATE: Noun = Noun("predicate", "predicates");

const FUNCTION: Noun = Noun("function", "functions");

const ACTION: Noun = Noun("action", "actions");

impl Context<'_, '_> {
    /// Says that no known name is the reported word, and which of them may be meant: those that are similar, or all if they are few.
    fn add_unknown(self, noun: Noun, known: &[&[u8]], out: &mut String) -> Result<(), AllocError> {
        let Noun(one, many) = noun;
        write!(out, "no {one} is called {}", Name(self.word))?;
        let names = near(self.alloc, self.word, known)?;
        if !names.is_empty() {
            let (names, last) = (names.as_slice(), " or ");
            return write!(out, "; did you mean {}?", NameList { names, last });
        }
        let last = " and ";
        match known {
            [only] => write!(out, "; the only {one} is {}.", Name(only)),
            [_, ..] if known.len() <= FEW => {
                let names = known;
                write!(out, "; the {many} are {}.", NameList { names, last })
            }
            _ => out.push_str("."),
        }
    }

    /// Names the types that may be meant by an unknown one.
    pub(crate) fn add_unknown_type(self, out: &mut String) -> Result<(), AllocError> {
        let mut known = Vec::new(self.alloc);
        Declarations::after_head(self.section(b":types")).add_names(&mut known)?;
        self.add_unknown(TYPE, &known, out)
    }

    /// Whether an unknown type is the parent of another, and no declared type is similar.
    pub(crate) fn is_parent(self) -> bool {
        let is_in_types = head_of(self.list()).eq_ignore_ascii_case(b":types");
        is_in_types
            && !Declarations::after_head(self.list()).any(|one| is_near(self.word, one.name.text()))
    }

    /// Names the predicates, functions, variables or objects that may be meant by an unknown name.
    pub(crate) fn add_unknown_name(self, out: &mut String) -> Result<(), AllocError> {
        if self.open().is_none() {
            Ok(())
        } else if self.is_variable() {
            self.add_unknown_variable(out)
        } else if !self.is_head() {
            self.add_unknown_object(out)
        } else {
            self.add_unknown_head(out)
        }
    }

    /// Names the object with the name of an unknown variable, if there is one; otherwise the variables that may be meant.
    fn add_unknown_variable(self, out: &mut String) -> Result<(), AllocError> {
        match self.object(self.word.get(1..).unwrap_or(b"")) {
            Some(object) => write!(
                out,
                "no variable in scope is called {}; did you mean {}, without `?`?",
                Name(self.word),
                Name(object.name.text())
            ),
            None => self.add_unknown_term(VARIABLE, out),
        }
    }

    /// Names the variable of that name; or where the problem declares an object that the domain names; otherwise the objects that may be
    /// meant.
    fn add_unknown_object(self, out: &mut String) -> Result<(), AllocError> {
        let variables = self.variables()?;
        if let Some(variable) = variable_named(&variables, self.word) {
            return write!(
                out,
                "no object is called {}; did you mean the variable {}?",
                Name(self.word),
                Name(variable)
            );
        }
        match self.objects().named(self.word) {
            Some(object) if self.fault.file == File::Domain => {
                let place = FilePlace::of(self.texts, File::Problem, object.name.span().start);
                write!(
                    out,
                    "{} is an object of the problem, declared at {place}; a domain can use only its own constants.",
                    Name(self.word)
                )
            }
            _ => self.add_unknown_term(OBJECT, out),
        }
    }

    /// Names what may be meant by an unknown term: the variables in scope if it is a variable, otherwise the objects.
    pub(crate) fn add_unknown_term(self, noun: Noun, out: &mut String) -> Result<(), AllocError> {
        let mut known = Vec::new(self.alloc);
        if self.is_variable() {
            let variables = self.variables()?;
            for one in variables.as_slice() {
                known.push(one.name.text())?;
            }
        } else {
            self.constants().add_names(&mut known)?;
            if self.fault.file != File::Domain {
                self.objects().add_names(&mut known)?;
            }
        }
        self.add_unknown(noun, &known, out)
    }

    /// Names the functions or predicates that may be meant by the unknown head of a list.
    fn add_unknown_head(self, out: &mut String) -> Result<(), AllocError> {
        let noun = if self.is_function() {
            FUNCTION
        } else {
            PREDICATE
        };
        let mut known = Vec::new(self.alloc);
        for item in Items::of(self.heads_declared()) {
            if let Some(head) = head(item) {
                known.push(head.text())?;
            }
        }
        self.add_unknown(noun, &known, out)
    }

    /// Names the actions that may be meant by an unknown one.
    pub(crate) fn add_unknown_action(self, out: &mut String) -> Result<(), AllocError> {
        let mut known = Vec::new(self.alloc);
        for item in Items::of(self.domain()) {
            if let Some(name) = action_name(item) {
                known.push(name.text())?;
            }
        }
        self.add_unknown(ACTION, &known, out)
    }

    /// Shows the chain of parents of a type, from the type itself up to the first repetition.
    pub(crate) fn add_type_cycle(self, out: &mut String) -> Result<(), AllocError> {
        let types = self.section(b":types");
        let mut chain = Vec::new(self.alloc);
        let mut current = self.word;
        for _ in types {
            chain.push(current)?;
            let Some(parent) = parent_of(types, current) else {
                return Ok(());
            };
            current = parent;
            if current.eq_ignore_ascii_case(self.word) {
                break;
            }
        }
        chain.push(current)?;
        let chain = Chain(&chain);
        write!(out, "{} is its own ancestor: {chain}.", Name(self.word))
    }
}

/// The first of these variables that has this name after its `?`.
fn variable_named<'a>(variables: &[TypedName<'_, 'a>], name: &[u8]) -> Option<&'a [u8]> {
    for one in variables {
        match one.name.text() {
            [b'?', rest @ ..] if rest.eq_ignore_ascii_case(name) => return Some(one.name.text()),
            _ => {}
        }
    }
    None
}

/// The parent that the declarations of types give this one, if it has one.
pub(crate) fn parent_of<'a>(types: &[Lexeme<'a>], name: &[u8]) -> Option<&'a [u8]> {
    let declared = Declarations::after_head(types).named(name)?;
    Some(declared.types.first()?.text())
}
