//! What may be behind an argument of a wrong type: two arguments that are exchanged, or a declaration without a type.
use crate::context::Context;
use crate::declarations::TypedName;
use crate::of_names::parent_of;
use crate::shown::{FilePlace, Name};
use crate::texts::File;
use std::alloc::AllocError;
use tokens::Lexeme;

/// The maximum number of types looked at above one.
const HIGHEST: usize = 64;

impl<'w, 'a> Context<'w, 'a> {
    /// Ends a sentence about this term, which is of a wrong type: with the argument that it seems to be exchanged with, or with the
    /// place where it is declared without a type.
    pub(crate) fn add_cause(
        self,
        term: TypedName<'w, 'a>,
        variables: &[TypedName<'w, 'a>],
        out: &mut String,
    ) -> Result<(), AllocError> {
        if let Some(other) = self.exchanged(variables) {
            write!(out, "; exchange {} and {}?", Name(self.word), Name(other))
        } else if term.types.is_empty() {
            let place = self.declared_at(term);
            write!(out, "; it is declared without a type at {place}.")
        } else {
            out.push_str(".")
        }
    }

    /// The declaration of a term, given the variables in scope.
    pub(crate) fn term(
        self,
        name: &[u8],
        variables: &[TypedName<'w, 'a>],
    ) -> Option<TypedName<'w, 'a>> {
        if !name.starts_with(b"?") {
            return self.object(name);
        }
        variables.iter().find(|one| one.name.is(name)).copied()
    }

    /// The only argument whose exchange with the reported one makes all arguments fit.
    fn exchanged(self, variables: &[TypedName<'w, 'a>]) -> Option<&'a [u8]> {
        let index = self.at()?.saturating_sub(self.open()?).saturating_sub(2);
        let list = self.list();
        let terms = list.get(2..list.len().saturating_sub(1))?;
        let mut found = None;
        for (other, term) in terms.iter().enumerate() {
            if self.are_fitting(variables, (index, other)) {
                if found.is_some() {
                    return None;
                }
                found = Some(term.text());
            }
        }
        found
    }

    /// Whether all arguments fit once those with these two indices are exchanged.
    fn are_fitting(self, variables: &[TypedName<'w, 'a>], exchanged: (usize, usize)) -> bool {
        let Some(parameters) = self.parameters() else {
            return false;
        };
        for (place, parameter) in parameters.enumerate() {
            let from = match exchanged {
                (one, other) if place == one => other,
                (one, other) if place == other => one,
                _ => place,
            };
            if !self.is_fitting(from, parameter.types, variables) {
                return false;
            }
        }
        true
    }

    /// Whether the argument with this index fits where these types are required: each of its types is one of them or below one.
    fn is_fitting(
        self,
        index: usize,
        required: &[Lexeme<'a>],
        variables: &[TypedName<'w, 'a>],
    ) -> bool {
        let Some(name) = self.list().get(index.saturating_add(2)) else {
            return false;
        };
        let Some(term) = self.term(name.text(), variables) else {
            return false;
        };
        match term.types {
            _ if required.is_empty() => true,
            [] => self.is_below(b"object", required),
            types => types.iter().all(|one| self.is_below(one.text(), required)),
        }
    }

    /// Whether a type is one of the required ones or below one of them.
    fn is_below(self, name: &'a [u8], required: &[Lexeme<'a>]) -> bool {
        let types = self.section(b":types");
        let mut current = name;
        for _ in 0..HIGHEST {
            if required.iter().any(|one| one.is(current)) {
                return true;
            }
            if current.eq_ignore_ascii_case(b"object") {
                return false;
            }
            current = parent_of(types, current).unwrap_or(b"object");
        }
        false
    }

    /// The place where the reported term is declared.
    fn declared_at(self, term: TypedName<'w, 'a>) -> FilePlace<'a> {
        let file = if self.is_variable() {
            self.fault.file
        } else if self.constants().named(self.word).is_some() {
            File::Domain
        } else {
            File::Problem
        };
        FilePlace::of(self.texts, file, term.name.span().start)
    }
}
