//! Sentences about what is there twice (codes 9, 16, 20): where it was before.
use crate::context::Context;
use crate::declarations::{Declarations, action_name};
use crate::lists::{Items, head, head_of, item_at};
use crate::shown::{FilePlace, Name};
use crate::texts::File;
use std::alloc::AllocError;
use tokens::Lexeme;

impl<'a> Context<'_, 'a> {
    /// Says where the section or part occurred before.
    pub(crate) fn add_repeated_section(self, out: &mut String) -> Result<(), AllocError> {
        let earlier = self
            .here()
            .iter()
            .rev()
            .find(|piece| self.is_earlier(piece));
        match earlier {
            Some(piece) => write!(
                out,
                "{} already appears at {}.",
                Name(self.word),
                self.place_of(piece)
            ),
            None => Ok(()),
        }
    }

    /// Says where a variable of the same name came into scope before.
    pub(crate) fn add_shadowed(self, out: &mut String) -> Result<(), AllocError> {
        let start = self.fault.span.start;
        let variables = self.variables()?;
        for one in variables.as_slice() {
            if one.name.is(self.word) && one.name.span().start != start {
                return write!(
                    out,
                    "{} is already in scope, from {}.",
                    Name(self.word),
                    self.place_of(&one.name)
                );
            }
        }
        Ok(())
    }

    /// Says where the name was declared before.
    pub(crate) fn add_duplicate(self, out: &mut String) -> Result<(), AllocError> {
        let name = Name(self.word);
        if let Some(constant) = self.repeated_constant() {
            let place = FilePlace::of(self.texts, File::Domain, constant.span().start);
            return write!(out, "{name} is already declared at {place}.");
        }
        match self.earlier() {
            Some(piece) if self.is_function() => write!(
                out,
                "{name} already has a value for these objects, given at {}.",
                self.place_of(&piece)
            ),
            Some(piece) => write!(
                out,
                "{name} is already declared at {}.",
                self.place_of(&piece)
            ),
            None if self.is_object() => out.push_str("the type `object` is built in."),
            None => Ok(()),
        }
    }

    /// Whether the fault is that the built-in type `object` is declared.
    pub(crate) fn is_built_in(self) -> bool {
        self.is_object() && self.repeated_constant().is_none() && self.earlier().is_none()
    }

    /// Whether the reported word is `object`.
    fn is_object(self) -> bool {
        self.word.eq_ignore_ascii_case(b"object")
    }

    /// The domain's constant with the same name as an object of the problem.
    fn repeated_constant(self) -> Option<Lexeme<'a>> {
        let is_of_objects = head_of(self.list()).eq_ignore_ascii_case(b":objects");
        if self.fault.file != File::Problem || !is_of_objects {
            return None;
        }
        Some(self.constants().named(self.word)?.name)
    }

    /// What has the reported name before the fault and is of the same kind: one of the other names of a typed list, of the other
    /// predicates or functions, or of the other actions; for a value in `:init`, a function in a value of the same objects.
    fn earlier(self) -> Option<Lexeme<'a>> {
        let list = self.list();
        let head = head_of(list);
        if head.eq_ignore_ascii_case(b":action") {
            self.earlier_action()
        } else if head.starts_with(b":") {
            self.earlier_among(Declarations::after_head(list))
        } else if self.is_variable() {
            self.earlier_among(Declarations::of(list))
        } else if head_of(self.outer()) == b"=".as_slice() {
            self.earlier_value()
        } else {
            self.earlier_head()
        }
    }

    /// The name of an action before the fault.
    fn earlier_action(self) -> Option<Lexeme<'a>> {
        for item in Items::of(self.domain()) {
            match action_name(item) {
                Some(name) if self.is_earlier(&name) => return Some(name),
                _ => {}
            }
        }
        None
    }

    /// The same among the names of a typed list.
    fn earlier_among(self, declarations: Declarations<'_, 'a>) -> Option<Lexeme<'a>> {
        for one in declarations {
            if self.is_earlier(&one.name) {
                return Some(one.name);
            }
        }
        None
    }

    /// The same among the heads of the lists beside the faulty one.
    fn earlier_head(self) -> Option<Lexeme<'a>> {
        for item in Items::of(self.outer()) {
            match head(item) {
                Some(head) if self.is_earlier(&head) => return Some(head),
                _ => {}
            }
        }
        None
    }

    /// The same among the functions that `:init` gives a value, of the same objects.
    fn earlier_value(self) -> Option<Lexeme<'a>> {
        let function = self.list();
        for item in Items::of(self.outermost()) {
            let value = item_at(item, 2);
            match head(value) {
                Some(head) if is_same(value, function) && self.is_earlier(&head) => {
                    return Some(head);
                }
                _ => {}
            }
        }
        None
    }
}

/// Whether two lists consist of the same words, regardless of case.
fn is_same(list: &[Lexeme<'_>], other: &[Lexeme<'_>]) -> bool {
    list.len() == other.len()
        && list
            .iter()
            .zip(other)
            .all(|(piece, word)| piece.is(word.text()))
}
