//! What a file declares: its sections, and the names in its typed lists.
ghost use Rattle.std.specs.Prelude.{◌≤◌, ◌-◌, length};
ghost use Rattle.std.specs.Iterator.{at_most};

use crate::lists::{Items, head_of, is_among, item_at, opening_of};
use std::alloc::{AllocError, Global};
use tokens::{Lexeme, Shape};

/// The maximum number of lists open at once.
const DEEPEST: usize = 64;

/// The section of a file with this keyword, with its parentheses; empty if there is none.
pub(crate) fn section<'w, 'a>(file: &'w [Lexeme<'a>], keyword: &[u8]) -> &'w [Lexeme<'a>] {
    for item in Items::of(file) {
        if head_of(item).eq_ignore_ascii_case(keyword) {
            return item;
        }
    }
    &file[..0]
}

/// A declared name or variable.
#[derive(Clone, Copy)]
pub(crate) struct TypedName<'w, 'a> {
    /// The name or variable.
    pub(crate) name: Lexeme<'a>,
    /// The names of its types; none if no type follows it.
    pub(crate) types: &'w [Lexeme<'a>],
}

/// The declarations of a typed list, in order.
#[derive(Clone, Copy)]
pub(crate) struct Declarations<'w, 'a> {
    list: &'w [Lexeme<'a>],
    /// The index of what comes next.
    at: usize,
    /// Where the names that come next end: at a dash, or without types.
    end: usize,
}

impl<'w, 'a> Declarations<'w, 'a> {
    /// The declarations in a list of variables, such as `(?x ?y - place)`.
    pub(crate) fn of(list: &'w [Lexeme<'a>]) -> Declarations<'w, 'a> {
        Declarations::from(list, 1)
    }

    /// The declarations in a list after its head, such as `(:types ..)` and `(at ?x - place)`.
    pub(crate) fn after_head(list: &'w [Lexeme<'a>]) -> Declarations<'w, 'a> {
        Declarations::from(list, 2)
    }

    /// The declarations that begin at this index of a list.
    fn from(list: &'w [Lexeme<'a>], at: usize) -> Declarations<'w, 'a> {
        Declarations {
            list,
            at,
            end: names_end(list, at),
        }
    }

    /// The declaration of this name, regardless of case.
    pub(crate) fn named(self, name: &[u8]) -> Option<TypedName<'w, 'a>> {
        for one in self {
            if one.name.is(name) {
                return Some(one);
            }
        }
        None
    }

    /// Adds the names to a list of names.
    pub(crate) fn add_names(self, names: &mut Vec<&'a [u8]>) -> Result<(), AllocError> {
        for one in self {
            names.push(one.name.text())?;
        }
        Ok(())
    }

    /// The index of the next name: behind a dash that comes next, and its types.
    fn next_name(&self) -> usize
        ensures { self.now.at ≤ result }
    {
        if self.at != self.end || !is_dash(self.list, self.end) {
            return self.at;
        }
        let types = item_at(self.list, self.at.saturating_add(1));
        self.at.saturating_add(1).saturating_add(types.len())
    }
}

impl<'w, 'a> Iterator for Declarations<'w, 'a> {
    type Item = TypedName<'w, 'a>;

    ghost remaining = { λ declarations. at_most (length declarations.list.now - declarations.at) };

    fn next(&mut self) -> Option<TypedName<'w, 'a>> {
        let list = self.list;
        let at = self.next_name();
        let name = *list.get(at)?;
        if name.shape() != Shape::Run {
            return None;
        }
        if at != self.at {
            self.end = names_end(list, at);
        }
        self.at = at + 1;
        let types = types_after(list, self.end);
        Some(TypedName { name, types })
    }
}

/// The index of the first piece from this index on that is a dash or no run.
fn names_end(list: &[Lexeme<'_>], at: usize) -> usize {
    for index in at..list.len() {
        if list[index].shape() != Shape::Run || list[index].is(b"-") {
            return index;
        }
    }
    list.len()
}

/// Whether the piece with this index is a dash.
fn is_dash(list: &[Lexeme<'_>], at: usize) -> bool {
    list.get(at).is_some_and(|piece| piece.is(b"-"))
}

/// The type names behind a dash with this index: one, or those of an `(either ..)`. None if there is no dash.
fn types_after<'w, 'a>(list: &'w [Lexeme<'a>], dash: usize) -> &'w [Lexeme<'a>] {
    if is_dash(list, dash) {
        types_in(item_at(list, dash.saturating_add(1)))
    } else {
        &list[..0]
    }
}

/// The type names in what follows a dash.
fn types_in<'w, 'a>(item: &'w [Lexeme<'a>]) -> &'w [Lexeme<'a>] {
    if item.len() >= 3 {
        &item[2..item.len() - 1]
    } else {
        item
    }
}

/// The parameters of an action, given with its parentheses.
pub(crate) fn parameters<'w, 'a>(action: &'w [Lexeme<'a>]) -> Declarations<'w, 'a> {
    let keyword = action
        .iter()
        .position(|piece| piece.is(b":parameters"))
        .unwrap_or(action.len());
    Declarations::of(item_at(action, keyword.saturating_add(1)))
}

/// The name of an action, if the list is one.
pub(crate) fn action_name<'a>(list: &[Lexeme<'a>]) -> Option<Lexeme<'a>> {
    if head_of(list).eq_ignore_ascii_case(b":action") {
        list.get(2).copied()
    } else {
        None
    }
}

/// The variables that a list brings into scope: those of a quantifier, or the parameters of an action.
fn brought_by<'w, 'a>(list: &'w [Lexeme<'a>]) -> Declarations<'w, 'a> {
    let head = head_of(list);
    if is_among(head, &[b"forall", b"exists"]) {
        Declarations::of(item_at(list, 2))
    } else if head.eq_ignore_ascii_case(b":action") {
        parameters(list)
    } else {
        Declarations::of(&list[..0])
    }
}

/// The variables in scope at the piece with this index, those of the innermost list first.
pub(crate) fn in_scope<'w, 'a>(
    alloc: Global,
    pieces: &'w [Lexeme<'a>],
    at: usize,
) -> Result<Vec<TypedName<'w, 'a>>, AllocError> {
    let mut found = Vec::new(alloc);
    let mut place = at;
    for _ in 0..DEEPEST {
        let Some(open) = opening_of(pieces, place) else {
            break;
        };
        for one in brought_by(item_at(pieces, open)) {
            found.push(one)?;
        }
        place = open;
    }
    Ok(found)
}
