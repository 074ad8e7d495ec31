//! Typed lists of names or variables, in groups of one type, up to the parenthesis that closes them.
ghost use Rattle.std.specs.Prelude.{◌≡◌, map, false};
ghost use Rattle.model.specs.Grammar.{listed, typed as requires_typed, type as requires_type, variables};
ghost use Rattle.pddl_tree.specs.Terms.{name_of};
ghost use Rattle.pddl_tree.specs.Token.{from, first};
ghost use Rattle.pddl_tree.specs.Place.{listed_view};
ghost use Rattle.pddl_tree.specs.Reading.{part, phrase, Reads, ReadsOne, closes_first};
ghost use Rattle.pddl_tree.specs.Tree.{group_of, groups_of};
ghost use Rattle.pddl_tree.specs.Typed.{the_either};

use crate::lists::list;
use crate::look::{Parsed, either_word, ends_group, is_close, listed_name, name, open};
use crate::refusals::{ListElement, Place, refusal};
use crate::terms::Name;
use crate::token::{Token, token_at};
use crate::tree::Group;
use faults::Refused;
use std::alloc::Global;
use tokens::Word;

/// Parses a typed list up to `)`: its groups, and the index after the parenthesis.
#[tactic(auto, using(crate::proofs::Groups::of_typed))]
pub fn typed<'a>(
    alloc: Global,
    words: &[Word<'a>],
    at: usize,
    listed: ListElement,
) -> Parsed<Vec<Group<'a>>>
    ensures { Reads (part (requires_typed (listed_view listed))) words.now at groups_of result }
{
    let mut groups = Vec::new(alloc);
    let mut next = at;
    'groups: while !is_close(words, next) {
        let (group, after) = group(alloc, words, next, listed)?;
        groups.push(group)?;
        next = after;
    }
    Ok((groups, next + 1))
}

/// Parses a typed list of variables in parentheses: its groups, and the index after them.
#[tactic(auto, using(crate::proofs::Looks::of_lists_inside))]
pub(crate) fn variables<'a>(alloc: Global, words: &[Word<'a>], at: usize) -> Parsed<Vec<Group<'a>>>
    ensures { Reads (part (listed (requires_typed variables))) words.now at groups_of result }
{
    let inside = open(words, at, Place::Elsewhere)?;
    typed(alloc, words, inside, ListElement::Variables)
}

/// Parses names with their types after a `-`, or without types before a `)`: the group, and the next index.
#[tactic(auto, using(crate::proofs::Groups::of_groups))]
fn group<'a>(alloc: Global, words: &[Word<'a>], at: usize, listed: ListElement) -> Parsed<Group<'a>>
    requires { closes_first (first (from words.now at)) ≡ false }
    ensures { ReadsOne (part (requires_typed (listed_view listed))) words.now at group_of result }
{
    let (first, mut next) = listed_name(words, at, listed)?;
    let mut names = vec![in alloc; first]?;
    'names: while !ends_group(words, next) {
        let (name, after) = listed_name(words, next, listed)?;
        names.push(name)?;
        next = after;
    }
    if is_close(words, next) {
        let types = Vec::new(alloc);
        return Ok((Group { names, types }, next));
    }
    let (types, next) = types(alloc, words, next + 1, listed)?;
    Ok((Group { names, types }, next))
}

/// Parses the type after a `-`, or the types of an `either`: the types, and the index after them.
#[tactic(auto, using(crate::proofs::Groups::type_here))]
fn types<'a>(
    alloc: Global,
    words: &[Word<'a>],
    at: usize,
    listed: ListElement,
) -> Parsed<Vec<Name<'a>>>
    ensures { Reads (part (requires_type (listed_view listed))) words.now at (λ names. map name_of names.items) result }
{
    match token_at(words, at) {
        Token::Open => match listed {
            ListElement::Names => Err(Refused::At(refusal(words, at, Place::Type(listed)))),
            ListElement::Variables => either(alloc, words, at + 1),
        },
        Token::Free(_, name) => Ok((vec![in alloc; name]?, at + 1)),
        Token::Reserved(_, name) => Ok((vec![in alloc; name]?, at + 1)),
        _ => Err(Refused::At(refusal(words, at, Place::Type(listed)))),
    }
}

/// Parses `either`, at least one name, and `)`: the names, and the index after the parenthesis.
fn either<'a>(alloc: Global, words: &[Word<'a>], at: usize) -> Parsed<Vec<Name<'a>>>
    ensures { Reads (phrase the_either) words.now at (λ names. map name_of names.items) result }
{
    let next = either_word(words, at)?;
    let _first = name(words, next)?;
    list(alloc, words, next)
}
