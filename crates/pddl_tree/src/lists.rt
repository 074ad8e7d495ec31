//! Lists of any kind of item, up to the parenthesis that closes them.
ghost use Rattle.std.specs.Prelude.{map};
ghost use Rattle.model.specs.Grammar.{Sort, Value, many, a_name, term as requires_term, key as requires_key};
ghost use Rattle.pddl_tree.specs.Terms.{name_of, term_of};
ghost use Rattle.pddl_tree.specs.Reading.{part, Reads};

use crate::look::{Parsed, is_close, name, term};
use crate::refusals::{Place, refusal};
use crate::terms::{Name, Term};
use crate::token::{Keyword, Token, token_at};
use faults::Refused;
use std::alloc::Global;
use tokens::Word;

/// What a list may contain.
pub trait Item<'a>: Sized + Drop {
    ghost sort: { Sort };

    ghost view: { Self → Value sort };

    /// Parses one item: the item, and the index after it.
    fn read(alloc: Global, words: &[Word<'a>], at: usize) -> Parsed<Self>
        ensures { Reads (part sort) words.now at view result };
}

/// Parses items up to `)`: the items, and the index after the parenthesis.
#[tactic(auto, using(crate::proofs::Looks::of_lists))]
pub fn list<'a, T: Item<'a>>(alloc: Global, words: &[Word<'a>], at: usize) -> Parsed<Vec<T>>
    ensures { Reads (part (many T.sort)) words.now at (λ items. map T.view items.items) result }
{
    let mut items = Vec::new(alloc);
    let mut next = at;
    'items: while !is_close(words, next) {
        let (item, after) = T::read(alloc, words, next)?;
        items.push(item)?;
        next = after;
    }
    Ok((items, next + 1))
}

impl<'a> Item<'a> for Name<'a> {
    ghost sort = { a_name };

    ghost view = { name_of };

    fn read(_alloc: Global, words: &[Word<'a>], at: usize) -> Parsed<Name<'a>> {
        let read = name(words, at)?;
        Ok(read)
    }
}

impl<'a> Item<'a> for Term<'a> {
    ghost sort = { requires_term };

    ghost view = { term_of };

    fn read(_alloc: Global, words: &[Word<'a>], at: usize) -> Parsed<Term<'a>> {
        let read = term(words, at)?;
        Ok(read)
    }
}

/// A key of `:requirements`. Nothing of it is kept: it does not change how the file is read.
#[derive(Clone, Copy)]
pub struct Key;

impl<'a> Item<'a> for Key {
    ghost sort = { requires_key };

    ghost view = { λ _. tt };

    #[tactic(auto, using(crate::proofs::Read::part_here))]
    fn read(_alloc: Global, words: &[Word<'a>], at: usize) -> Parsed<Key> {
        match token_at(words, at) {
            Token::Keyword(Keyword::Requirement) => Ok((Key, at + 1)),
            _ => Err(Refused::At(refusal(words, at, Place::Keys))),
        }
    }
}
