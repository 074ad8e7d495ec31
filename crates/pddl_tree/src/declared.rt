//! Declarations of predicates and functions, and the facts of `:init`.
ghost use Rattle.std.specs.Prelude.{◌≡◌, map, false};
ghost use Rattle.model.specs.Grammar.{listed, declaration, function_list, function_declaration, fact as requires_fact, ground_atom as requires_ground_atom};
ghost use Rattle.pddl_tree.specs.Token.{from, first};
ghost use Rattle.pddl_tree.specs.Reading.{part, Reads, ReadsOne, closes_first};
ghost use Rattle.pddl_tree.specs.Tree.{predicate_of, fact_of, ground_atom_of};

use crate::costs::initial_fact;
use crate::lists::{Item, list};
use crate::look::{Parsed, close, is_close, is_dash, number_word, open};
use crate::refusals::{ListElement, Place, refusal};
use crate::token::{ReservedName, Token, token_at};
use crate::tree::{Fact, GroundAtom, Predicate};
use crate::typed_lists::typed;
use faults::Refused;
use std::alloc::Global;
use tokens::Word;

impl<'a> Item<'a> for Predicate<'a> {
    ghost sort = { listed declaration };

    ghost view = { predicate_of };

    #[tactic(auto, using(crate::proofs::Looks::of_words_inside))]
    fn read(alloc: Global, words: &[Word<'a>], at: usize) -> Parsed<Predicate<'a>> {
        let inside = open(words, at, Place::Elsewhere)?;
        match token_at(words, inside) {
            Token::Free(_, name) => {
                let (parameters, next) = typed(alloc, words, inside + 1, ListElement::Variables)?;
                Ok((Predicate { name, parameters }, next))
            }
            _ => Err(Refused::At(refusal(words, inside, Place::Elsewhere))),
        }
    }
}

/// Parses functions up to `)`: their declarations, and the index after the parenthesis.
#[tactic(auto, using(crate::proofs::FunctionLists::of_functions))]
pub fn functions<'a>(alloc: Global, words: &[Word<'a>], at: usize) -> Parsed<Vec<Predicate<'a>>>
    ensures { Reads (part function_list) words.now at (λ functions. map predicate_of functions.items) result }
{
    let mut functions = Vec::new(alloc);
    let mut next = at;
    'functions: while !is_close(words, next) {
        let (function, after) = function(alloc, words, next)?;
        functions.push(function)?;
        next = after;
    }
    Ok((functions, next + 1))
}

/// Parses a function's declaration in parentheses, and `- number` if a `-` follows: the declaration, and the next index.
#[tactic(auto, using(crate::proofs::FunctionLists::of_function))]
fn function<'a>(alloc: Global, words: &[Word<'a>], at: usize) -> Parsed<Predicate<'a>>
    requires { closes_first (first (from words.now at)) ≡ false }
    ensures { ReadsOne (part function_list) words.now at predicate_of result }
{
    let inside = open(words, at, Place::Elsewhere)?;
    let (function, next) = declared_function(alloc, words, inside)?;
    if is_dash(words, next) {
        let end = number_word(words, next + 1)?;
        return Ok((function, end));
    }
    Ok((function, next))
}

/// Parses a function's declaration after its `(`: the declaration, and the index after its `)`. `total-cost` has no arguments.
#[tactic(auto, using(crate::proofs::Read::part_here))]
fn declared_function<'a>(alloc: Global, words: &[Word<'a>], at: usize) -> Parsed<Predicate<'a>>
    ensures { Reads (part function_declaration) words.now at predicate_of result }
{
    match token_at(words, at) {
        Token::Reserved(ReservedName::TotalCost, name) => {
            let next = close(words, at + 1)?;
            let parameters = Vec::new(alloc);
            Ok((Predicate { name, parameters }, next))
        }
        Token::Free(_, name) => {
            let (parameters, next) = typed(alloc, words, at + 1, ListElement::Variables)?;
            Ok((Predicate { name, parameters }, next))
        }
        _ => Err(Refused::At(refusal(words, at, Place::Elsewhere))),
    }
}

impl<'a> Item<'a> for Fact<'a> {
    ghost sort = { listed requires_fact };

    ghost view = { fact_of };

    #[tactic(auto, using(crate::proofs::Looks::of_lists_inside))]
    fn read(alloc: Global, words: &[Word<'a>], at: usize) -> Parsed<Fact<'a>> {
        let inside = open(words, at, Place::Elsewhere)?;
        fact(alloc, words, inside)
    }
}

/// Parses a fact after its `(`: the fact, and the index after its `)`.
#[tactic(auto, using(crate::proofs::Read::part_here))]
fn fact<'a>(alloc: Global, words: &[Word<'a>], at: usize) -> Parsed<Fact<'a>>
    ensures { Reads (part requires_fact) words.now at fact_of result }
{
    match token_at(words, at) {
        Token::Free(_, predicate) => {
            let (objects, next) = list(alloc, words, at + 1)?;
            Ok((Fact::Atom(GroundAtom { predicate, objects }), next))
        }
        Token::Reserved(ReservedName::Not, word) => {
            let (atom, next) = ground_atom(alloc, words, at + 1)?;
            let next = close(words, next)?;
            Ok((Fact::Negated(word, atom), next))
        }
        Token::Equals(word) => initial_fact(alloc, words, at + 1, word),
        _ => Err(Refused::At(refusal(words, at, Place::Elsewhere))),
    }
}

/// Parses a ground atom in parentheses: the atom, and the index after them.
#[tactic(auto, using(crate::proofs::Looks::of_words_inside))]
fn ground_atom<'a>(alloc: Global, words: &[Word<'a>], at: usize) -> Parsed<GroundAtom<'a>>
    ensures { Reads (part (listed requires_ground_atom)) words.now at ground_atom_of result }
{
    let inside = open(words, at, Place::Elsewhere)?;
    match token_at(words, inside) {
        Token::Free(_, predicate) => {
            let (objects, next) = list(alloc, words, inside + 1)?;
            Ok((GroundAtom { predicate, objects }, next))
        }
        _ => Err(Refused::At(refusal(words, inside, Place::Elsewhere))),
    }
}
