//! Effects and their literals, each from the word after its `(`.
ghost use Rattle.std.specs.Prelude.{◌≡◌, [], map};
ghost use Rattle.model.specs.Trees as tree;
ghost use Rattle.model.specs.Trees.{both};
ghost use Rattle.model.specs.Grammar.{many, listed, effect_list, conditional as requires_conditional, conditional_literal};
ghost use Rattle.pddl_tree.specs.Phrases.{the_last_effect, the_when, the_last_atom};
ghost use Rattle.pddl_tree.specs.Reading.{part, phrase, Reads};
ghost use Rattle.pddl_tree.specs.Tree.{atom_of, effect_of, effect_literal_of};

use crate::formulas::part;
use crate::lists::{Item, list};
use crate::look::{Parsed, close, is_and, is_close, open};
use crate::refusals::{Literals, Place, refusal};
use crate::token::{ReservedName, Token, token_at};
use crate::tree::{Atom, Effect, EffectLiteral};
use crate::typed_lists::variables;
use faults::Refused;
use std::alloc::Global;
use tokens::Word;

/// `(and)`, which changes nothing.
pub fn no_effect<'a>(alloc: Global) -> Effect<'a>
    ensures { effect_of result ≡ both (tree.effects []) }
{
    Effect::And(Vec::new(alloc))
}

/// Parses an effect after its `(`: the effect, and the index after its `)`.
#[cycle(effect)]
#[tactic(auto, using(crate::proofs::Read::part_here))]
pub(crate) fn effect<'a>(alloc: Global, words: &[Word<'a>], at: usize) -> Parsed<Effect<'a>>
    ensures { Reads (part effect_list) words.now at effect_of result }
{
    match token_at(words, at) {
        Token::Free(_, predicate) => {
            let (terms, next) = list(alloc, words, at + 1)?;
            let literal = EffectLiteral::Add(Atom { predicate, terms });
            Ok((Effect::Literal(literal), next))
        }
        Token::Reserved(ReservedName::Not, _) => {
            let (atom, next) = last_atom(alloc, words, at + 1, Literals::Plain)?;
            Ok((Effect::Literal(EffectLiteral::Delete(atom)), next))
        }
        Token::Reserved(ReservedName::And, _) => {
            let (parts, next) = effects(alloc, words, at + 1)?;
            Ok((Effect::And(parts), next))
        }
        Token::Reserved(ReservedName::Forall, _) => {
            let (variables, next) = variables(alloc, words, at + 1)?;
            let (part, next) = last(alloc, words, next)?;
            Ok((Effect::Forall(variables, part), next))
        }
        Token::Reserved(ReservedName::When, _) => when(alloc, words, at + 1),
        _ => Err(Refused::At(refusal(words, at, Place::Elsewhere))),
    }
}

/// Parses a formula in parentheses, literals and `)`: the conditional effect, and the index after the parenthesis.
#[tactic(auto, using(crate::proofs::Looks::of_lists_inside))]
fn when<'a>(alloc: Global, words: &[Word<'a>], at: usize) -> Parsed<Effect<'a>>
    ensures { Reads (phrase the_when) words.now at effect_of result }
{
    let (condition, next) = part(alloc, words, at)?;
    let inside = open(words, next, Place::Elsewhere)?;
    let (literals, next) = conditional(alloc, words, inside)?;
    let next = close(words, next)?;
    Ok((Effect::When(Box::into_inner(condition), literals), next))
}

/// Parses an effect in parentheses and `)`: the effect, and the index after the last parenthesis.
#[cycle(effect)]
#[tactic(auto, using(crate::proofs::Looks::of_lists_inside))]
fn last<'a>(alloc: Global, words: &[Word<'a>], at: usize) -> Parsed<Box<Effect<'a>>>
    ensures { Reads (phrase the_last_effect) words.now at (λ e. effect_of e.value) result }
{
    let inside = open(words, at, Place::Elsewhere)?;
    let (part, next) = effect(alloc, words, inside)?;
    let part = Box::new(alloc, part)?;
    let next = close(words, next)?;
    Ok((part, next))
}

/// Parses effects up to `)`: the effects, and the index after the parenthesis.
#[cycle(effect)]
#[tactic(auto, using(crate::proofs::Looks::of_lists))]
fn effects<'a>(alloc: Global, words: &[Word<'a>], at: usize) -> Parsed<Vec<Effect<'a>>>
    ensures { Reads (part (many (listed effect_list))) words.now at (λ parts. map effect_of parts.items) result }
{
    let mut parts = Vec::new(alloc);
    let mut next = at;
    'parts: while !is_close(words, next) {
        let inside = open(words, next, Place::Elsewhere)?;
        let (part, after) = effect(alloc, words, inside)?;
        parts.push(part)?;
        next = after;
    }
    Ok((parts, next + 1))
}

/// Parses what is under a `when`, after its `(`: the literals, and the index after its `)`.
#[tactic(auto, using(crate::proofs::Looks::of_conditional))]
fn conditional<'a>(alloc: Global, words: &[Word<'a>], at: usize) -> Parsed<Vec<EffectLiteral<'a>>>
    ensures { Reads (part requires_conditional) words.now at (λ ls. map effect_literal_of ls.items) result }
{
    if is_and(words, at) {
        return list(alloc, words, at + 1);
    }
    let (literal, next) = literal(alloc, words, at)?;
    let literals = vec![in alloc; literal]?;
    Ok((literals, next))
}

impl<'a> Item<'a> for EffectLiteral<'a> {
    ghost sort = { listed conditional_literal };

    ghost view = { effect_literal_of };

    #[tactic(auto, using(crate::proofs::Looks::of_lists_inside))]
    fn read(alloc: Global, words: &[Word<'a>], at: usize) -> Parsed<EffectLiteral<'a>> {
        let inside = open(words, at, Place::Elsewhere)?;
        literal(alloc, words, inside)
    }
}

/// Parses a literal under a `when`, after its `(`: the literal, and the index after its `)`.
#[tactic(auto, using(crate::proofs::Read::part_here))]
fn literal<'a>(alloc: Global, words: &[Word<'a>], at: usize) -> Parsed<EffectLiteral<'a>>
    ensures { Reads (part conditional_literal) words.now at effect_literal_of result }
{
    match token_at(words, at) {
        Token::Free(_, predicate) => {
            let (terms, next) = list(alloc, words, at + 1)?;
            Ok((EffectLiteral::Add(Atom { predicate, terms }), next))
        }
        Token::Reserved(ReservedName::Not, _) => {
            let (atom, next) = last_atom(alloc, words, at + 1, Literals::UnderWhen)?;
            Ok((EffectLiteral::Delete(atom), next))
        }
        _ => Err(Refused::At(refusal(words, at, Place::UnderWhen))),
    }
}

/// Parses an atom in parentheses and `)`: the atom, and the index after the last parenthesis.
#[tactic(auto, using(crate::proofs::Looks::of_words_inside))]
fn last_atom<'a>(
    alloc: Global,
    words: &[Word<'a>],
    at: usize,
    literals: Literals,
) -> Parsed<Atom<'a>>
    ensures { Reads (phrase (the_last_atom literals)) words.now at atom_of result }
{
    let inside = open(words, at, Place::Elsewhere)?;
    match token_at(words, inside) {
        Token::Free(_, predicate) => {
            let (terms, next) = list(alloc, words, inside + 1)?;
            let next = close(words, next)?;
            Ok((Atom { predicate, terms }, next))
        }
        _ => match literals {
            Literals::Plain => Err(Refused::At(refusal(words, inside, Place::Elsewhere))),
            Literals::UnderWhen => Err(Refused::At(refusal(words, inside, Place::UnderWhen))),
        },
    }
}
