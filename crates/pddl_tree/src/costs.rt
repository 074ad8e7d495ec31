//! Costs: `:metric`, increases of the total cost, and the values in `:init`.
ghost use Rattle.std.specs.Prelude.{◌≡◌};
ghost use Rattle.model.specs.Grammar.{total_cost as requires_total_cost, increase_amount, atom, listed};
ghost use Rattle.pddl_tree.specs.Terms.{name_of};
ghost use Rattle.pddl_tree.specs.Costs.{the_metric, the_increase, the_last_number, the_initial_fact};
ghost use Rattle.pddl_tree.specs.Reading.{part, phrase, Reads, ReadsWords};
ghost use Rattle.pddl_tree.specs.Tree.{amount_of, atom_of, increase_of, fact_of};

use crate::lists::list;
use crate::look::{Parsed, close, minimize, number, open, total_cost};
use crate::refusals::{Place, refusal};
use crate::terms::Name;
use crate::token::{ReservedName, Token, token_at};
use crate::tree::{Amount, Atom, Fact, GroundAtom, Increase, InitialCost, InitialValue};
use crate::word_fault::WordRefusal;
use faults::Refused;
use std::alloc::Global;
use tokens::Word;

/// Parses `( total-cost )`: its name, and the index after the parenthesis.
#[tactic(auto, using(crate::proofs::Looks::of_lists_inside))]
fn listed_total_cost<'a>(words: &[Word<'a>], at: usize) -> Result<(Name<'a>, usize), WordRefusal>
    ensures { ReadsWords (part (listed requires_total_cost)) words.now at name_of result }
{
    let inside = open(words, at, Place::Elsewhere)?;
    total_cost(words, inside)
}

/// Parses `minimize ( total-cost )` and `)`: the function's name, and the index after the last parenthesis.
pub fn metric<'a>(words: &[Word<'a>], at: usize) -> Result<(Name<'a>, usize), WordRefusal>
    ensures { ReadsWords (phrase the_metric) words.now at name_of result }
{
    let next = minimize(words, at)?;
    let (function, next) = listed_total_cost(words, next)?;
    let next = close(words, next)?;
    Ok((function, next))
}

/// Parses what follows `increase`, up to `)`: the increase, and the index after the parenthesis.
pub(crate) fn increase<'a>(
    alloc: Global,
    words: &[Word<'a>],
    at: usize,
    word: Name<'a>,
) -> Parsed<Increase<'a>>
    ensures { Reads (phrase (the_increase (name_of word.entry))) words.now at increase_of result }
{
    let (_function, next) = listed_total_cost(words, at)?;
    let (amount, next) = amount(alloc, words, next)?;
    let next = close(words, next)?;
    Ok((Increase { word, amount }, next))
}

/// Parses the amount of an increase, a number or a function of terms in parentheses: the amount, and the index after it.
#[tactic(auto, using(crate::proofs::Read::part_here, crate::proofs::Looks::number_of_an_amount))]
fn amount<'a>(alloc: Global, words: &[Word<'a>], at: usize) -> Parsed<Amount<'a>>
    ensures { Reads (part increase_amount) words.now at amount_of result }
{
    match token_at(words, at) {
        Token::Number(number, _) => Ok((Amount::Number(number), at + 1)),
        Token::Open => {
            let (function, next) = function(alloc, words, at + 1)?;
            Ok((Amount::Function(function), next))
        }
        _ => Err(Refused::At(refusal(words, at, Place::Number))),
    }
}

/// Parses a function of terms after its `(`: the function, and the index after its `)`.
#[tactic(auto, using(crate::proofs::Read::part_here))]
fn function<'a>(alloc: Global, words: &[Word<'a>], at: usize) -> Parsed<Atom<'a>>
    ensures { Reads (part atom) words.now at atom_of result }
{
    match token_at(words, at) {
        Token::Free(_, predicate) => {
            let (terms, next) = list(alloc, words, at + 1)?;
            Ok((Atom { predicate, terms }, next))
        }
        _ => Err(Refused::At(refusal(words, at, Place::Elsewhere))),
    }
}

/// Parses what follows `=` in `:init`, up to `)`: the initial total cost or a function's value, and the index after the
/// parenthesis.
#[tactic(auto, using(crate::proofs::Looks::of_words_inside))]
pub(crate) fn initial_fact<'a>(
    alloc: Global,
    words: &[Word<'a>],
    at: usize,
    equals: Name<'a>,
) -> Parsed<Fact<'a>>
    ensures { Reads (phrase (the_initial_fact (name_of equals.entry))) words.now at fact_of result }
{
    let inside = open(words, at, Place::Elsewhere)?;
    match token_at(words, inside) {
        Token::Reserved(ReservedName::TotalCost, function) => {
            let next = close(words, inside + 1)?;
            let ((amount, number), next) = last_number(words, next)?;
            let cost = InitialCost {
                equals,
                function,
                amount,
                number,
            };
            Ok((Fact::InitialCost(cost), next))
        }
        Token::Free(_, predicate) => {
            let (objects, next) = list(alloc, words, inside + 1)?;
            let ((value, _), next) = last_number(words, next)?;
            let function = GroundAtom { predicate, objects };
            Ok((Fact::InitialValue(InitialValue { function, value }), next))
        }
        _ => Err(Refused::At(refusal(words, inside, Place::Elsewhere))),
    }
}

/// Parses a number and `)`: the number with its word, and the index after the parenthesis.
fn last_number<'a>(words: &[Word<'a>], at: usize) -> Result<((u32, Name<'a>), usize), WordRefusal>
    ensures { ReadsWords (phrase the_last_number) words.now at (λ v. (v.0, name_of v.1)) result }
{
    let (number, next) = number(words, at)?;
    let next = close(words, next)?;
    Ok((number, next))
}
