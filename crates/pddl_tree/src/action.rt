//! Actions, from the word after `:action`.
ghost use Rattle.std.specs.Prelude.{◌≡◌, [], IfOk, IfErr, map, Some, false};
ghost use Rattle.model.specs.GrammarWords.{keyword, of_part};
ghost use Rattle.model.specs.Grammar as grammar;
ghost use Rattle.pddl_tree.specs.Token.{from, first, part_view};
ghost use Rattle.pddl_tree.specs.Reading.{part, phrase, Reads, ReadsInto, MayContinue, Stops, closes_first};
ghost use Rattle.pddl_tree.specs.Terms.{name_of};
ghost use Rattle.pddl_tree.specs.Tree.{action_of, formula_of};
ghost use Rattle.pddl_tree.specs.Sections.{the_action, parts_on, part_into};

use crate::effects::no_effect;
use crate::formulas::{formula, no_condition};
use crate::look::{Parsed, action_name, is_close, open};
use crate::placing::{put, replace};
use crate::refusals::{ListElement, Place, has_part, refusal};
use crate::terms::Name;
use crate::token::{Keyword, PartKeyword, Token, token_at};
use crate::tree::{Action, Formula};
use crate::typed_lists::typed;
use crate::values::effect_value;
use crate::word_fault::{WordFault, WordRefusal};
use faults::Refused;
use std::alloc::Global;
use tokens::Word;

/// An action with only a name: each optional part is `(and)`.
fn bare(alloc: Global, name: Name<'_>) -> Action<'_>
    ensures { action_of result ≡ grammar.bare_action (name_of name.entry) }
{
    Action {
        name,
        parameters: Vec::new(alloc),
        precondition: no_condition(alloc),
        effect: no_effect(alloc),
        increases: Vec::new(alloc),
    }
}

/// Parses an action after its `:action`: the action, and the index after its `)`.
pub(crate) fn action<'a>(alloc: Global, words: &[Word<'a>], at: usize) -> Parsed<Action<'a>>
    ensures { Reads (phrase the_action) words.now at action_of result }
{
    let (name, next) = action_name(words, at)?;
    // Boxed: dropping a box takes one proof step, while dropping an action takes one for each form of its parts.
    let mut action = Box::new(alloc, bare(alloc, name))?;
    let end = parts(alloc, words, next, &mut action)?;
    Ok((Box::into_inner(action), end))
}

/// Parses the parts of an action, each at most once, and `)` into the action: the index after the parenthesis.
fn parts<'a>(
    alloc: Global,
    words: &[Word<'a>],
    at: usize,
    action: &mut Action<'a>,
) -> Result<usize, WordFault>
    ensures { ReadsInto (phrase (parts_on [] (action_of action.old))) words.now at (action_of action.new) result }
{
    let mut seen = Vec::new(alloc);
    let mut next = at;
    'parts: while !is_close(words, next) {
        next = part(alloc, words, next, action, &mut seen)?;
    }
    if has_part(&seen, PartKeyword::Parameters) {
        Ok(next + 1)
    } else {
        Err(Refused::At(refusal(words, next, Place::Parts)))
    }
}

/// Parses a part that has not occurred yet into the action and records it: the index after it.
fn part<'a>(
    alloc: Global,
    words: &[Word<'a>],
    at: usize,
    action: &mut Action<'a>,
    seen: &mut Vec<PartKeyword>,
) -> Result<usize, WordFault>
    requires { closes_first (first (from words.now at)) ≡ false }
    ensures { MayContinue (phrase (parts_on (map part_view seen.old.items) (action_of action.old))) (phrase (parts_on (map part_view seen.new.items) (action_of action.new))) words.now at result }
{
    let keyword = part_keyword(words, at, seen)?;
    seen.push(keyword)?;
    value(alloc, words, at + 1, keyword, seen, action)
}

/// Reads the keyword of a part that has not occurred yet.
#[tactic(auto, using(crate::proofs::Read::part_here))]
fn part_keyword(words: &[Word], at: usize, seen: &[PartKeyword]) -> Result<PartKeyword, WordRefusal>
    ensures word { IfOk result (λ part. first (from words.now at) ≡ Some (keyword (of_part (part_view part)))) }
    ensures new { IfOk result (λ part. grammar.has_part (map part_view seen.now) (part_view part) ≡ false) }
    ensures reported { IfErr result (λ refusal. closes_first (first (from words.now at)) ≡ false → Stops words.now (part (grammar.parts (map part_view seen.now)) (from words.now at)) refusal) }
{
    match token_at(words, at) {
        Token::Keyword(Keyword::Part(part)) => {
            if has_part(seen, part) {
                Err(refusal(words, at, Place::Parts))
            } else {
                Ok(part)
            }
        }
        _ => Err(refusal(words, at, Place::Parts)),
    }
}

/// Parses the value of a part, whose keyword was read, into the action: the index after it.
#[tactic(auto, using(crate::proofs::Parts::of_value))]
fn value<'a>(
    alloc: Global,
    words: &[Word<'a>],
    at: usize,
    keyword: PartKeyword,
    seen: &[PartKeyword],
    action: &mut Action<'a>,
) -> Result<usize, WordFault>
    ensures { ReadsInto (phrase (part_into (map part_view seen.now) (part_view keyword) (action_of action.old))) words.now at (action_of action.new) result }
{
    let inside = open(words, at, Place::Value(seen))?;
    match keyword {
        PartKeyword::Parameters => {
            put(
                &mut action.parameters,
                typed(alloc, words, inside, ListElement::Variables),
            )
        }
        PartKeyword::Precondition => {
            put(&mut action.precondition, precondition(alloc, words, inside))
        }
        PartKeyword::Effect => {
            let (value, next) = effect_value(alloc, words, inside)?;
            replace(&mut action.effect, value.effect);
            action.increases = value.increases;
            Ok(next)
        }
    }
}

/// Parses a precondition after its `(`: the formula, `(and)` if empty, and the index after its `)`.
#[tactic(auto, using(crate::proofs::Parts::of_precondition))]
fn precondition<'a>(alloc: Global, words: &[Word<'a>], at: usize) -> Parsed<Formula<'a>>
    ensures { Reads (part grammar.precondition_list) words.now at formula_of result }
{
    if is_close(words, at) {
        Ok((no_condition(alloc), at + 1))
    } else {
        formula(alloc, words, at)
    }
}
