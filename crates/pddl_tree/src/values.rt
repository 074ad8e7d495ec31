//! The value of an `:effect`: an effect and increases of the total cost.
ghost use Rattle.std.specs.Prelude.{◌≡◌};
ghost use Rattle.model.specs.Grammar.{effect_value as requires_effect_value};
ghost use Rattle.pddl_tree.specs.Reading.{part, phrase, Reads};
ghost use Rattle.pddl_tree.specs.Phrases.{value_tree, the_items};

use crate::costs::increase;
use crate::effects::{effect, no_effect};
use crate::look::{Parsed, increase_word, is_close, open};
use crate::refusals::Place;
use crate::token::{ReservedName, Token, token_at};
use crate::tree::{Effect, Increase};
use std::alloc::Global;
use tokens::Word;

/// The value of an `:effect`.
#[derive(Drop)]
pub struct EffectValue<'a> {
    /// What it changes.
    pub effect: Effect<'a>,
    /// What it adds to the total cost.
    pub increases: Vec<Increase<'a>>,
}

/// Parses the value of an `:effect` after its `(`: the value, and the index after its `)`. An empty value is `(and)`.
#[tactic(auto, using(crate::proofs::EffectValues::value_here))]
pub fn effect_value<'a>(alloc: Global, words: &[Word<'a>], at: usize) -> Parsed<EffectValue<'a>>
    ensures { Reads (part requires_effect_value) words.now at value_tree result }
{
    match token_at(words, at) {
        Token::Close => {
            let effect = no_effect(alloc);
            let increases = Vec::new(alloc);
            Ok((EffectValue { effect, increases }, at + 1))
        }
        Token::Reserved(ReservedName::And, _) => items(alloc, words, at + 1),
        Token::Reserved(ReservedName::Increase, word) => {
            let (increase, next) = increase(alloc, words, at + 1, word)?;
            let increases = vec![in alloc; increase]?;
            let effect = no_effect(alloc);
            Ok((EffectValue { effect, increases }, next))
        }
        _ => {
            let (effect, next) = effect(alloc, words, at)?;
            let increases = Vec::new(alloc);
            Ok((EffectValue { effect, increases }, next))
        }
    }
}

/// Parses items, each a cost increase or an effect, up to `)`: their value, and the index after the parenthesis.
#[tactic(auto, using(crate::proofs::EffectValues::of_items))]
fn items<'a>(alloc: Global, words: &[Word<'a>], at: usize) -> Parsed<EffectValue<'a>>
    ensures { Reads (phrase the_items) words.now at value_tree result }
{
    let mut effects = Vec::new(alloc);
    let mut increases = Vec::new(alloc);
    let mut next = at;
    'items: while !is_close(words, next) {
        let inside = open(words, next, Place::Elsewhere)?;
        match increase_word(words, inside) {
            Some(word) => {
                let (increase, after) = increase(alloc, words, inside + 1, word)?;
                increases.push(increase)?;
                next = after;
            }
            None => {
                let (effect, after) = effect(alloc, words, inside)?;
                effects.push(effect)?;
                next = after;
            }
        }
    }
    let effect = Effect::And(effects);
    Ok((EffectValue { effect, increases }, next + 1))
}
