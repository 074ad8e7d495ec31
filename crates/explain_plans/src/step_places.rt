//! The places of steps in a plan text.
ghost use Rattle.std.specs.Prelude.{◌≡◌, ◌+◌, ◌<◌, ◌≤◌, ◌^◌, ◌&&◌, ◌==◌, List, IsSomeAnd, if◌then◌else◌, length};
ghost use Rattle.std.specs.Option.{option_map};
ghost use Rattle.tokens.specs.Cut.{cut};
ghost use Rattle.tokens.specs.Shape.{form_by};
ghost use Rattle.explain_plans.specs.StepPlaces.{IsStepPlace, closes, opens, place_from, span_of};
ghost use Rattle.model.specs.PlanText.{AreSteps, Step, placed_from};
ghost use Rattle.model.specs.Words.{AreParts, Part};

use faults::Span;
use tokens::{Lexemes, Shape};

/// The span of the step with this number, counted from 1, in a plan text: from its `(` to its `)`.
///
/// # Examples
/// The second step of `(hop a b) ; there\n(hop b a)` is at `18..27`.
pub fn step_place(text: &[u8], step: usize) -> Option<Span>
    // If the text is a list with at least this many steps, the span is that of the step.
    ensures { (parts : List Part) (steps : List Step) → AreParts text.now parts → AreSteps (placed_from 0 parts) steps
        → 1 ≤ step → step ≤ length steps → IsSomeAnd result (λ s. IsStepPlace (placed_from 0 parts) step (span_of s)) }
{
    closed_at(text, step)
}

/// From the opening parenthesis with this number, counted from 1, to the next closing one.
fn closed_at(text: &[u8], step: usize) -> Option<Span>
    ensures { option_map span_of result ≡ place_from step 0 0 (placed_from 0 (cut text.now)) }
{
    let mut opened = Opened { count: 0, last: 0 };
    'lexemes: for lexeme in Lexemes::of(text) {
        let shape = lexeme.shape();
        let span = lexeme.span();
        if opened.is_closed(shape, step) {
            return Some(Span {
                start: opened.last,
                end: span.end,
            });
        }
        opened = opened.after(shape, span.start);
    }
    None
}

/// The opening parentheses of a text up to some place.
#[derive(Clone, Copy)]
struct Opened {
    /// Their number.
    count: usize,
    /// The offset of the last one; 0 if there is none.
    last: usize,
}

impl Opened {
    /// Whether a lexeme of this shape closes the opening parenthesis with this number, which is the last one.
    fn is_closed(self, shape: Shape, number: usize) -> bool
        ensures { result ≡ (closes (form_by shape) && self.count == number) }
    {
        match shape {
            Shape::Close => self.count == number,
            Shape::Open | Shape::Run | Shape::Stray => false,
        }
    }

    /// The same after a lexeme of this shape, which is counted if it is an opening parenthesis.
    fn after(self, shape: Shape, start: usize) -> Opened
        requires { self.count + 1 < 2 ^ 64 }
        ensures count { result.count ≡ (if opens (form_by shape) then self.count + 1 else self.count) }
        ensures last { result.last ≡ (if opens (form_by shape) then start else self.last) }
    {
        match shape {
            Shape::Open => Opened {
                count: self.count + 1,
                last: start,
            },
            Shape::Close | Shape::Run | Shape::Stray => self,
        }
    }
}
