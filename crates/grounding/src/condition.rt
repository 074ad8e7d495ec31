//! Formulas compiled for packed states.
//!
//! Most formulas are a list of literals, as the preconditions of STRIPS are (Fikes & Nilsson 1971, "STRIPS: A New Approach to the
//! Application of Theorem Proving to Problem Solving"). Static parts are settled here. Anything else is evaluated as a formula,
//! and only in states where the literals are true.
ghost use Rattle.std.specs.Prelude.{◌≡◌, ◌<◌, true, length, map, IfOk};
ghost use Rattle.std.specs.List.{All, list_all};
ghost use Rattle.task.specs.TaskParts.{object_of, formula_of};
ghost use Rattle.formulas.specs.State.{FitsFormula};
ghost use Rattle.formulas.specs.Literals.{literal_of};
ghost use Rattle.packed_state.specs.Packed.{bits_of};
ghost use Rattle.grounding_instances.specs.Numbering.{task_in, atoms_in};
ghost use Rattle.grounding_instances.specs.Numbers.{numbered_of};
ghost use Rattle.model.specs.Meaning as meaning;
ghost use Rattle.model.specs.NumberedLiterals as model_literals;
ghost use Rattle.model.specs.Grounding.{state_of_bits};
ghost use Rattle.grounding.specs.Settled as settled;
ghost use Rattle.grounding.specs.Unnumbered as unnumbered;
ghost use Rattle.grounding.specs.Conditions.{literals_in, decided_by, decided_in, may_hold_in, can_hold_in, beyond_of, IsConditionOf};

use crate::settled::beyond;
use crate::state_view::StateView;
use crate::unnumbered::all_may_hold;
use faults::NoMemory;
use formulas::{Binding, Literal, holds, sure};
use grounding_instances::{NumberedLiteral, Numbering};
use packed_state::Packed;
use smallvec::SmallVec;
use std::alloc::Global;
use task::Formula;

/// A formula under a binding, compiled for packed states: its sure literals of numbered atoms, and how it is decided beyond
/// them.
#[derive(Drop)]
pub(crate) struct Condition {
    literals: SmallVec<NumberedLiteral, 4>,
    beyond: Beyond,
}

/// How a formula is decided in states where its literals are true.
#[derive(Clone, Copy, Drop)]
enum Beyond {
    /// It holds.
    Nothing,
    /// It holds in no packed state: another sure literal is of an atom without a number, and false.
    Never,
    /// It holds in no packed state: a static part is false.
    Refuted,
    /// The formula itself has to be evaluated.
    Formula,
}

impl Condition {
    /// Compiles the formula, which is well-typed for the binding.
    pub(crate) fn new(
        alloc: Global,
        numbering: &Numbering<'_>,
        formula: &Formula,
        binding: &Binding,
    ) -> Result<Condition, NoMemory>
        requires { FitsFormula (task_in numbering.now) (formula_of formula.now) (map object_of binding.now.items) }
        ensures { IfOk result (IsConditionOf (task_in numbering.now) (atoms_in numbering.now) (formula_of formula.now) (map object_of binding.now.items)) }
    {
        let outright = sure(alloc, numbering.task(), formula, binding)?;
        let outright = outright.as_slice();
        let numbered = numbering.numbered(alloc, outright)?;
        let beyond = asked_beyond(numbering, formula, binding, outright);
        let literals = SmallVec::from_slice(alloc, numbered.as_slice())?;
        Ok(Condition { literals, beyond })
    }

    /// The sure literals whose atoms are numbered, in order.
    pub(crate) fn literals(&self) -> &[NumberedLiteral]
        ensures { map numbered_of result.now ≡ literals_in self.now }
    {
        self.literals.as_slice()
    }

    /// Whether the formula holds in the packed state; `None` if the formula has to be evaluated.
    pub(crate) fn decides(&self, state: &Packed) -> Option<bool>
        requires { All (λ l. l.atom < length (bits_of state.now)) (literals_in self.now) }
        ensures { result ≡ decided_in self.now (bits_of state.now) }
    {
        if !all_agree(self.literals.as_slice(), state) {
            return Some(false);
        }
        self.decides_beyond()
    }

    /// Whether the formula holds in packed states where its literals are true; `None` if it has to be evaluated.
    pub(crate) fn decides_beyond(&self) -> Option<bool>
        ensures { result ≡ decided_by self.now.beyond true }
    {
        match self.beyond {
            Beyond::Nothing => Some(true),
            Beyond::Never => Some(false),
            Beyond::Refuted => Some(false),
            Beyond::Formula => None,
        }
    }

    /// Whether its sure literals of atoms without numbers are true in packed states.
    pub(crate) fn may_hold(&self) -> bool
        ensures { result ≡ may_hold_in self.now }
    {
        match self.beyond {
            Beyond::Nothing => true,
            Beyond::Never => false,
            Beyond::Refuted => true,
            Beyond::Formula => true,
        }
    }

    /// Whether some packed state may satisfy the formula.
    pub(crate) fn can_hold(&self) -> bool
        ensures { result ≡ can_hold_in self.now }
    {
        match self.beyond {
            Beyond::Nothing => true,
            Beyond::Never => false,
            Beyond::Refuted => false,
            Beyond::Formula => true,
        }
    }
}

/// Whether the formula that `condition` was compiled from holds in the packed state.
pub(crate) fn holds_in(
    condition: &Condition,
    numbering: &Numbering<'_>,
    formula: &Formula,
    binding: &Binding,
    state: &Packed,
) -> bool
    requires condition { IsConditionOf (task_in numbering.now) (atoms_in numbering.now) (formula_of formula.now) (map object_of binding.now.items) condition.now }
    requires fits { FitsFormula (task_in numbering.now) (formula_of formula.now) (map object_of binding.now.items) }
    requires width { length (bits_of state.now) ≡ length (atoms_in numbering.now) }
    ensures { result ≡ meaning.holds (task_in numbering.now) (formula_of formula.now) (map object_of binding.now.items)
        (state_of_bits (task_in numbering.now) (atoms_in numbering.now) (bits_of state.now)) }
{
    match condition.decides(state) {
        Some(decided) => decided,
        None => evaluate(numbering, formula, binding, state),
    }
}

/// Whether the formula holds in the packed state, by evaluating it.
pub(crate) fn evaluate(
    numbering: &Numbering<'_>,
    formula: &Formula,
    binding: &Binding,
    state: &Packed,
) -> bool
    requires fits { FitsFormula (task_in numbering.now) (formula_of formula.now) (map object_of binding.now.items) }
    requires width { length (bits_of state.now) ≡ length (atoms_in numbering.now) }
    ensures { result ≡ meaning.holds (task_in numbering.now) (formula_of formula.now) (map object_of binding.now.items)
        (state_of_bits (task_in numbering.now) (atoms_in numbering.now) (bits_of state.now)) }
{
    let view = StateView::new(numbering, state);
    holds(numbering.task(), formula, binding, &view)
}

/// How a formula with these sure literals is decided beyond them.
fn asked_beyond(
    numbering: &Numbering<'_>,
    formula: &Formula,
    binding: &Binding,
    literals: &[Literal],
) -> Beyond
    requires { FitsFormula (task_in numbering.now) (formula_of formula.now) (map object_of binding.now.items) }
    ensures { result ≡ beyond_of (list_all (unnumbered.may_hold (task_in numbering.now) (atoms_in numbering.now)) (map literal_of literals.now)) (settled.beyond (task_in numbering.now) (map object_of binding.now.items) (formula_of formula.now)) }
{
    if !all_may_hold(numbering, literals) {
        return Beyond::Never;
    }
    match beyond(numbering, formula, binding) {
        Some(true) => Beyond::Nothing,
        Some(false) => Beyond::Refuted,
        None => Beyond::Formula,
    }
}

/// Whether all literals are true in the packed state.
fn all_agree(literals: &[NumberedLiteral], state: &Packed) -> bool
    requires { All (λ l. l.atom < length (bits_of state.now)) (map numbered_of literals.now) }
    ensures { result ≡ list_all (model_literals.agrees (bits_of state.now)) (map numbered_of literals.now) }
{
    for literal in literals {
        if !agrees(literal, state) {
            return false;
        }
    }
    true
}

/// Whether the literal is true in the packed state.
pub(crate) fn agrees(literal: &NumberedLiteral, state: &Packed) -> bool
    requires { literal.now.atom < length (bits_of state.now) }
    ensures { result ≡ model_literals.agrees (bits_of state.now) (numbered_of literal.now) }
{
    state.has(literal.atom) == literal.value
}
