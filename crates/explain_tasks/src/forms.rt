//! The language features used in the formulas and effects of a task.
ghost use Rattle.std.specs.Prelude.{◌≡◌, IfOk, Some, slice_get};
ghost use Rattle.std.specs.String.{string_bytes};
ghost use Rattle.std.specs.List.{flat_map};
ghost use Rattle.task.specs.Task.{task_of};
ghost use Rattle.task.specs.TaskParts.{effect_of, formula_of};
ghost use Rattle.model.specs.Task.{Schema};
ghost use Rattle.explain_tasks.specs.Forms.{AreForms, added, forms_in, forms_in_effect, forms_of_schema};
ghost use Rattle.explain_tasks.specs.Summary.{forms_text};

use crate::summary::YesOrNo;
use std::alloc::{AllocError, Global};
use task::{Effect, Formula, SchemaId, Task};

/// The language features used in formulas and effects.
#[derive(Clone, Copy, Debug, Default, PartialEq, Eq)]
pub struct Forms {
    /// An effect under a condition.
    pub conditional_effects: bool,
    /// An `exists` or a `forall` in a formula or an effect.
    pub quantifiers: bool,
    /// A `not` in a formula.
    pub negations: bool,
    /// An `or` or an `imply`.
    pub disjunctions: bool,
}

impl Forms {
    /// The features used in the task's preconditions, effects and goal.
    pub(crate) fn of(task: &Task) -> Forms
        ensures { AreForms (task_of task.now) result }
    {
        let mut forms = Forms::default();
        forms.look_at(task.goal());
        for number in 0..task.schema_count() {
            forms.look_at_schema(task, number);
        }
        forms
    }

    /// Adds the features of the action schema with this number: of its precondition and its effect.
    fn look_at_schema(&mut self, task: &Task, number: usize)
        ensures { (s : Schema) → slice_get (task_of task.now).schemas number ≡ Some s → self.new ≡ added self.old (forms_of_schema s) }
    {
        if let Some(schema) = task.schema(SchemaId(number)) {
            self.look_at(&schema.precondition);
            self.look_at_effect(&schema.effect);
        }
    }

    /// Adds the features of the formula.
    #[cycle(look)]
    fn look_at(&mut self, formula: &Formula)
        ensures { self.new ≡ added self.old (forms_in (formula_of formula.now)) }
    {
        match formula {
            Formula::Atom(_) | Formula::Equal(_, _) => {}
            Formula::And(parts) => self.look_at_each(parts),
            Formula::Or(parts) => {
                self.disjunctions = true;
                self.look_at_each(parts)
            }
            Formula::Not(part) => {
                self.negations = true;
                self.look_at(part)
            }
            Formula::Imply(premise, conclusion) => {
                self.disjunctions = true;
                self.look_at(premise);
                self.look_at(conclusion)
            }
            Formula::Exists(_, part) | Formula::Forall(_, part) => {
                self.quantifiers = true;
                self.look_at(part)
            }
        }
    }

    /// Adds the features of each of the formulas.
    #[cycle(look)]
    fn look_at_each(&mut self, parts: &[Formula])
        ensures { self.new ≡ added self.old (flat_map (λ part. forms_in (formula_of part)) parts.now) }
    {
        for part in parts {
            self.look_at(part);
        }
    }

    /// Adds the features of the effect.
    fn look_at_effect(&mut self, effect: &Effect)
        ensures { self.new ≡ added self.old (forms_in_effect (effect_of effect.now)) }
    {
        match effect {
            Effect::Literal(_) => {}
            Effect::And(parts) => {
                for part in parts {
                    self.look_at_effect(part);
                }
            }
            Effect::Forall(_, part) => {
                self.quantifiers = true;
                self.look_at_effect(part)
            }
            Effect::When(condition, _) => {
                self.conditional_effects = true;
                self.look_at(condition)
            }
        }
    }

    /// The features in words.
    pub(crate) fn text(self, alloc: Global) -> Result<String, AllocError>
        ensures { IfOk result (λ text. string_bytes text ≡ forms_text self) }
    {
        let conditional = YesOrNo(self.conditional_effects);
        let quantifiers = YesOrNo(self.quantifiers);
        let negations = YesOrNo(self.negations);
        let disjunctions = YesOrNo(self.disjunctions);
        format!(in alloc;
            "conditional effects {conditional}, quantifiers {quantifiers}, \
negations {negations}, disjunctions {disjunctions}"
        )
    }
}
