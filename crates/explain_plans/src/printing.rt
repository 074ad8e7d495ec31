//! Explanations of a plan as lines of text.
ghost use Rattle.std.specs.Prelude.{◌≡◌, ◌++◌, ◌-◌, ◌==◌, [], codes, if◌then◌else◌, map, slice_get, None, IfOk, OnOk};
ghost use Rattle.std.specs.Borrow.{Bor};
ghost use Rattle.std.specs.Fmt.{decimal};
ghost use Rattle.std.specs.Option.{option_map};
ghost use Rattle.std.specs.String.{string_bytes};
ghost use Rattle.task.specs.Task.{task_of};
ghost use Rattle.task.specs.TaskParts.{formula_of, increase_of, object_of};
ghost use Rattle.formulas.specs.State.{instance_of, plan_of};
ghost use Rattle.formulas.specs.declared.instance.Instance.{Instance};
ghost use Rattle.explain_plans.specs.Explanations.{verdict_of};
ghost use Rattle.explain_plans.specs.FormulaText.{formula_text, scope_at};
ghost use Rattle.task.specs.Names.{names_in};
ghost use Rattle.explain_plans.specs.Parts.{history_of, part_of};
ghost use Rattle.explain_plans.specs.PlanLines.{added_text, cause_text, cost_line, cost_lines, deleted_text, increase_text, instance_increase_text, lacking_text, made_text, negation_text, reason_line, reason_lines, reasons_text, step_name, verdict_line, why_text};
ghost use Rattle.explain_plans.specs.Said.{AddsDetails, HasDetails};
ghost use Rattle.explain_plans.specs.ScopeView.{scope_of};
ghost use Rattle.model.specs.Runs.{not_applicable};

use crate::explanations::{PlanExplanation, Reasons};
use crate::false_parts::Part;
use crate::formula_text::{FormulaPrinter, Scope};
use crate::histories::History;
use faults::NoMemory;
use formulas::{Instance, Plan};
use plan_file::step_text;
use std::alloc::Global;
use task::{Formula, Increase, ObjectId, Task};

/// The verdict on the plan as a line, with LF.
///
/// # Errors
/// An allocation failed.
///
/// # Examples
/// ```text
/// valid, cost 10
/// step 7, (hop a b), is not applicable
/// every step is applicable, but the goal is not reached
/// ```
pub fn report_verdict(
    alloc: Global,
    task: &Task,
    plan: &Plan,
    explanation: &PlanExplanation<'_>,
) -> Result<String, NoMemory>
    ensures { IfOk result (λ line. string_bytes line ≡ verdict_line (task_of task.now) (plan_of plan.now) (verdict_of explanation.now)) }
{
    let printer = PlanPrinter { alloc, task, plan };
    match explanation {
        PlanExplanation::Solves { total, .. } => valid_line(alloc, *total),
        PlanExplanation::NotApplicable { step, .. } => printer.step_line(*step),
        PlanExplanation::GoalMissed { .. } => missed_line(alloc),
    }
}

/// The line for a plan that solves the task at this cost.
fn valid_line(alloc: Global, total: u64) -> Result<String, NoMemory>
    ensures { IfOk result (λ line. string_bytes line ≡ codes "valid, cost " ++ (decimal total ++ codes "\n")) }
{
    Ok(format!(in alloc; "valid, cost {total}\n")?)
}

/// The line for a plan that misses the goal.
fn missed_line(alloc: Global) -> Result<String, NoMemory>
    ensures { IfOk result (λ line. string_bytes line ≡ codes "every step is applicable, but the goal is not reached\n") }
{
    Ok(String::from_str(
        alloc,
        "every step is applicable, but the goal is not reached\n",
    )?)
}

/// The same for a step given in these words.
fn numbered_line(alloc: Global, step: usize, words: &str) -> Result<String, NoMemory>
    ensures { IfOk result (λ line. string_bytes line ≡ codes "step " ++ (decimal step ++ (codes ", " ++ (words.now ++ codes ", is not applicable\n")))) }
{
    Ok(format!(in alloc; "step {step}, {words}, is not applicable\n")?)
}

/// The lines that give the reasons, each with LF.
///
/// For a plan that solves the task, a line for each step with its cost and the accumulated cost. For an inapplicable step or a
/// missed goal, a line for each false part, with the step that made it false.
///
/// # Errors
/// An allocation failed.
///
/// # Examples
/// ```text
/// (at a) is false: step 3, (hop a b), deleted it.
/// (not (busy a)) is false: (busy a) was true from the start.
/// (distance a b) has no value.
/// ```
pub fn report_details(
    alloc: Global,
    task: &Task,
    plan: &Plan,
    explanation: &PlanExplanation<'_>,
) -> Result<String, NoMemory>
    ensures { IfOk result (λ text. HasDetails (task_of task.now) (plan_of plan.now) explanation.now (string_bytes text)) }
{
    let mut text = Vec::new(alloc);
    PlanPrinter { alloc, task, plan }.add_details(explanation, &mut text)?;
    Ok(String::from_utf8_lossy(alloc, text.as_slice())?)
}

/// Prints what is said of a plan for a task.
#[derive(Clone, Copy)]
pub(crate) struct PlanPrinter<'p> {
    /// Supplies memory.
    pub alloc: Global,
    /// The task.
    pub task: &'p Task,
    /// The plan.
    pub plan: &'p Plan,
}

/// What a step costs, and what the steps up to it cost together.
#[derive(Clone, Copy)]
pub(crate) struct Paid {
    /// The cost of the step.
    pub cost: u32,
    /// The cost of the steps up to it.
    pub total: u64,
}

/// How a formula became false, with the objects of the variables in its scope.
#[derive(Clone, Copy)]
struct BecameFalse<'p> {
    objects: &'p [ObjectId],
    history: History,
}

impl PlanPrinter<'_> {
    /// The line for the inapplicable step with this number.
    fn step_line(&self, step: usize) -> Result<String, NoMemory>
        ensures { IfOk result (λ line. string_bytes line ≡ verdict_line (task_of self.now.task.now) (plan_of self.now.plan.now) (not_applicable step)) }
    {
        let words = self.step_name(step)?;
        numbered_line(self.alloc, step, words.as_str())
    }

    /// Adds the lines that give the reasons.
    fn add_details(
        &self,
        explanation: &PlanExplanation<'_>,
        text: &mut Vec<u8>,
    ) -> Result<(), NoMemory>
        ensures { OnOk result (AddsDetails (task_of self.now.task.now) (plan_of self.now.plan.now) explanation.now text.old.items text.new.items) }
    {
        match explanation {
            PlanExplanation::Solves { costs, .. } => self.add_steps(costs, text),
            PlanExplanation::NotApplicable {
                step,
                lacks_cost,
                reasons,
            } => {
                self.add_reasons(reasons, text)?;
                if *lacks_cost {
                    self.add_lacking_cost(*step, text)?;
                }
                Ok(())
            }
            PlanExplanation::GoalMissed { reasons } => self.add_reasons(reasons, text),
        }
    }

    /// Adds a line for each step that has a cost at its index: its number, its text, its cost and the accumulated cost.
    fn add_steps(&self, costs: &[u32], text: &mut Vec<u8>) -> Result<(), NoMemory>
        ensures { OnOk result (text.new.items ≡ text.old.items ++ cost_lines (task_of self.now.task.now) 0 0 (plan_of self.now.plan.now) costs.now) }
    {
        let mut total = 0;
        for (index, cost) in costs.iter().enumerate() {
            let Some(step) = self.plan.steps().get(index) else {
                return Ok(());
            };
            total += u64::from(*cost);
            self.add_step(index + 1, step, Paid { cost: *cost, total }, text)?;
        }
        Ok(())
    }

    /// Adds the line of the step with this number.
    pub(crate) fn add_step(
        &self,
        number: usize,
        step: &Instance,
        paid: Paid,
        text: &mut Vec<u8>,
    ) -> Result<(), NoMemory>
        ensures { OnOk result (text.new.items ≡ text.old.items ++ cost_line (task_of self.now.task.now) number (instance_of step.now) paid.cost paid.total) }
    {
        let words = step_text(self.alloc, self.task, step)?;
        let line = cost_line_of(self.alloc, number, words.as_str(), paid)?;
        text.extend_from_slice(line.as_bytes())?;
        Ok(())
    }

    /// Adds a line for each reason, and one if there are more.
    fn add_reasons(&self, reasons: &Reasons<'_>, text: &mut Vec<u8>) -> Result<(), NoMemory>
        ensures { OnOk result (text.new.items ≡ text.old.items ++ reasons_text (task_of self.now.task.now) (plan_of self.now.plan.now) reasons.now) }
    {
        self.add_each(&reasons.parts, &reasons.histories, text)?;
        if reasons.more {
            text.extend_from_slice(b"More conditions are false.\n")?;
        }
        Ok(())
    }

    /// Adds a line for each part, with the history at its index.
    fn add_each(
        &self,
        parts: &[Part<'_>],
        histories: &[History],
        text: &mut Vec<u8>,
    ) -> Result<(), NoMemory>
        ensures { OnOk result (text.new.items ≡ text.old.items ++ reason_lines (task_of self.now.task.now) (plan_of self.now.plan.now) (map part_of parts.now) (map history_of histories.now)) }
    {
        for (index, part) in parts.iter().enumerate() {
            match history_at(histories, index) {
                Some(history) => self.add_reason(part, history, text)?,
                None => return Ok(()),
            }
        }
        Ok(())
    }

    /// Adds the line of a false part, with its history.
    fn add_reason(
        &self,
        part: &Part<'_>,
        history: History,
        text: &mut Vec<u8>,
    ) -> Result<(), NoMemory>
        ensures { OnOk result (text.new.items ≡ text.old.items ++ reason_line (task_of self.now.task.now) (plan_of self.now.plan.now) (part_of part.now) (history_of history)) }
    {
        let objects = part.objects.as_slice();
        self.formula_printer(objects, part.names)
            .add_formula(part.formula, text)?;
        text.extend_from_slice(b" is false")?;
        self.add_why(part.formula, BecameFalse { objects, history }, text)?;
        text.extend_from_slice(b".\n")?;
        Ok(())
    }

    /// Adds how the formula became false.
    fn add_why(
        &self,
        formula: &Formula,
        how: BecameFalse<'_>,
        text: &mut Vec<u8>,
    ) -> Result<(), NoMemory>
        ensures { OnOk result (text.new.items ≡ text.old.items ++ why_text (task_of self.now.task.now) (plan_of self.now.plan.now) (map object_of how.entry.objects.now) (formula_of formula.now) (history_of how.entry.history)) }
    {
        match formula {
            Formula::Atom(_) => self.add_deleted(how.history, text),
            Formula::Not(part) => self.add_negation(part, how, text),
            _ => self.add_made(how.history, text),
        }
    }

    /// Adds how the negation of this part became false.
    fn add_negation(
        &self,
        part: &Formula,
        how: BecameFalse<'_>,
        text: &mut Vec<u8>,
    ) -> Result<(), NoMemory>
        ensures { OnOk result (text.new.items ≡ text.old.items ++ negation_text (task_of self.now.task.now) (plan_of self.now.plan.now) (map object_of how.entry.objects.now) (formula_of part.now) (history_of how.entry.history)) }
    {
        match part {
            Formula::Atom(_) => self.add_added(part, how, text),
            _ => self.add_made(how.history, text),
        }
    }

    /// Adds how an atom that should be true became false.
    fn add_deleted(&self, history: History, text: &mut Vec<u8>) -> Result<(), NoMemory>
        ensures { OnOk result (text.new.items ≡ text.old.items ++ deleted_text (task_of self.now.task.now) (plan_of self.now.plan.now) (history_of history)) }
    {
        match history {
            History::Always => Ok(text.extend_from_slice(b": it was never true")?),
            History::ByStep(step) => self.add_cause(step, b" deleted it", text),
        }
    }

    /// Adds how an atom that should be false became true.
    fn add_added(
        &self,
        atom: &Formula,
        how: BecameFalse<'_>,
        text: &mut Vec<u8>,
    ) -> Result<(), NoMemory>
        ensures { OnOk result (text.new.items ≡ text.old.items ++ added_text (task_of self.now.task.now) (plan_of self.now.plan.now) (formula_text (task_of self.now.task.now) (scope_at (map object_of how.entry.objects.now) []) (formula_of atom.now)) (history_of how.entry.history)) }
    {
        let printer = self.formula_printer(how.objects, &[]);
        match how.history {
            History::Always => {
                text.extend_from_slice(b": ")?;
                printer.add_formula(atom, text)?;
                text.extend_from_slice(b" was true from the start")?;
                Ok(())
            }
            History::ByStep(step) => {
                self.add_cause(step, b" added ", text)?;
                printer.add_formula(atom, text)?;
                Ok(())
            }
        }
    }

    /// Adds which step made another kind of formula false.
    fn add_made(&self, history: History, text: &mut Vec<u8>) -> Result<(), NoMemory>
        ensures { OnOk result (text.new.items ≡ text.old.items ++ made_text (task_of self.now.task.now) (plan_of self.now.plan.now) (history_of history)) }
    {
        match history {
            History::Always => Ok(()),
            History::ByStep(step) => self.add_cause(step, b" made it so", text),
        }
    }

    /// Adds that the step with this number is the cause.
    fn add_cause(&self, step: usize, deed: &[u8], text: &mut Vec<u8>) -> Result<(), NoMemory>
        ensures { OnOk result (text.new.items ≡ text.old.items ++ cause_text (task_of self.now.task.now) (plan_of self.now.plan.now) step deed.now) }
    {
        let words = self.step_words(step)?;
        text.extend_from_slice(b": ")?;
        text.extend_from_slice(words.as_bytes())?;
        text.extend_from_slice(deed)?;
        Ok(())
    }

    /// The words `step 3, (hop a b),`; steps are counted from 1.
    fn step_words(&self, step: usize) -> Result<String, NoMemory>
        ensures { IfOk result (λ words. string_bytes words ≡ codes "step " ++ (decimal step ++ (codes ", " ++ (step_name (task_of self.now.task.now) (plan_of self.now.plan.now) step ++ codes ",")))) }
    {
        let words = self.step_name(step)?;
        numbered_words(self.alloc, step, words.as_str())
    }

    /// The step with this number in plan syntax; empty if there is none.
    fn step_name(&self, step: usize) -> Result<String, NoMemory>
        ensures { IfOk result (λ name. string_bytes name ≡ step_name (task_of self.now.task.now) (plan_of self.now.plan.now) step) }
    {
        match step_at(self.plan, step) {
            Some(instance) => step_text(self.alloc, self.task, instance),
            None => Ok(String::new(self.alloc)),
        }
    }

    /// Adds the line that says that the action's cost increase has no value for this step.
    fn add_lacking_cost(&self, step: usize, text: &mut Vec<u8>) -> Result<(), NoMemory>
        ensures { OnOk result (text.new.items ≡ text.old.items ++ lacking_text (task_of self.now.task.now) (plan_of self.now.plan.now) step) }
    {
        match step_at(self.plan, step) {
            Some(instance) => self.add_lacking_value(instance, text),
            None => Ok(()),
        }
    }

    /// The same for this instance.
    fn add_lacking_value(&self, instance: &Instance, text: &mut Vec<u8>) -> Result<(), NoMemory>
        ensures { OnOk result (text.new.items ≡ text.old.items ++ instance_increase_text (task_of self.now.task.now) (instance_of instance.now)) }
    {
        match self.task.schema(instance.schema) {
            Some(schema) => self.add_increase(&schema.increase, instance.objects.as_slice(), text),
            None => Ok(()),
        }
    }

    /// Adds the line about a function without a value for these objects.
    fn add_increase(
        &self,
        increase: &Increase,
        objects: &[ObjectId],
        text: &mut Vec<u8>,
    ) -> Result<(), NoMemory>
        ensures { OnOk result (text.new.items ≡ text.old.items ++ increase_text (task_of self.now.task.now) (map object_of objects.now) (increase_of increase.now)) }
    {
        match increase {
            Increase::Function(function) => {
                let name = self.task.name_of_function(function.predicate);
                self.formula_printer(objects, &[])
                    .add_atom(name, function, text)?;
                text.extend_from_slice(b" has no value.\n")?;
                Ok(())
            }
            Increase::Number(_) => Ok(()),
        }
    }

    /// Prints formulas in which all variables have these objects, and quantified variables get these names.
    fn formula_printer<'a>(
        &'a self,
        objects: &'a [ObjectId],
        names: &'a [Vec<u8>],
    ) -> FormulaPrinter<'a>
        ensures task { result.task.now ≡ self.now.task.now }
        ensures scope { scope_of result.scope ≡ scope_at (map object_of objects.now) (names_in names.now) }
    {
        FormulaPrinter {
            alloc: self.alloc,
            task: self.task,
            scope: Scope::of(objects, names),
        }
    }
}

/// The history at this index.
fn history_at(histories: &[History], place: usize) -> Option<History>
    ensures { option_map history_of result ≡ slice_get (map history_of histories.now) place }
{
    match histories.get(place) {
        Some(history) => Some(*history),
        None => None,
    }
}

/// The line of the step with this number, in these words.
fn cost_line_of(alloc: Global, number: usize, words: &str, paid: Paid) -> Result<String, NoMemory>
    ensures { IfOk result (λ line. string_bytes line ≡ decimal number ++ (codes "  " ++ (words.now ++ (codes "  cost " ++ (decimal paid.cost ++ (codes ", " ++ (decimal paid.total ++ codes " so far\n"))))))) }
{
    let Paid { cost, total } = paid;
    Ok(format!(in alloc; "{number}  {words}  cost {cost}, {total} so far\n")?)
}

/// The same for a step given in these words.
fn numbered_words(alloc: Global, step: usize, words: &str) -> Result<String, NoMemory>
    ensures { IfOk result (λ text. string_bytes text ≡ codes "step " ++ (decimal step ++ (codes ", " ++ (words.now ++ codes ",")))) }
{
    Ok(format!(in alloc; "step {step}, {words},")?)
}

/// The step with this number, counted from 1.
fn step_at(plan: &Plan, step: usize) -> Option<&Instance>
    ensures { option_map (λ (i : Bor Instance). instance_of i.now) result ≡ (if step == 0 then None else slice_get (plan_of plan.now) (step - 1)) }
{
    if step == 0 {
        return None;
    }
    plan.steps().get(step - 1)
}
