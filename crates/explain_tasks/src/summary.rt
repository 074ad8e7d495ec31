//! The size and features of a task, in a few lines.
ghost use Rattle.std.specs.Prelude.{◌≡◌, IfOk};
ghost use Rattle.std.specs.String.{string_bytes};
ghost use Rattle.task.specs.Task.{task_of};
ghost use Rattle.explain_tasks.specs.Summary.{IsSummaryOf, forms_line, numbers_line, summary_text};

use crate::forms::Forms;
use faults::NoMemory;
use std::alloc::{AllocError, Global};
use std::fmt;
use task::Task;

/// The size and features of a task.
#[derive(Clone, Copy, Debug, PartialEq, Eq)]
pub struct Summary {
    /// The number of types, including `object`.
    pub types: usize,
    /// The number of objects.
    pub objects: usize,
    /// The number of predicates.
    pub predicates: usize,
    /// The number of functions, including `total-cost` if it is declared.
    pub functions: usize,
    /// The number of action schemas.
    pub actions: usize,
    /// Whether the total cost is minimized.
    pub has_costs: bool,
    /// The language features used in the preconditions, the effects and the goal.
    pub forms: Forms,
}

impl Summary {
    /// Summarizes the task.
    pub fn of(task: &Task) -> Summary
        ensures { IsSummaryOf (task_of task.now) result }
    {
        Summary {
            types: task.type_count(),
            objects: task.object_count(),
            predicates: task.predicate_count(),
            functions: task.function_count(),
            actions: task.schema_count(),
            has_costs: task.has_metric(),
            forms: Forms::of(task),
        }
    }

    /// The summary as lines, each with LF.
    ///
    /// # Errors
    /// An allocation failed.
    pub fn text(&self, alloc: Global) -> Result<String, NoMemory>
        ensures { IfOk result (λ text. string_bytes text ≡ summary_text self.now) }
    {
        let mut text = self.numbers_line(alloc)?;
        let last = self.forms_line(alloc)?;
        text.push_str(last.as_str())?;
        Ok(text)
    }

    /// The line with the numbers.
    fn numbers_line(&self, alloc: Global) -> Result<String, AllocError>
        ensures { IfOk result (λ line. string_bytes line ≡ numbers_line self.now) }
    {
        let (types, objects, predicates) = (self.types, self.objects, self.predicates);
        let (functions, actions) = (self.functions, self.actions);
        format!(in alloc;
            "types {types}, objects {objects}, predicates {predicates}, functions {functions}, actions {actions}\n"
        )
    }

    /// The line with the costs and the features.
    fn forms_line(&self, alloc: Global) -> Result<String, AllocError>
        ensures { IfOk result (λ line. string_bytes line ≡ forms_line self.now) }
    {
        let costs = YesOrNo(self.has_costs);
        let forms = self.forms.text(alloc)?;
        format!(in alloc; "costs {costs}, {forms}\n")
    }
}

/// A fact in a word: `yes` or `no`.
#[derive(Clone, Copy)]
pub(crate) struct YesOrNo(pub bool);

impl fmt::Display for YesOrNo {
    ghost use Rattle.std.specs.Prelude.{Some};
    ghost use Rattle.explain_tasks.specs.Summary.{answer};

    ghost output = { λ fact. Some (answer fact.0) };

    fn fmt<W: fmt::Write>(&self, f: &mut fmt::Formatter<W>) -> fmt::Result {
        let word = if self.0 { "yes" } else { "no" };
        write!(f, "{word}")
    }
}
