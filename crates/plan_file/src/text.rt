//! The syntax of a plan text.
ghost use Rattle.std.specs.Prelude.{◌≡◌, IfOk, IfErr, IfSome};
ghost use Rattle.tokens.specs.Reported.{reported_by};
ghost use Rattle.plan_file.specs.PlanFile.{place_of, turn_of, sort_of, name_of, span_of, ReportsStop};
ghost use Rattle.model.specs.PlanMachine.{turn};

use crate::word::{Sort, refused};
use faults::{Code, Fault};
use tokens::Lexeme;

/// The parser's state. The object names of an open step are in a separate buffer.
#[derive(Clone, Copy)]
pub(super) enum PlanPlace<'a> {
    /// Outside of steps.
    Outside,
    /// After the `(` of a step.
    Opened,
    /// After the name of this action and any number of objects.
    Inside(Lexeme<'a>),
}

/// The effect of a word on the parser.
#[derive(Clone, Copy)]
pub(super) enum Advance<'a> {
    /// The parser moves to this state.
    Goes(PlanPlace<'a>),
    /// The step of this action ends.
    Ends(Lexeme<'a>),
}

impl<'a> PlanPlace<'a> {
    /// What this word, in this role, does in this state, or its refusal. The object names of the open step are kept in `objects`.
    pub(super) fn after(
        self,
        sort: Sort,
        word: Lexeme<'a>,
        objects: &mut Vec<Lexeme<'a>>,
    ) -> Result<Advance<'a>, Fault>
        ensures may_continue { IfOk result (λ next.
            turn (place_of self.entry objects.old.items) (sort_of sort) (name_of word.entry) ≡ turn_of next objects.new.items) }
        ensures refused { IfErr result (λ fault. IfSome (reported_by fault)
            (ReportsStop (turn (place_of self.entry objects.old.items) (sort_of sort) (name_of word.entry)) (span_of word.entry))) }
    {
        match self {
            PlanPlace::Outside => match sort {
                Sort::Open => Ok(Advance::Goes(PlanPlace::Opened)),
                Sort::Stamp => Err(refused(word, Code::TimedStep)),
                Sort::Close | Sort::Name | Sort::Other => Err(refused(word, Code::PlanForm)),
            },
            PlanPlace::Opened => match sort {
                Sort::Name => {
                    objects.clear();
                    Ok(Advance::Goes(PlanPlace::Inside(word)))
                }
                Sort::Open | Sort::Close | Sort::Stamp | Sort::Other => {
                    Err(refused(word, Code::PlanForm))
                }
            },
            PlanPlace::Inside(action) => match sort {
                Sort::Close => Ok(Advance::Ends(action)),
                Sort::Name => {
                    objects.push(word)?;
                    Ok(Advance::Goes(PlanPlace::Inside(action)))
                }
                Sort::Open | Sort::Stamp | Sort::Other => Err(refused(word, Code::PlanForm)),
            },
        }
    }
}
