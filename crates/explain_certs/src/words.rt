//! The words beside the checker's answer.
use crate::gap::{Gap, gap_at};
use crate::lines::{Line, line_of};
use crate::meanings::meaning_of;
use crate::named_atom::{UnknownName, unknown_in};
use crate::numbers::{Claimed, Listed, claim_in, state_in, value_of};
use cert_checker::{Accepted, Refusal, RefusalCode};
use explain_hints::{Name, marked};
use faults::NoMemory;
use formulas::{Instance, cost};
use plan_file::step_text;
use std::alloc::{AllocError, Global};
use task::Task;
use validator::Verdict;

/// A certificate that was checked for a task.
#[derive(Clone, Copy)]
pub struct CheckedCert<'a> {
    /// The task.
    pub task: &'a Task,
    /// The text of the certificate, or its beginning if it is long.
    pub text: &'a [u8],
    /// The verdict on the plan beside it, if one is given.
    pub verdict: Option<Verdict>,
    /// The maximum number of instances that may be kept.
    pub max_instances: u32,
}

/// What the answer means, in lines, each with LF: of a refusal the line of the certificate with its number, if the answer names one,
/// and one or two sentences, with the numbers that are compared where the line and the claim have them.
///
/// No contract says what the words mean.
///
/// # Errors
/// An allocation failed.
///
/// # Examples
/// ```text
///   18 | cut 5 2 3 6
///      | ^^^^^^^^^^^
/// A plan through the state of this line may cost as little as 7: 5 up to the state, and 2 from there. The certificate claims that every plan costs at least 8, which is 1 more.
/// ```
pub fn words_of(
    alloc: Global,
    cert: CheckedCert<'_>,
    answer: &Result<Accepted, Refusal>,
) -> Result<String, NoMemory> {
    match answer {
        Ok(accepted) => Ok(accepted_words(alloc, *accepted)?),
        Err(Refusal::Line { code, line }) => cert.line_words(alloc, *code, *line),
        Err(Refusal::Unfair(step)) => cert.unfair_words(alloc, step),
        Err(Refusal::DeadUnfair(step)) => cert.dead_unfair_words(alloc, step),
        Err(Refusal::Plain(code)) => Ok(cert.plain_words(alloc, *code)?),
        Err(Refusal::NoMemory | Refusal::Device | Refusal::Failed) => Ok(String::new(alloc)),
    }
}

/// What an accepted certificate shows.
fn accepted_words(alloc: Global, accepted: Accepted) -> Result<String, AllocError> {
    match accepted {
        Accepted::Optimal { cost } => {
            format!(in alloc; "The plan solves the task at cost {cost}, and no plan costs less.\n")
        }
        Accepted::AtLeast { cost } => format!(in alloc; "Every plan costs at least {cost}.\n"),
        Accepted::Unsolvable => String::from_str(alloc, "No plan solves the task.\n"),
    }
}

impl CheckedCert<'_> {
    /// The words of a refusal at a line, after the line itself.
    fn line_words(self, alloc: Global, code: RefusalCode, number: u64) -> Result<String, NoMemory> {
        match line_of(self.text, number) {
            Some(line) => {
                let mut words = marked(alloc, self.text, line.span)?;
                self.add_line_words(alloc, code, line, &mut words)?;
                words.push_str("\n")?;
                Ok(words)
            }
            None => {
                let mut words = String::from_str(alloc, meaning_of(code))?;
                words.push_str("\n")?;
                Ok(words)
            }
        }
    }

    /// Adds what is wrong with the line.
    fn add_line_words(
        self,
        alloc: Global,
        code: RefusalCode,
        line: Line<'_>,
        words: &mut String,
    ) -> Result<(), NoMemory> {
        match (code, state_in(line.bytes)) {
            (RefusalCode::CertForm, _) => words.push_str(self.form_words(line))?,
            (RefusalCode::NotFluent, _) => self.add_not_fluent(line, words)?,
            (RefusalCode::GoalOpen, Some(at)) => self.add_goal(at, words)?,
            (RefusalCode::CutWeak, Some(at)) => self.add_weak_cut(at, words)?,
            (RefusalCode::SuccessorMissing | RefusalCode::SuccessorDearer, Some(at)) => {
                self.add_successor(alloc, code, at, words)?
            }
            _ => words.push_str(meaning_of(code))?,
        }
        Ok(())
    }

    /// Adds why no action changes an atom.
    fn add_not_fluent(self, line: Line<'_>, words: &mut String) -> Result<(), AllocError> {
        match unknown_in(self.task, line.bytes) {
            Some(UnknownName::Predicate(name)) => add_unknown("predicate", name, words),
            Some(UnknownName::Object(name)) => add_unknown("object", name, words),
            None => words.push_str(meaning_of(RefusalCode::NotFluent)),
        }
    }

    /// Adds that an expanded state meets the goal at a cost that the claim rules out.
    fn add_goal(self, at: Listed<'_>, words: &mut String) -> Result<(), AllocError> {
        match claim_in(self.text) {
            Some(Claimed::Bound(bound)) => add_goal_below(at, bound, words),
            Some(Claimed::Nothing) => add_goal_of_none(at, words),
            None => words.push_str(meaning_of(RefusalCode::GoalOpen)),
        }
    }

    /// Adds why a cut is too weak: for the claim, or by its values.
    fn add_weak_cut(self, at: Listed<'_>, words: &mut String) -> Result<(), AllocError> {
        match claim_in(self.text) {
            Some(Claimed::Bound(bound)) if at.paid.saturating_add(at.left) < bound => {
                add_cut_below(at, bound, words)
            }
            _ => add_value_below(at, value_of(self.text, at.numbers), words),
        }
    }

    /// Adds which step leads to a state that is not listed, or is listed at too high a cost.
    fn add_successor(
        self,
        alloc: Global,
        code: RefusalCode,
        at: Listed<'_>,
        words: &mut String,
    ) -> Result<(), NoMemory> {
        match gap_at(alloc, self, at)? {
            Some(gap) => add_gap(at, &gap, words)?,
            None => words.push_str(meaning_of(code))?,
        }
        Ok(())
    }

    /// What is wrong with a line that is malformed or out of place.
    fn form_words(self, line: Line<'_>) -> &'static str {
        if line.span.start == 0 {
            self.first_line_words(line)
        } else if line.bytes.starts_with(b"end") {
            "The last line is `end N`, where N is the number of states that are listed."
        } else {
            meaning_of(RefusalCode::CertForm)
        }
    }

    /// What the text is, if its first line begins no certificate.
    fn first_line_words(self, line: Line<'_>) -> &'static str {
        let is_plan = self.text.starts_with(b"(") || self.text.starts_with(b";");
        if self.text.starts_with(b"\xef\xbb\xbf") {
            "The file begins with a byte order mark. Save it without one."
        } else if line.bytes.ends_with(b"\r") {
            "The lines end with CR LF. Save the file with LF alone."
        } else if self.text.starts_with(b"(define") {
            "This is PDDL, not a certificate. A certificate begins with a line such as `pddl-cert 2`."
        } else if is_plan {
            "This is a plan, not a certificate. Give the plan by `--plan`, and the certificate by `--cert`."
        } else {
            "A certificate begins with a line such as `pddl-cert 2`."
        }
    }

    /// The words about an instance by which a value may fall too far.
    fn unfair_words(self, alloc: Global, step: &Instance) -> Result<String, NoMemory> {
        let name = step_text(alloc, self.task, step)?;
        let (name, most) = (name.as_str(), cost(self.task, step));
        Ok(format!(in alloc;
            "{name} costs {most}, but when it is applied, a value of the certificate may fall by more. So the value may exceed the remaining cost.\n"
        )?)
    }

    /// The words about an instance by which the value for dead ends may fall.
    fn dead_unfair_words(self, alloc: Global, step: &Instance) -> Result<String, NoMemory> {
        let name = step_text(alloc, self.task, step)?;
        let name = name.as_str();
        Ok(format!(in alloc;
            "When {name} is applied, the value for dead ends may fall. So it may be above 0 in a state from which the goal can be reached.\n"
        )?)
    }

    /// The words of a refusal without a line.
    fn plain_words(self, alloc: Global, code: RefusalCode) -> Result<String, AllocError> {
        match (code, self.verdict, claim_in(self.text)) {
            (RefusalCode::PlanDearer, Some(Verdict::Valid { cost }), Some(Claimed::Bound(bound))) =>
                {
                    let more = cost.saturating_sub(bound);
                    format!(in alloc;
                        "The plan costs {cost}, but the certificate only claims that every plan costs at least {bound}, which is {more} less. So the plan may not be a cheapest one.\n"
                    )
                }
            (RefusalCode::PlanInvalid, Some(Verdict::NotApplicable { step }), _) => {
                format!(in alloc;
                    "Step {step} of the plan is not applicable. `optplan explain DOMAIN PROBLEM PLAN` says why.\n"
                )
            }
            (RefusalCode::PlanInvalid, Some(Verdict::GoalMissed), _) => {
                String::from_str(
                    alloc,
                    "The plan does not reach the goal. `optplan explain DOMAIN PROBLEM PLAN` says why.\n",
                )
            }
            _ => {
                let meaning = meaning_of(code);
                format!(in alloc; "{meaning}\n")
            }
        }
    }
}

/// Adds that the task has nothing of this kind with this name.
fn add_unknown(kind: &str, name: &[u8], words: &mut String) -> Result<(), AllocError> {
    let name = Name(name);
    write!(
        words,
        "The task has no {kind} {name}. This may be the certificate of another task."
    )
}

/// Adds that an expanded state meets the goal at a cost below the claimed bound.
fn add_goal_below(at: Listed<'_>, bound: u64, words: &mut String) -> Result<(), AllocError> {
    let Listed { paid, .. } = at;
    let more = bound.saturating_sub(paid);
    write!(
        words,
        "The state of this line meets the goal at cost {paid}. The certificate claims that every plan costs at least {bound}, which is {more} more."
    )
}

/// Adds that an expanded state meets the goal, where the claim is that there is no plan.
fn add_goal_of_none(at: Listed<'_>, words: &mut String) -> Result<(), AllocError> {
    let Listed { paid, .. } = at;
    write!(
        words,
        "The state of this line meets the goal at cost {paid}. The certificate claims that there is no plan."
    )
}

/// Adds that a cut allows plans below the claimed bound.
fn add_cut_below(at: Listed<'_>, bound: u64, words: &mut String) -> Result<(), AllocError> {
    let Listed { paid, left, .. } = at;
    let whole = paid.saturating_add(left);
    let more = bound.saturating_sub(whole);
    write!(
        words,
        "A plan through the state of this line may cost as little as {whole}: {paid} up to the state, and {left} from there. The certificate claims that every plan costs at least {bound}, which is {more} more."
    )
}

/// Adds that a cut says more than its value shows, which is this one if it is known.
fn add_value_below(
    at: Listed<'_>,
    value: Option<u64>,
    words: &mut String,
) -> Result<(), AllocError> {
    let Listed { left, .. } = at;
    match value {
        Some(value) if value < left => {
            let less = left.saturating_sub(value);
            write!(
                words,
                "The line says that at least {left} is still to pay from its state. The value of the state is {value}, which is {less} less."
            )
        }
        _ => write!(
            words,
            "The line says that at least {left} is still to pay from its state. The value that it rests on is less there."
        ),
    }
}

/// Adds which step leads to a state that is not listed, or is listed at too high a cost.
fn add_gap(at: Listed<'_>, gap: &Gap, words: &mut String) -> Result<(), AllocError> {
    let step = gap.step.as_str();
    match gap.listed {
        Some(listed) => {
            let Listed { paid, .. } = at;
            let cost = gap.cost;
            let reached = paid.saturating_add(u64::from(cost));
            let more = listed.saturating_sub(reached);
            write!(
                words,
                "{step} leads from the state of this line to a state at cost {reached}: {paid} up to this state, and {cost} for the step. But that state is listed at cost {listed}, which is {more} more. So the certificate leaves out a cheaper way there."
            )
        }
        None => write!(
            words,
            "{step} leads from the state of this line to a state that no line lists. So the certificate leaves out the plans that go there."
        ),
    }
}
