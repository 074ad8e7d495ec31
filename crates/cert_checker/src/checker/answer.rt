//! The answer to a closed certificate and a plan.
ghost use Rattle.std.specs.Prelude.{◌≡◌, ℕ, None, IsTrue, IfErr, IfOk};
ghost use Rattle.std.specs.List.{list_all};
ghost use Rattle.std.specs.Option.{ForSome, option_map};
ghost use Rattle.task.specs.Task.{task_of};
ghost use Rattle.formulas.specs.State.{plan_of};
ghost use Rattle.certificate_reader.specs.Lines.{claim_of};
ghost use Rattle.cert_checker.specs.CertChecker.{Answers, IsFirstRefusal, IsShown, IsTrueRefusal};
ghost use Rattle.model.specs.Meaning.{is_instance, system_of};
ghost use Rattle.model.specs.Limits.{max_numbered_atoms};
ghost use Rattle.model.specs.Grounding.{exceeded_limit};
ghost use Rattle.model.specs.Claims.{ClaimHolds};
ghost use Rattle.certificate_definitions.specs.Certificates.{Certificate, IsClosedFor};

use crate::checker::Accepted;
use crate::refusal::{Refusal, RefusalCode};
use certificate::Claim;
use formulas::Plan;
use std::alloc::Global;
use task::Task;
use validator::{Verdict, validate};

/// The answer to a true claim: a statement on all plans, or that the given plan is optimal.
pub(super) fn answer(
    alloc: Global,
    task: &Task,
    claim: Claim,
    plan: Option<&Plan>,
) -> Result<Accepted, Refusal>
    requires instances { ForSome plan (λ p. IsTrue (list_all (is_instance (task_of task.now)) (plan_of p.now))) }
    requires holds { ClaimHolds (system_of (task_of task.now)) (claim_of claim) }
    ensures shown { IfOk result (IsShown (task_of task.now) (option_map (λ p. plan_of p.now) plan.entry)) }
    ensures answers { IfOk result (Answers (claim_of claim) (option_map (λ p. plan_of p.now) plan.entry)) }
    ensures wrong { IfErr result (λ e. (c : Certificate) (most : ℕ) → c.claim ≡ claim_of claim
        → IsTrueRefusal (task_of task.now) c (option_map (λ p. plan_of p.now) plan.entry) most e) }
    ensures first { IfErr result (λ e. (c : Certificate) (most : ℕ) → c.claim ≡ claim_of claim
        → IsClosedFor (task_of task.now) c → exceeded_limit most max_numbered_atoms (task_of task.now) c.atoms ≡ None
        → IsFirstRefusal (task_of task.now) c (option_map (λ p. plan_of p.now) plan.entry) most e) }
{
    let Some(plan) = plan else {
        return Ok(match claim {
            Claim::Bound(cost) => Accepted::AtLeast { cost },
            Claim::Unsolvable => Accepted::Unsolvable,
        });
    };
    let Verdict::Valid { cost } = validate(alloc, task, plan)? else {
        return Err(Refusal::Plain(RefusalCode::PlanInvalid));
    };
    match claim {
        Claim::Bound(least) if cost <= least => Ok(Accepted::Optimal { cost }),
        Claim::Bound(_) => Err(Refusal::Plain(RefusalCode::PlanDearer)),
        Claim::Unsolvable => Err(Refusal::Plain(RefusalCode::PlanInvalid)),
    }
}
