//! All faults of a pair that are found before one of them hides what comes after it.
ghost use Rattle.std.specs.Prelude.{◌≡◌, ◌++◌, List, [], IfErr, IfOk, OnOk};
ghost use Rattle.pddl_tree.specs.Tree.{domain_of, problem_of};
ghost use Rattle.typing.specs.Resolver.{file_in, known_to};
ghost use Rattle.typing.specs.Walk.{Finds};
ghost use Rattle.typing.specs.Task.{ReportsAll};
ghost use Rattle.typing.specs.Declarations.{AreNamesOf};
ghost use Rattle.typing.specs.Listed.{AreFaultsOf, AreListed, faults_listed, use_faults};
ghost use Rattle.model.specs.Typing.{TypingFault, formula_faults, init_faults};

use crate::actions::walked_actions;
use crate::fault::{PairFault, TaskRefusal};
use crate::formulas::formula;
use crate::names::Names;
use crate::resolver::Resolver;
use crate::statements::walked_init;
use crate::walk::Walk;
use faults::{NoMemory, Refused};
use pddl_tree::{Domain, Problem, TaskFile};
use std::alloc::Global;

/// The faults of a pair: those of the first phase of typing that has any, up to [`MAX_LISTED`](crate::MAX_LISTED), and none if the
/// pair is well-typed. The actions, the initial state and the goal are a single phase here, since they do not depend on each
/// other. The faults of the domain come before those of the problem, each in the order of the text. A fault that is found twice
/// is listed twice.
///
/// # Errors
/// An allocation failed.
pub fn listed_faults(
    alloc: Global,
    domain: &Domain<'_>,
    problem: &Problem<'_>,
) -> Result<Vec<TaskRefusal>, NoMemory>
    ensures all { IfOk result (λ listed. AreListed (faults_listed (domain_of domain.now) (problem_of problem.now)) listed.items) }
    ensures each { IfOk result (λ listed. AreFaultsOf (domain_of domain.now) (problem_of problem.now) listed.items) }
{
    match every_fault(alloc, domain, problem) {
        Ok(()) => Ok(Vec::new(alloc)),
        Err(fault) => in_order(fault),
    }
}

/// The listed faults in order: the domain's before the problem's, then by start, then by number.
fn in_order(fault: PairFault) -> Result<Vec<TaskRefusal>, NoMemory>
    ensures { (faults : List TypingFault) → ReportsAll faults fault → IfOk result (λ listed. AreListed faults listed.items) }
{
    let mut listed = match fault {
        Refused::At(refusal) => refusal.listed,
        Refused::NoMemory => return Err(NoMemory),
    };
    listed.sort_unstable_by_key(|fault| {
        let is_later = fault.file == TaskFile::Problem;
        (is_later, fault.span.start, fault.code.number())
    });
    Ok(listed)
}

/// Fails with the faults of the first phase that has any.
fn every_fault(alloc: Global, domain: &Domain<'_>, problem: &Problem<'_>) -> Result<(), PairFault>
    ensures none { OnOk result (faults_listed (domain_of domain.now) (problem_of problem.now) ≡ []) }
    ensures reported { IfErr result (ReportsAll (faults_listed (domain_of domain.now) (problem_of problem.now))) }
{
    let names = Names::declared(alloc, domain, problem)?;
    uses(alloc, &names, domain, problem)
}

/// Fails with the faults of the actions, of the initial state and of the goal.
fn uses(
    alloc: Global,
    names: &Names,
    domain: &Domain<'_>,
    problem: &Problem<'_>,
) -> Result<(), PairFault>
    requires { AreNamesOf (domain_of domain.now) (problem_of problem.now) names.now }
    ensures none { OnOk result (use_faults (domain_of domain.now) (problem_of problem.now) ≡ []) }
    ensures reported { IfErr result (ReportsAll (use_faults (domain_of domain.now) (problem_of problem.now))) }
{
    let walk = Walk::new(alloc)?;
    let in_domain = names.in_domain();
    let mut resolver = Resolver::new(walk, &in_domain);
    walked_actions(&mut resolver, domain)?;
    let in_problem = names.in_problem();
    let mut resolver = Resolver::new(resolver.into_walk(), &in_problem);
    walk_statements(&mut resolver, problem)?;
    resolver.finish(())
}

/// Finds the faults of the initial state and of the goal.
fn walk_statements(resolver: &mut Resolver<'_>, problem: &Problem<'_>) -> Result<(), NoMemory>
    ensures { OnOk result (Finds resolver.old.walk resolver.new.walk (init_faults (file_in resolver.old) (known_to resolver.old) (problem_of problem.now).init
        ++ formula_faults (file_in resolver.old) (known_to resolver.old) (problem_of problem.now).goal)) }
{
    let scope = resolver.globals.with(&resolver.variables);
    walked_init(&mut resolver.walk, &scope, problem)?;
    formula(resolver, &problem.goal)?;
    Ok(())
}
