//! The answer to a task, and how it is found.
ghost use Rattle.std.specs.Prelude.{◌≡◌, ◌≤◌, [], count_by, is_some, IfOk, IsTrue, OnOk, map, Option, ℕ};
ghost use Rattle.task.specs.Task.{task_of};
ghost use Rattle.grounding.specs.Ground.{task_in, atoms_in, IsGroundOf};
ghost use Rattle.potentials_improved.specs.FairPotentials as fair;
ghost use Rattle.potentials_improved.specs.FairPotentials.{potentials_in};
ghost use Rattle.solver.specs.Guidance.{estimate_by, reports_dead, version_by};
ghost use Rattle.solver.specs.Guided.{IsEnding, IsGuidanceFor, IsHalted, IsSearched};
ghost use Rattle.search_spaces.specs.Exchanges.{AreExchangesFor};
ghost use Rattle.symmetries.specs.Exchange.{exchange_of};
ghost use Rattle.solver.specs.Improved.{AreSettledOrHigh, AreDeadSettledOrHigh};
ghost use Rattle.devices.specs.Progress.{MayContinue};
ghost use Rattle.solver.specs.Said.{HasEnded, IsLineWithin, IsTrueLine, IsTrueReport, is_marked_expanded, report_of};
ghost use Rattle.model.specs.NumberedAtoms.{numbered_atoms};
ghost use Rattle.search_spaces.specs.SearchSpace.{ground_in, IsSearchSpace};
ghost use Rattle.solver.specs.Solver.{HasVersionUpTo, IsAnswerWithin, IsTrueAnswer};
ghost use Rattle.solver.specs.Versions.{number_of};
ghost use Rattle.potentials_improved.specs.Potentials.{potentials_of};
ghost use Rattle.solver.specs.Written.{guidance_of, by_potentials_of, version_in};
ghost use Rattle.solver.specs.declared.answer.Answer.TheVariants.{Unknown};
ghost use Rattle.certificate.specs.Certificate.{certificate_of};
ghost use Rattle.certificate_definitions.specs.CertificateText.{version_number};
ghost use Rattle.certificate.specs.CertificateParts.{listed_of};
ghost use Rattle.model.specs.Task as model;
ghost use Rattle.model.specs.WellTyped.{is_task};

use crate::guidance::{Guidance, guidance_by};
use crate::limits::Limits;
use crate::listing::cert_of;
use crate::parts::{Given, Parts, search_in_parts};
use crate::reports::{RaisedBy, Report, say};
use crate::searched::{Ending, Halted, Searched};
use crate::setting::{Session, Setting};
use certificate::{Cert, Claim, Listed, Mark};
use devices::{Clock, Sink, Unheard};
use faults::{NoMemory, Refused};
use formulas::Plan;
use grounding::{Ground, GroundLimit};
use potentials_improved::{DeadFair, Fair, Groundwork, improved_from_zero};
use search::{EstimateWithDeadEnds, Outcome};
use search_spaces::{SearchSpace, exchanges_of, plan_of};
use std::alloc::Global;
use symmetries::{Exchange, Representatives};
use task::Task;

/// The answer to a task.
#[derive(Drop)]
pub enum Answer {
    /// A cheapest plan.
    Plan {
        /// Its steps.
        steps: Plan,
        /// Their total cost.
        cost: u64,
        /// Shows that no plan costs less.
        cert: Cert,
    },
    /// No plan exists.
    Unsolvable {
        /// Shows that none exists.
        cert: Cert,
    },
    /// A limit is exceeded.
    Unknown(Exceeded),
}

/// An exceeded limit. Only the last two tell something of plans.
#[derive(Drop)]
pub enum Exceeded {
    /// The limit of kept instances: those that are not statically inapplicable.
    Instances,
    /// The limit of numbered atoms, 1,048,576.
    Atoms,
    /// The limit of listed states.
    States {
        /// A lower bound of every plan's cost.
        bound: u64,
        /// Shows that no plan costs less.
        cert: Cert,
    },
    /// The limit of time.
    Time {
        /// A lower bound of every plan's cost.
        bound: u64,
        /// Shows that no plan costs less.
        cert: Cert,
    },
}

/// A cheapest plan of the task, or that it has none, with the certificate that shows it.
///
/// ```text
/// let Some(limits) = Limits::new(100_000, 10_000) else { .. };
/// match solve(alloc, &task, limits)? {
///     Answer::Plan { steps, cost, cert } => ..,
///     Answer::Unsolvable { cert } => ..,
///     Answer::Unknown(Exceeded::States { bound, cert }) => ..,
///     Answer::Unknown(limit) => ..,
/// }
/// ```
///
/// **Values.** The search is guided by fair potentials of the ground task, improved in at most 8 rounds; the certificate has them too.
/// If they are not settled, the initial state's value by them is at least 8. During the search, values over tables may replace them:
/// the potentials of the first value are these, and are fair by themselves. With a plan, each expanded state of the certificate costs,
/// with its value, no more than the plan. Dead-fair potentials, also in the certificate and also settled or high, report dead ends:
/// such states are listed and not expanded.
///
/// **Symmetries.** If objects are interchangeable, exchanges of them map states to each other, and it suffices to list one of these at
/// no greater cost than the others (orbit space search: Domshlak, Katz and Shleyfman, "Symmetry Breaking in Deterministic Planning as
/// Forward Search", 2015). Such states are recognized by their representatives, which are often equal, but not always. The certificate
/// has the exchanges, each a symmetry of the task. Not all exchanges need be found.
///
/// **Limits.** With the limits above, the certificate lists at most 100,000 distinct states, each at the cost of a list of instances
/// that leads to it. If more are reachable and may have to be listed, the answer is `Unknown(Exceeded::States { .. })` with a
/// certificate of 100,000. Its bound is the least sum of cost and value of a state that waits to be expanded. No expanded state has a
/// greater sum, and the bound is at least the initial state's value.
///
/// If the time is limited (`Limits::within_seconds`), it is looked at before the search, whenever 5,000 more states are listed, and between
/// the parts of a draft of tables. If it is over, the answer is `Unknown(Exceeded::Time { .. })`, which says of the states that are
/// listed by then what it would say at a limit of as many. No time passes for `solve`.
///
/// If the certificate may have version 2 alone (`Limits::up_to_version`), the search goes by potentials and lists each state by itself:
/// that version has neither tables nor exchanges. By default the certificate has the version that its values need.
///
/// Two limits are reported before potentials are made: `Unknown(Exceeded::Instances)` exactly if the task has more than 10,000 kept
/// instances, and `Unknown(Exceeded::Atoms)` exactly if it has no more, but more than 1,048,576 numbered atoms.
///
/// # Errors
/// Memory is refused.
pub fn solve(alloc: Global, task: &Task, limits: Limits) -> Result<Answer, NoMemory>
    ensures answer { IfOk result (IsTrueAnswer (task_of task.now) limits.seconds limits.states limits.instances) }
    // The certificate that is written is of at most the version that is asked for.
    ensures version { IfOk result (HasVersionUpTo (number_of limits.version)) }
{
    solve_and_say(alloc, task, limits, &mut Unheard)
}

/// The same, with progress reported in lines of `key=value` (`Report`): the size of the ground task; a lower bound and the numbers of
/// listed and expanded states, at the beginning of a search and, from 1,024 listed states on, whenever the bound has risen or the
/// listing has doubled; and at the end the size of the certificate. Each line is true of this task. A failing sink changes no answer.
///
/// # Errors
/// Memory is refused, also for a line.
pub fn solve_and_say<E: Sink + Clock>(
    alloc: Global,
    task: &Task,
    limits: Limits,
    err: &mut E,
) -> Result<Answer, NoMemory>
    ensures answer { IfOk result (IsTrueAnswer (task_of task.now) limits.seconds limits.states limits.instances) }
    ensures version { IfOk result (HasVersionUpTo (number_of limits.version)) }
    ensures said { MayContinue (IsTrueLine (task_of task.now) limits.seconds limits.states limits.instances) E.may_lack_memory (E.failures err.old) (E.taken err.old) (E.failures err.new) (E.taken err.new) }
    ensures ended { IfOk result (HasEnded E.may_lack_memory (E.failures err.new) (E.taken err.new)) }
{
    match Ground::new(alloc, task, &[], limits.instances()) {
        Ok(ground) => solve_ground(alloc, &ground, limits, err),
        Err(Refused::At(GroundLimit::Instances)) => {
            say(alloc, Report::Limit(RaisedBy::Instances), err)?;
            Ok(Answer::Unknown(Exceeded::Instances))
        }
        Err(Refused::At(GroundLimit::Atoms)) => Ok(Answer::Unknown(Exceeded::Atoms)),
        Err(Refused::NoMemory) => Err(NoMemory),
    }
}

/// Reports the end: the option that raises the exceeded limit, and the size of the answer's certificate, if there are such.
fn say_end<E: Sink>(alloc: Global, answer: &Answer, err: &mut E) -> Result<(), NoMemory>
    ensures said { (task : model.Task) (seconds : Option ℕ) (states instances : ℕ) → IsTrueAnswer task seconds states instances answer.now → MayContinue (IsTrueLine task seconds states instances) E.may_lack_memory (E.failures err.old) (E.taken err.old) (E.failures err.new) (E.taken err.new) }
    ensures ended { OnOk result (HasEnded E.may_lack_memory (E.failures err.new) (E.taken err.new) answer.now) }
{
    match answer {
        Answer::Plan { cert, .. } => say(alloc, end_of(cert), err),
        Answer::Unsolvable { cert } => say(alloc, end_of(cert), err),
        Answer::Unknown(limit) => say_limit(alloc, limit, err),
    }
}

/// Reports the end where a limit is exceeded.
fn say_limit<E: Sink>(alloc: Global, limit: &Exceeded, err: &mut E) -> Result<(), NoMemory>
    ensures said { (task : model.Task) (seconds : Option ℕ) (states instances : ℕ) → IsTrueAnswer task seconds states instances (Unknown limit.now) → MayContinue (IsTrueLine task seconds states instances) E.may_lack_memory (E.failures err.old) (E.taken err.old) (E.failures err.new) (E.taken err.new) }
    ensures ended { OnOk result (HasEnded E.may_lack_memory (E.failures err.new) (E.taken err.new) (Unknown limit.now)) }
{
    match limit {
        Exceeded::States { cert, .. } => {
            say(alloc, Report::Limit(RaisedBy::States), err)?;
            say(alloc, end_of(cert), err)
        }
        Exceeded::Time { cert, .. } => {
            say(alloc, Report::Limit(RaisedBy::Seconds), err)?;
            say(alloc, end_of(cert), err)
        }
        Exceeded::Instances => say(alloc, Report::Limit(RaisedBy::Instances), err),
        Exceeded::Atoms => Ok(()),
    }
}

/// The report of a certificate's size.
fn end_of(cert: &Cert) -> Report
    ensures { result ≡ report_of (certificate_of cert.now) }
{
    Report::End {
        listed: cert.line_count(),
        expanded: count_expanded(cert.marks()),
    }
}

/// The number of expanded states.
fn count_expanded(marks: &[Listed]) -> usize
    ensures { result ≡ count_by is_marked_expanded (map listed_of marks.now) }
{
    let mut count = 0;
    for listed in marks {
        if matches!(listed.mark, Mark::Expanded) {
            count += 1;
        }
    }
    count
}

/// Solves the ground task, and reports its size and the end.
fn solve_ground<E: Sink + Clock>(
    alloc: Global,
    ground: &Ground<'_>,
    limits: Limits,
    err: &mut E,
) -> Result<Answer, NoMemory>
    requires typed { IsTrue (is_task (task_in ground.now)) }
    requires ground { IsGroundOf (task_in ground.now) [] limits.instances ground.now }
    ensures answer { IfOk result (IsTrueAnswer (task_in ground.now) limits.seconds limits.states limits.instances) }
    ensures version { IfOk result (HasVersionUpTo (number_of limits.version)) }
    ensures said { MayContinue (IsLineWithin (task_in ground.now) limits) E.may_lack_memory (E.failures err.old) (E.taken err.old) (E.failures err.new) (E.taken err.new) }
    ensures ended { IfOk result (HasEnded E.may_lack_memory (E.failures err.new) (E.taken err.new)) }
{
    say(alloc, ground_report(ground), err)?;
    let answer = solve_in_version(alloc, ground, limits, err)?;
    say_end(alloc, &answer, err)?;
    Ok(answer)
}

/// The report of the ground task's size.
fn ground_report(ground: &Ground<'_>) -> Report
    requires { atoms_in ground.now ≡ numbered_atoms (task_in ground.now) [] }
    ensures { (seconds : Option ℕ) (states instances : ℕ) → IsTrueReport (task_in ground.now) seconds states instances result }
{
    Report::Ground {
        instances: ground.instances().len(),
        atoms: ground.width() as usize,
    }
}

/// Solves the ground task, modulo exchanges of objects if the certificate may have them. The caller reports size and end.
fn solve_in_version<E: Sink + Clock>(
    alloc: Global,
    ground: &Ground<'_>,
    limits: Limits,
    err: &mut E,
) -> Result<Answer, NoMemory>
    requires typed { IsTrue (is_task (task_in ground.now)) }
    requires ground { IsGroundOf (task_in ground.now) [] limits.instances ground.now }
    ensures answer { IfOk result (IsAnswerWithin (task_in ground.now) limits) }
    ensures said { MayContinue (IsLineWithin (task_in ground.now) limits) E.may_lack_memory (E.failures err.old) (E.taken err.old) (E.failures err.new) (E.taken err.new) }
{
    if !limits.allow_version_three() {
        return solve_listed(alloc, SearchSpace::Alone(ground), limits, err);
    }
    let exchanges = exchanges_of(alloc, ground)?;
    solve_by_exchanges(alloc, ground, &exchanges, limits, err)
}

/// Solves the ground task modulo these exchanges.
fn solve_by_exchanges<E: Sink + Clock>(
    alloc: Global,
    ground: &Ground<'_>,
    exchanges: &[Exchange],
    limits: Limits,
    err: &mut E,
) -> Result<Answer, NoMemory>
    requires version { 3 ≤ number_of limits.version }
    requires typed { IsTrue (is_task (task_in ground.now)) }
    requires ground { IsGroundOf (task_in ground.now) [] limits.instances ground.now }
    requires exchanges { AreExchangesFor ground.now (map exchange_of exchanges.now) }
    ensures answer { IfOk result (IsAnswerWithin (task_in ground.now) limits) }
    ensures said { MayContinue (IsLineWithin (task_in ground.now) limits) E.may_lack_memory (E.failures err.old) (E.taken err.old) (E.failures err.new) (E.taken err.new) }
{
    if exchanges.is_empty() {
        return solve_listed(alloc, SearchSpace::Alone(ground), limits, err);
    }
    match Representatives::new(alloc, ground, exchanges)? {
        Some(representatives) => {
            solve_listed(alloc, SearchSpace::Orbits(&representatives), limits, err)
        }
        None => unreachable!(),
    }
}

/// Improves potentials, and solves the ground task by them in this search space.
fn solve_listed<E: Sink + Clock>(
    alloc: Global,
    space: SearchSpace<'_, '_>,
    limits: Limits,
    err: &mut E,
) -> Result<Answer, NoMemory>
    requires version { version_number (version_in space) ≤ number_of limits.version }
    requires space { IsSearchSpace space }
    requires ground { IsGroundOf (task_in (ground_in space)) [] limits.instances (ground_in space) }
    ensures answer { IfOk result (IsAnswerWithin (task_in (ground_in space.entry)) limits) }
    ensures said { MayContinue (IsLineWithin (task_in (ground_in space.entry)) limits) E.may_lack_memory (E.failures err.old) (E.taken err.old) (E.failures err.new) (E.taken err.new) }
{
    let ground = space.ground();
    let groundwork = Groundwork::new(alloc, ground)?;
    let estimate: Fair<'_, '_> = improved_from_zero(alloc, ground, &groundwork)?;
    let dead_ends: DeadFair<'_, '_> = improved_from_zero(alloc, ground, &groundwork)?;
    drop(groundwork);
    let setting = Setting {
        alloc,
        space,
        limits,
    };
    solve_by_potentials(setting, &estimate, &dead_ends, err)
}

/// Solves the ground task by these potentials, or by tables if better ones are found during the search.
fn solve_by_potentials<E: Sink + Clock>(
    setting: Setting<'_, '_>,
    estimate: &Fair<'_, '_>,
    dead_ends: &DeadFair<'_, '_>,
    err: &mut E,
) -> Result<Answer, NoMemory>
    requires version { version_number (version_in setting.space) ≤ number_of setting.limits.version }
    requires space { IsSearchSpace setting.space }
    requires ground { IsGroundOf (task_in (ground_in setting.space)) [] setting.limits.instances (ground_in setting.space) }
    requires estimate { fair.ground_in estimate.now ≡ ground_in setting.space }
    requires improved { AreSettledOrHigh (task_in (ground_in setting.space)) (atoms_in (ground_in setting.space)) (potentials_in estimate.now) }
    requires dead_ends { fair.ground_in dead_ends.now ≡ ground_in setting.space }
    requires dead_ends_improved { AreDeadSettledOrHigh (task_in (ground_in setting.space)) (atoms_in (ground_in setting.space)) (potentials_in dead_ends.now) }
    ensures answer { IfOk result (IsAnswerWithin (task_in (ground_in setting.entry.space)) setting.entry.limits) }
    ensures said { MayContinue (IsLineWithin (task_in (ground_in setting.entry.space)) setting.entry.limits) E.may_lack_memory (E.failures err.old) (E.taken err.old) (E.failures err.new) (E.taken err.new) }
{
    let guide = EstimateWithDeadEnds::new(estimate, dead_ends);
    let given = Given {
        potentials: estimate.potentials(),
        dead_ends: dead_ends.potentials(),
    };
    let session = Session {
        setting,
        guide: &guide,
    };
    match search_in_parts(&session, given, err)? {
        Parts::ByTables(answer) => Ok(answer),
        Parts::ByGuide(ending) => answer_by_potentials(setting, given, ending),
    }
}

/// The answer of a search by these potentials.
fn answer_by_potentials(
    setting: Setting<'_, '_>,
    given: Given<'_>,
    ending: Ending<'_, '_>,
) -> Result<Answer, NoMemory>
    requires version { version_number (version_in setting.space) ≤ number_of setting.limits.version }
    requires space { IsSearchSpace setting.space }
    requires ground { IsGroundOf (task_in (ground_in setting.space)) [] setting.limits.instances (ground_in setting.space) }
    requires guidance { IsGuidanceFor setting.space (by_potentials_of setting.space (potentials_of given.potentials.now) (potentials_of given.dead_ends.now)) }
    requires ending { IsEnding setting.space
        (estimate_by (by_potentials_of setting.space (potentials_of given.potentials.now) (potentials_of given.dead_ends.now)))
        (reports_dead (by_potentials_of setting.space (potentials_of given.potentials.now) (potentials_of given.dead_ends.now)))
        setting.limits ending }
    ensures { IfOk result (IsAnswerWithin (task_in (ground_in setting.entry.space)) setting.entry.limits) }
{
    let Setting { alloc, space, .. } = setting;
    let guidance = guidance_by(alloc, space, given.potentials, given.dead_ends)?;
    answer_of(setting, guidance, ending)
}

/// The answer of a search by this guidance, with its certificate.
pub(crate) fn answer_of(
    setting: Setting<'_, '_>,
    guidance: Guidance,
    ending: Ending<'_, '_>,
) -> Result<Answer, NoMemory>
    requires version { version_number (version_by (guidance_of guidance)) ≤ number_of setting.limits.version }
    requires space { IsSearchSpace setting.space }
    requires ground { IsGroundOf (task_in (ground_in setting.space)) [] setting.limits.instances (ground_in setting.space) }
    requires guidance { IsGuidanceFor setting.space (guidance_of guidance) }
    requires ending { IsEnding setting.space (estimate_by (guidance_of guidance)) (reports_dead (guidance_of guidance)) setting.limits ending }
    ensures { IfOk result (IsAnswerWithin (task_in (ground_in setting.entry.space)) setting.entry.limits) }
{
    match ending {
        Ending::Complete(searched) => answer_of_search(setting, guidance, searched),
        Ending::OutOfTime(halted) => answer_in_time(setting, guidance, halted),
    }
}

/// The answer of a search by this guidance whose time is over.
fn answer_in_time(
    setting: Setting<'_, '_>,
    guidance: Guidance,
    halted: Halted<'_, '_>,
) -> Result<Answer, NoMemory>
    requires version { version_number (version_by (guidance_of guidance)) ≤ number_of setting.limits.version }
    requires space { IsSearchSpace setting.space }
    requires ground { IsGroundOf (task_in (ground_in setting.space)) [] setting.limits.instances (ground_in setting.space) }
    requires guidance { IsGuidanceFor setting.space (guidance_of guidance) }
    requires halted { IsHalted setting.space (estimate_by (guidance_of guidance)) (reports_dead (guidance_of guidance)) setting.limits.states halted }
    requires limited { IsTrue (is_some setting.limits.seconds) }
    ensures { IfOk result (IsAnswerWithin (task_in (ground_in setting.entry.space)) setting.entry.limits) }
{
    let Setting { alloc, space, .. } = setting;
    let Halted {
        bound,
        states,
        marks,
    } = halted;
    let cert = cert_of(alloc, space, guidance, Claim::Bound(bound), marks, states)?;
    Ok(Answer::Unknown(Exceeded::Time { bound, cert }))
}

/// The answer of a search by this guidance that ended by itself.
fn answer_of_search(
    setting: Setting<'_, '_>,
    guidance: Guidance,
    searched: Searched<'_, '_>,
) -> Result<Answer, NoMemory>
    requires version { version_number (version_by (guidance_of guidance)) ≤ number_of setting.limits.version }
    requires space { IsSearchSpace setting.space }
    requires ground { IsGroundOf (task_in (ground_in setting.space)) [] setting.limits.instances (ground_in setting.space) }
    requires guidance { IsGuidanceFor setting.space (guidance_of guidance) }
    requires searched { IsSearched setting.space (estimate_by (guidance_of guidance)) (reports_dead (guidance_of guidance)) setting.limits.states searched.outcome searched.marks.items }
    ensures { IfOk result (IsAnswerWithin (task_in (ground_in setting.entry.space)) setting.entry.limits) }
{
    let Setting { alloc, space, .. } = setting;
    let Searched { outcome, marks } = searched;
    match outcome {
        Outcome::Found {
            steps,
            cost,
            states,
        } => {
            let steps = plan_of(alloc, space.ground(), &steps)?;
            let claim = Claim::Bound(cost);
            let cert = cert_of(alloc, space, guidance, claim, marks, states)?;
            Ok(Answer::Plan { steps, cost, cert })
        }
        Outcome::Exhausted { states } => {
            let claim = Claim::Unsolvable;
            let cert = cert_of(alloc, space, guidance, claim, marks, states)?;
            Ok(Answer::Unsolvable { cert })
        }
        Outcome::States { bound, states } => {
            let claim = Claim::Bound(bound);
            let cert = cert_of(alloc, space, guidance, claim, marks, states)?;
            Ok(Answer::Unknown(Exceeded::States { bound, cert }))
        }
    }
}
