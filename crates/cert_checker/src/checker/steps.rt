//! The test of a certificate against the ground task.
ghost use Rattle.std.specs.Prelude.{◌≡◌, ◌≢◌, ℕ, ◌+◌, ◌<◌, ◌↔◌, AllPairs, List, length, map, slice_get, Option, None, Some, IsTrue, IfErr, IfOk, OnOk};
ghost use Rattle.std.specs.List.{list_all};
ghost use Rattle.task.specs.Task.{task_of};
ghost use Rattle.packed_state.specs.Packed.{bits_of};
ghost use Rattle.grounding.specs.Ground.{task_in, atoms_in, IsGroundOf};
ghost use Rattle.certificate_reader.specs.Lines.{basis_of, claim_of};
ghost use Rattle.symmetries.specs.Exchange.{exchange_of};
ghost use Rattle.packed_state.specs.PooledView.{pooled_width};
ghost use Rattle.certificate.specs.Certificate.{certificate_of, store_in};
ghost use Rattle.cert_checker.specs.CertChecker.{IsFirstRefusal, IsTrueRefusal};
ghost use Rattle.cert_checker.specs.FluentAtoms.{AreFluent};
ghost use Rattle.cert_checker.specs.CheckedLines.{AreSymmetries, CutsAreAllowed, IsCutClosed, IsFirstGrounded, IsLineClosed, IsExpandedClosed, IsRightGrounded, IsRightUpTo, IsTrueAnyway, IsListedAs, IsListedBy};
ghost use Rattle.cert_checker.specs.Exchanged.{is_said};
ghost use Rattle.cert_checker.specs.PackedListing.{task_at, atoms_at, certificate_at, state_at, IsPacked, IsKnownIn};
ghost use Rattle.model.specs.Task as model_task;
ghost use Rattle.model.specs.Meaning as meaning;
ghost use Rattle.model.specs.Claims as claims;
ghost use Rattle.model.specs.Claims.{expanded, Allows, IsListedWithin};
ghost use Rattle.certificate_definitions.specs.Evidence.{cut, dead};
ghost use Rattle.model.specs.NumberedAtoms.{numbered_atoms};
ghost use Rattle.model.specs.Grounding.{applicable_numbers};
ghost use Rattle.certificate_definitions.specs.Certificates.{is_dead_end_by, lines_of, AreAlikeFor, AreFairFor, AreLandmarksFair, StateLine};
ghost use Rattle.cert_checker.specs.Weights.{AreCounted};
ghost use Rattle.certificate_definitions.specs.CertificateRefusals.{state_line};
ghost use Rattle.cert_checker.specs.declared.refusal.Refusal.TheVariants as Refusal;

use crate::checker::classes::classes_by;
use crate::checker::evidence::GroundEvidence;
use crate::checker::packed::PackedListing;
use crate::checker::symmetry::symmetric_exchanges;
use crate::refusal::{Refusal, RefusalCode};
use certificate::{Basis, Cert, Claim, Mark};
use grounding::{Ground, GroundFault};
use packed_state::Packed;
use std::alloc::Global;
use symmetries::Exchange;
use tables::KnownState;
use task::Task;

/// Grounds the task and checks, in this order: the exchanges are symmetries; the values are fair, and the one for dead ends is
/// dead-fair; the landmark values are fair, and those that dead ends rest on are dead-fair; a state of the initial state's class is
/// listed at cost 0; each state line is right.
pub(super) fn check_cert(
    alloc: Global,
    task: &Task,
    cert: Cert,
    max_instances: u32,
) -> Result<(), Refusal>
    requires counted { AreCounted cert }
    requires said { IsTrue (list_all (is_said (task_of task.now)) (certificate_of cert).exchanges) }
    requires atoms { AreFluent (task_of task.now) (certificate_of cert).atoms }
    requires distinct { AllPairs (λ (k l : claims.Line meaning.State). k.state ≢ l.state) (lines_of (task_of task.now) (certificate_of cert)) }
    requires allowed { CutsAreAllowed (task_of task.now) (certificate_of cert) (length (lines_of (task_of task.now) (certificate_of cert))) }
    ensures right { OnOk result (IsRightUpTo (task_of task.now) (certificate_of cert) max_instances (length (lines_of (task_of task.now) (certificate_of cert)))) }
    ensures wrong { IfErr result (λ e. (plan : Option (List model_task.Instance)) → IsTrueRefusal (task_of task.now) (certificate_of cert) plan max_instances e) }
    ensures first { IfErr result (λ e. (plan : Option (List model_task.Instance)) → IsFirstRefusal (task_of task.now) (certificate_of cert) plan max_instances e) }
{
    let grounded = ground_task(alloc, task, &cert, max_instances)?;
    check_grounded(alloc, &grounded, cert)
}

/// The ground task, which numbers the certificate's atoms first.
fn ground_task<'t>(
    alloc: Global,
    task: &'t Task,
    cert: &Cert,
    max_instances: u32,
) -> Result<Ground<'t>, Refusal>
    requires atoms { AreFluent (task_of task.now) (certificate_of cert.now).atoms }
    requires distinct { AllPairs (λ (k l : claims.Line meaning.State). k.state ≢ l.state) (lines_of (task_of task.now) (certificate_of cert.now)) }
    requires allowed { CutsAreAllowed (task_of task.now) (certificate_of cert.now) (length (lines_of (task_of task.now) (certificate_of cert.now))) }
    ensures right { IfOk result (IsGroundOf (task_of task.now) (certificate_of cert.now).atoms max_instances) }
    ensures wrong { IfErr result (λ e. (plan : Option (List model_task.Instance)) → IsTrueRefusal (task_of task.now) (certificate_of cert.now) plan max_instances e) }
    ensures first { IfErr result (λ e. (plan : Option (List model_task.Instance)) → IsFirstRefusal (task_of task.now) (certificate_of cert.now) plan max_instances e) }
{
    match Ground::new(alloc, task, cert.atoms(), max_instances) {
        Ok(grounded) => Ok(grounded),
        Err(GroundFault::At(_)) => Err(Refusal::Plain(RefusalCode::Limit)),
        Err(GroundFault::NoMemory) => Err(Refusal::NoMemory),
    }
}

/// Checks the certificate against the ground task, which numbers its atoms first.
fn check_grounded(alloc: Global, grounded: &Ground<'_>, cert: Cert) -> Result<(), Refusal>
    requires counted { AreCounted cert }
    requires said { IsTrue (list_all (is_said (task_in grounded.now)) (certificate_of cert).exchanges) }
    requires fluent { AreFluent (task_in grounded.now) (certificate_of cert).atoms }
    requires numbered { atoms_in grounded.now ≡ numbered_atoms (task_in grounded.now) (certificate_of cert).atoms }
    ensures right { OnOk result (IsRightGrounded (task_in grounded.now) (certificate_of cert)) }
    ensures wrong { IfErr result (IsTrueAnyway (task_in grounded.now) (certificate_of cert)) }
    ensures first { IfErr result (IsFirstGrounded (task_in grounded.now) (certificate_of cert)) }
{
    let cert = cert.at_width(alloc, grounded.width())?;
    let exchanges = symmetric_exchanges(alloc, &cert, grounded)?;
    check_symmetric(alloc, grounded, &cert, exchanges.as_slice())
}

/// Checks the certificate, whose exchanges are symmetries and whose sets are as wide as the ground task's.
fn check_symmetric(
    alloc: Global,
    grounded: &Ground<'_>,
    cert: &Cert,
    exchanges: &[Exchange],
) -> Result<(), Refusal>
    requires counted { AreCounted cert.now }
    requires fluent { AreFluent (task_in grounded.now) (certificate_of cert.now).atoms }
    requires numbered { atoms_in grounded.now ≡ numbered_atoms (task_in grounded.now) (certificate_of cert.now).atoms }
    requires width { pooled_width (store_in cert.now) ≡ length (atoms_in grounded.now) }
    requires exchanges { map exchange_of exchanges.now ≡ (certificate_of cert.now).exchanges }
    requires symmetric { AreSymmetries (task_in grounded.now) (certificate_of cert.now) }
    ensures right { OnOk result (IsRightGrounded (task_in grounded.now) (certificate_of cert.now)) }
    ensures wrong { IfErr result (IsTrueAnyway (task_in grounded.now) (certificate_of cert.now)) }
    ensures first { IfErr result (IsFirstGrounded (task_in grounded.now) (certificate_of cert.now)) }
{
    let evidence = GroundEvidence::fair(alloc, cert, grounded)?;
    let classes = classes_by(alloc, grounded, cert, exchanges)?;
    let packed = PackedListing::new(grounded, cert, evidence, classes);
    check_packed(alloc, &packed)
}

/// Checks the listing of a certificate with fair values: a state of the initial state's class is listed at cost 0, and each state
/// line is right.
fn check_packed(alloc: Global, listing: &PackedListing) -> Result<(), Refusal>
    requires fair { AreFairFor (task_at listing.now) (certificate_at listing.now) }
    requires landmarks { AreLandmarksFair (task_at listing.now) (certificate_at listing.now) }
    ensures right { OnOk result (IsRightGrounded (task_at listing.now) (certificate_at listing.now)) }
    ensures wrong { IfErr result (IsTrueAnyway (task_at listing.now) (certificate_at listing.now)) }
    ensures first { IfErr result (IsFirstGrounded (task_at listing.now) (certificate_at listing.now)) }
{
    check_initial(alloc, listing)?;
    check_lines(alloc, listing)
}

/// Checks that a state of the initial state's class is listed at cost 0.
fn check_initial(alloc: Global, listing: &PackedListing) -> Result<(), Refusal>
    ensures right { OnOk result (IsListedWithin (AreAlikeFor (task_at listing.now) (certificate_at listing.now)) (lines_of (task_at listing.now) (certificate_at listing.now)) (meaning.system_of (task_at listing.now)).initial 0) }
    ensures wrong { IfErr result (IsTrueAnyway (task_at listing.now) (certificate_at listing.now)) }
    ensures first { AreFairFor (task_at listing.now) (certificate_at listing.now) → AreLandmarksFair (task_at listing.now) (certificate_at listing.now)
        → IfErr result (IsFirstGrounded (task_at listing.now) (certificate_at listing.now)) }
{
    let mut initial = listing.grounded.initial(alloc)?;
    if listing.least_cost(&mut initial) == Some(0) {
        Ok(())
    } else {
        Err(Refusal::Plain(RefusalCode::NoInitial))
    }
}

/// Checks the state lines in order.
fn check_lines(alloc: Global, listing: &PackedListing) -> Result<(), Refusal>
    ensures right { OnOk result ((place : ℕ) (line : StateLine) → slice_get (certificate_at listing.now).lines place ≡ Some line
        → IsLineClosed (task_at listing.now) (certificate_at listing.now) line) }
    ensures wrong { IfErr result (IsTrueAnyway (task_at listing.now) (certificate_at listing.now)) }
    ensures first { IfErr result (λ e. (plan : Option (List model_task.Instance)) (most : ℕ) → IsRightUpTo (task_at listing.now) (certificate_at listing.now) most 0
        → IsFirstRefusal (task_at listing.now) (certificate_at listing.now) plan most e) }
{
    let width = listing.grounded.width();
    let mut state = Packed::empty(alloc, width)?;
    let mut next = Packed::empty(alloc, width)?;
    let mut numbers = Vec::new(alloc);
    let mut known = listing.known_state(alloc)?;
    for place in 0..listing.cert.marks().len() {
        check_line(
            listing,
            place,
            &mut state,
            &mut next,
            &mut numbers,
            &mut known,
        )?;
    }
    Ok(())
}

/// Checks the state line at this place. The last four parameters are scratch; `known` moves from line to line.
fn check_line(
    listing: &PackedListing,
    place: usize,
    state: &mut Packed,
    next: &mut Packed,
    numbers: &mut Vec<u32>,
    known: &mut KnownState,
) -> Result<(), Refusal>
    requires within { place < length (certificate_at listing.now).lines }
    requires state { IsPacked listing.now state.old }
    requires next { IsPacked listing.now next.old }
    requires known { IsKnownIn listing.now known.old }
    ensures state { IsPacked listing.now state.new }
    ensures next { IsPacked listing.now next.new }
    ensures known { IsKnownIn listing.now known.new }
    ensures right { OnOk result ((line : StateLine) → slice_get (certificate_at listing.now).lines place ≡ Some line
        → IsLineClosed (task_at listing.now) (certificate_at listing.now) line) }
    ensures wrong { IfErr result (IsTrueAnyway (task_at listing.now) (certificate_at listing.now)) }
    ensures first { IfErr result (λ e. (plan : Option (List model_task.Instance)) (most : ℕ) → IsRightUpTo (task_at listing.now) (certificate_at listing.now) most place
        → IsFirstRefusal (task_at listing.now) (certificate_at listing.now) plan most e) }
{
    let listed = listing.cert.marks()[place];
    listing.get(place, state);
    match listed.mark {
        Mark::Expanded => check_expanded(listing, place, listed.cost, state, next, numbers),
        Mark::Cut { by, rest } => {
            let line = CutLine {
                place,
                cost: listed.cost,
                by,
                rest,
            };
            check_cut(listing, line, state, known)
        }
        Mark::Dead { by } => check_dead(listing, DeadLine { place, by }, state, known),
    }
}

/// Checks an expanded state, its place and cost given: first the goal, then the successors in order.
fn check_expanded(
    listing: &PackedListing,
    place: usize,
    cost: u64,
    state: &Packed,
    next: &mut Packed,
    numbers: &mut Vec<u32>,
) -> Result<(), Refusal>
    requires within { place < length (certificate_at listing.now).lines }
    requires state { IsPacked listing.now state.now }
    requires next { IsPacked listing.now next.old }
    requires listed { IsListedAs (task_at listing.now) (certificate_at listing.now) place (state_at listing.now state.now) cost expanded }
    requires small { cost < 1152921504606846976 }
    ensures next { IsPacked listing.now next.new }
    ensures right { OnOk result (IsExpandedClosed (task_at listing.now) (certificate_at listing.now) (state_at listing.now state.now) cost) }
    ensures wrong { IfErr result (IsTrueAnyway (task_at listing.now) (certificate_at listing.now)) }
    ensures first { IfErr result (λ e. (plan : Option (List model_task.Instance)) (most : ℕ) → IsRightUpTo (task_at listing.now) (certificate_at listing.now) most place
        → IsFirstRefusal (task_at listing.now) (certificate_at listing.now) plan most e) }
{
    check_goal(listing, place, cost, state)?;
    listing.grounded.list_applicable(state, numbers)?;
    check_successors(listing, place, cost, state, numbers, next)
}

/// Checks that an expanded state that meets the goal costs no less than claimed.
fn check_goal(
    listing: &PackedListing,
    place: usize,
    cost: u64,
    state: &Packed,
) -> Result<(), Refusal>
    requires within { place < length (certificate_at listing.now).lines }
    requires state { IsPacked listing.now state.now }
    requires listed { IsListedAs (task_at listing.now) (certificate_at listing.now) place (state_at listing.now state.now) cost expanded }
    ensures right { OnOk result (IsTrue (meaning.meets_goal (task_at listing.now) (state_at listing.now state.now)) → Allows (certificate_at listing.now).claim cost) }
    ensures wrong { IfErr result (IsTrueAnyway (task_at listing.now) (certificate_at listing.now)) }
    ensures first { IfErr result (λ e. (plan : Option (List model_task.Instance)) (most : ℕ) → IsRightUpTo (task_at listing.now) (certificate_at listing.now) most place
        → IsFirstRefusal (task_at listing.now) (certificate_at listing.now) plan most e) }
{
    if listing.grounded.meets_goal(state) && !allows(listing.cert.claim(), cost) {
        Err(state_line(RefusalCode::GoalOpen, listing.cert, place))
    } else {
        Ok(())
    }
}

/// Checks the successors of an expanded state by the instances with these numbers: a state of each one's class is listed, at no more
/// than `cost` and the instance's cost together.
fn check_successors(
    listing: &PackedListing,
    place: usize,
    cost: u64,
    state: &Packed,
    numbers: &[u32],
    next: &mut Packed,
) -> Result<(), Refusal>
    requires within { place < length (certificate_at listing.now).lines }
    requires state { IsPacked listing.now state.now }
    requires next { IsPacked listing.now next.old }
    requires listed { IsListedAs (task_at listing.now) (certificate_at listing.now) place (state_at listing.now state.now) cost expanded }
    requires small { cost < 1152921504606846976 }
    requires numbers { numbers.now ≡ applicable_numbers (task_at listing.now) (atoms_at listing.now) (bits_of state.now) }
    requires goal { IsTrue (meaning.meets_goal (task_at listing.now) (state_at listing.now state.now)) → Allows (certificate_at listing.now).claim cost }
    ensures next { IsPacked listing.now next.new }
    ensures right { OnOk result (IsExpandedClosed (task_at listing.now) (certificate_at listing.now) (state_at listing.now state.now) cost) }
    ensures wrong { IfErr result (IsTrueAnyway (task_at listing.now) (certificate_at listing.now)) }
    ensures first { IfErr result (λ e. (plan : Option (List model_task.Instance)) (most : ℕ) → IsRightUpTo (task_at listing.now) (certificate_at listing.now) most place
        → IsFirstRefusal (task_at listing.now) (certificate_at listing.now) plan most e) }
{
    for &number in numbers {
        listing.grounded.step_into(number, state, next);
        let Some(listed) = listing.least_cost(next) else {
            return Err(state_line(RefusalCode::SuccessorMissing, listing.cert, place));
        };
        if listed > cost + u64::from(listing.grounded.cost(number)) {
            return Err(state_line(RefusalCode::SuccessorDearer, listing.cert, place));
        }
    }
    Ok(())
}

/// A cut: its place, its cost, its basis, and its lower bound of the remaining cost.
#[derive(Clone, Copy)]
struct CutLine {
    place: usize,
    cost: u64,
    by: Basis,
    rest: u64,
}

/// Checks a cut: its bound is at most the state's value by its basis, and its cost and bound together are no less than claimed.
fn check_cut(
    listing: &PackedListing,
    line: CutLine,
    state: &Packed,
    known: &mut KnownState,
) -> Result<(), Refusal>
    requires within { line.place < length (certificate_at listing.now).lines }
    requires state { IsPacked listing.now state.now }
    requires known { IsKnownIn listing.now known.old }
    requires listed { IsListedBy (task_at listing.now) (certificate_at listing.now) line.place (state_at listing.now state.now) line.cost (cut (basis_of line.by) line.rest) }
    requires small { (line.cost < 1152921504606846976) × (line.rest < 1152921504606846976) }
    ensures known { IsKnownIn listing.now known.new }
    ensures right { OnOk result (IsCutClosed (task_at listing.now) (certificate_at listing.now) (state_at listing.now state.now) line.cost (basis_of line.by) line.rest) }
    ensures wrong { IfErr result (IsTrueAnyway (task_at listing.now) (certificate_at listing.now)) }
    ensures first { IfErr result (λ e. (plan : Option (List model_task.Instance)) (most : ℕ) → IsRightUpTo (task_at listing.now) (certificate_at listing.now) most line.place
        → IsFirstRefusal (task_at listing.now) (certificate_at listing.now) plan most e) }
{
    if listing.is_worth(line.by, line.rest, state, known)
        && allows(listing.cert.claim(), line.cost + line.rest)
    {
        Ok(())
    } else {
        Err(state_line(RefusalCode::CutWeak, listing.cert, line.place))
    }
}

/// A dead end: its place and its basis.
#[derive(Clone, Copy)]
struct DeadLine {
    place: usize,
    by: Basis,
}

/// Checks that a state that is listed as a dead end is one by its basis.
fn check_dead(
    listing: &PackedListing,
    line: DeadLine,
    state: &Packed,
    known: &mut KnownState,
) -> Result<(), Refusal>
    requires within { line.place < length (certificate_at listing.now).lines }
    requires state { IsPacked listing.now state.now }
    requires known { IsKnownIn listing.now known.old }
    requires listed { (cost : ℕ) × IsListedBy (task_at listing.now) (certificate_at listing.now) line.place (state_at listing.now state.now) cost (dead (basis_of line.by)) }
    ensures known { IsKnownIn listing.now known.new }
    ensures right { OnOk result (IsTrue (is_dead_end_by (task_at listing.now) (certificate_at listing.now) (basis_of line.by) (state_at listing.now state.now))) }
    ensures wrong { IfErr result (IsTrueAnyway (task_at listing.now) (certificate_at listing.now)) }
    ensures first { IfErr result (λ e. (plan : Option (List model_task.Instance)) (most : ℕ) → IsRightUpTo (task_at listing.now) (certificate_at listing.now) most line.place
        → IsFirstRefusal (task_at listing.now) (certificate_at listing.now) plan most e) }
{
    if listing.shows_dead_end(line.by, state, known) {
        Ok(())
    } else {
        Err(state_line(RefusalCode::NotDead, listing.cert, line.place))
    }
}

/// Whether the claim allows a plan of this cost.
fn allows(claim: Claim, cost: u64) -> bool
    ensures { IsTrue result ↔ Allows (claim_of claim) cost }
{
    match claim {
        Claim::Bound(least) => least <= cost,
        Claim::Unsolvable => false,
    }
}

/// Refuses the state line at this place, from 0, by its line.
pub(super) fn state_line(code: RefusalCode, cert: &Cert, place: usize) -> Refusal
    requires { place < length (certificate_of cert.now).lines }
    ensures { result ≡ Refusal.Line code (state_line (certificate_of cert.now) place) }
{
    Refusal::Line {
        code,
        line: cert.first_state_line() + place as u64,
    }
}
