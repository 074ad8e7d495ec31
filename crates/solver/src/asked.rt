//! The answer of a search that asked for landmark values, and its certificate.
ghost use Rattle.std.specs.Prelude.{◌≡◌, ◌≤◌, [], IfOk, IfSome, IsTrue, length, map};
ghost use Rattle.grounding.specs.Ground.{task_in, atoms_in, IsGroundOf};
ghost use Rattle.packed_state.specs.PooledView.{pooled_states};
ghost use Rattle.search_spaces.specs.GroundListing.{listed_states};
ghost use Rattle.search_spaces.specs.SearchSpace.{exchanges_in, ground_in, IsSearchSpace};
ghost use Rattle.landmark_zones.specs.Landmarks.{landmarks_of};
ghost use Rattle.certificate_reader.specs.Lines.{claim_of, version_of};
ghost use Rattle.certificate_reader.specs.declared.line.TheConstants.{MAX_ATOMS, MAX_STATE_LINES};
ghost use Rattle.certificate_definitions.specs.Certificates.{are_exchanges, four, is_claim};
ghost use Rattle.certificate.specs.Certificate.{certificate_of};
ghost use Rattle.certificate.specs.CertificateParts.{listed_of};
ghost use Rattle.certificate.specs.Evidence.{evidence_of, is_evidence};
ghost use Rattle.search.specs.declared.under_way.Stop.TheVariants.{Ended};
ghost use Rattle.solver.specs.Asked.{AreLines, IsAsked, asked_certificate};
ghost use Rattle.solver.specs.Guidance.{by_tables};
ghost use Rattle.solver.specs.Guided.{IsGuidanceFor};
ghost use Rattle.solver.specs.Solver.{IsAnswerWithin};
ghost use Rattle.solver.specs.Versions.{number_of};

use crate::answer::{Answer, Exceeded};
use crate::asking::Asked;
use crate::listing::{copied, sets_of};
use crate::setting::Setting;
use certificate::{Cert, Claim, Evidence, Header, NUMBER_LIMIT, States, Version};
use faults::NoMemory;
use line_evidence::Marked;
use search::{FoundStates, Outcome, Stop};
use search_spaces::{GroundListing, plan_of};

/// The answer of a search by these values that asked for landmark values. `None` if a certificate cannot have them, or a cost so high.
pub(crate) fn answer_of_asked(
    setting: Setting<'_, '_>,
    evidence: Evidence,
    asked: Asked<'_, '_>,
) -> Result<Option<Answer>, NoMemory>
    requires version { 4 ≤ number_of setting.limits.version }
    requires space { IsSearchSpace setting.space }
    requires ground { IsGroundOf (task_in (ground_in setting.space)) [] setting.limits.instances (ground_in setting.space) }
    requires guidance { IsGuidanceFor setting.space (by_tables (evidence_of evidence)) }
    requires asked { IsAsked setting.space (evidence_of evidence) setting.limits asked }
    ensures { IfOk result (λ o. IfSome o (IsAnswerWithin (task_in (ground_in setting.entry.space)) setting.entry.limits)) }
{
    let Asked { stop, marked } = asked;
    match stop {
        Stop::Ended(outcome) => answer_of_outcome(setting, evidence, outcome, marked),
        Stop::Waiting { bound, states } => {
            let lines = Lines { marked, states };
            match asked_cert(setting, evidence, Claim::Bound(bound), lines)? {
                Some(cert) => Ok(Some(Answer::Unknown(Exceeded::Time { bound, cert }))),
                None => Ok(None),
            }
        }
    }
}

/// The answer of such a search that ended by itself.
fn answer_of_outcome(
    setting: Setting<'_, '_>,
    evidence: Evidence,
    outcome: Outcome<GroundListing<'_, '_>>,
    marked: Marked,
) -> Result<Option<Answer>, NoMemory>
    requires version { 4 ≤ number_of setting.limits.version }
    requires space { IsSearchSpace setting.space }
    requires ground { IsGroundOf (task_in (ground_in setting.space)) [] setting.limits.instances (ground_in setting.space) }
    requires guidance { IsGuidanceFor setting.space (by_tables (evidence_of evidence)) }
    requires asked { IsAsked setting.space (evidence_of evidence) setting.limits (record { stop = Ended outcome; marked = marked }) }
    ensures { IfOk result (λ o. IfSome o (IsAnswerWithin (task_in (ground_in setting.entry.space)) setting.entry.limits)) }
{
    match outcome {
        Outcome::Found {
            steps,
            cost,
            states,
        } => {
            let steps = plan_of(setting.alloc, setting.space.ground(), &steps)?;
            let lines = Lines { marked, states };
            match asked_cert(setting, evidence, Claim::Bound(cost), lines)? {
                Some(cert) => Ok(Some(Answer::Plan { steps, cost, cert })),
                None => Ok(None),
            }
        }
        Outcome::Exhausted { states } => {
            let lines = Lines { marked, states };
            match asked_cert(setting, evidence, Claim::Unsolvable, lines)? {
                Some(cert) => Ok(Some(Answer::Unsolvable { cert })),
                None => Ok(None),
            }
        }
        Outcome::States { bound, states } => {
            let lines = Lines { marked, states };
            match asked_cert(setting, evidence, Claim::Bound(bound), lines)? {
                Some(cert) => Ok(Some(Answer::Unknown(Exceeded::States { bound, cert }))),
                None => Ok(None),
            }
        }
    }
}

/// The found states of a search, and their marks.
#[derive(Drop)]
struct Lines<'l, 't> {
    marked: Marked,
    states: FoundStates<GroundListing<'l, 't>>,
}

/// The certificate of version 4 with these values, these lines and the landmark values that they name. `None` if that exceeds a limit of a
/// certificate's text.
fn asked_cert(
    setting: Setting<'_, '_>,
    evidence: Evidence,
    claim: Claim,
    lines: Lines<'_, '_>,
) -> Result<Option<Cert>, NoMemory>
    requires space { IsSearchSpace setting.space }
    requires few { length (atoms_in (ground_in setting.space)) ≤ MAX_ATOMS }
    requires lines { AreLines (length (atoms_in (ground_in setting.space))) (evidence_of evidence) (landmarks_of lines.marked.landmarks) (map listed_of lines.marked.marks.items) (listed_states lines.states.store) }
    ensures evidence { IfOk result (λ o. IfSome o (λ _. IsTrue (is_evidence four (length (atoms_in (ground_in setting.entry.space))) (evidence_of evidence) (landmarks_of lines.entry.marked.landmarks)))) }
    ensures certificate { IfOk result (λ o. IfSome o (λ cert. certificate_of cert
        ≡ asked_certificate (claim_of claim) (exchanges_in setting.entry.space) (atoms_in (ground_in setting.entry.space)) (evidence_of evidence) (landmarks_of lines.entry.marked.landmarks)
        (map listed_of lines.entry.marked.marks.items) (listed_states lines.entry.states.store))) }
{
    let Setting { alloc, space, .. } = setting;
    let ground = space.ground();
    let Lines { marked, states } = lines;
    let Marked { marks, landmarks } = marked;
    let evidence = Evidence {
        landmarks,
        ..evidence
    };
    if !is_claim(claim) {
        return Ok(None);
    }
    if !evidence.keep_limits(Version::Four, ground.width() as usize) {
        return Ok(None);
    }
    let sets = sets_of(alloc, states.store)?;
    let names = copied(alloc, ground.atoms().as_slice())?;
    let header = Header {
        version: Version::Four,
        claim,
        exchanges: space.written_exchanges(alloc)?,
        atoms: names,
        evidence,
    };
    Ok(Some(Cert::from_parts(header, States { marks, sets })))
}

/// Whether a certificate may claim it.
fn is_claim(claim: Claim) -> bool
    ensures { result ≡ is_claim (claim_of claim) }
{
    match claim {
        Claim::Bound(least) => least < NUMBER_LIMIT,
        Claim::Unsolvable => true,
    }
}
