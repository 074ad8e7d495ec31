//! The states that a certificate lists, as sets of atom numbers.
ghost use Rattle.std.specs.Prelude.{◌≡◌, ℕ, ◌+◌, ◌<◌, ◌↔◌, ◌++◌, ◌∷◌, [], All, IfErr, IsTrue, List, OnOk, length, map};
ghost use Rattle.packed_state.specs.PooledView.{pooled_width, pooled_states};
ghost use Rattle.model.specs.Task as model;
ghost use Rattle.model.specs.Claims as claims;
ghost use Rattle.certificate_definitions.specs.Certificates.{rise};
ghost use Rattle.certificate_reader.specs.Lines.{claim_of, line_of, mark_of, text_line_of};
ghost use Rattle.certificate_definitions.specs.CertificateChecking.{IsCut};
ghost use Rattle.certificate_definitions.specs.CertificateText.{TextLine, listed};
ghost use Rattle.cert_checker.specs.Given.{Heading, HaveGiven, is_body};
ghost use Rattle.cert_checker.specs.Taking.{IsWrongNow};
ghost use Rattle.cert_checker.specs.Listed.{HaveListed, IsFit};
ghost use Rattle.certificate.specs.CertificateParts.{listed_of};

use crate::refusal::{Refusal, RefusalCode};
use certificate::{CertLine, Claim, Mark, StateLine, States};
use std::alloc::Global;

/// Takes the line with this number, from 1, under this claim.
fn take(
    states: &mut States,
    alloc: Global,
    claim: Claim,
    line: &StateLine,
    number: u64,
) -> Result<(), Refusal>
    requires below { All (λ atom. atom < pooled_width states.old.sets) line.now.atoms.items }
    requires rising { IsTrue (rise (pooled_width states.old.sets) 0 line.now.atoms.items) }
    requires room { length (pooled_states states.old.sets) < 16777216 }
    ensures width { pooled_width states.new.sets ≡ pooled_width states.old.sets }
    ensures reported { OnOk result ((task : model.Task) (before : List TextLine) (heading : Heading) → heading.claim ≡ claim_of claim → HaveGiven task before heading
        → HaveListed before (claim_of claim) (pooled_width states.old.sets) (map listed_of states.old.marks.items) (pooled_states states.old.sets)
        → HaveGiven task (before ++ listed (line_of line.now) ∷ []) heading) }
    ensures listed { OnOk result ((before : List TextLine)
        → HaveListed before (claim_of claim) (pooled_width states.old.sets) (map listed_of states.old.marks.items) (pooled_states states.old.sets)
        → HaveListed (before ++ listed (line_of line.now) ∷ []) (claim_of claim) (pooled_width states.old.sets) (map listed_of states.new.marks.items) (pooled_states states.new.sets)) }
    ensures wrong { IfErr result (λ refusal. (task : model.Task) (before : List TextLine) (heading : Heading) → heading.claim ≡ claim_of claim → number ≡ length before + 1
        → HaveGiven task before heading
        → HaveListed before (claim_of claim) (pooled_width states.old.sets) (map listed_of states.old.marks.items) (pooled_states states.old.sets)
        → IsWrongNow task before (listed (line_of line.now)) refusal) }
{
    if !states.push(alloc, line)? {
        return Err(Refusal::Line {
            code: RefusalCode::Repeated,
            line: number,
        });
    }
    if is_cut_not_allowed(claim, line) {
        return Err(Refusal::Line {
            code: RefusalCode::CutNotAllowed,
            line: number,
        });
    }
    Ok(())
}

/// Takes the line with this number, from 1, under this claim, if it is a state line.
pub(crate) fn take_line(
    states: &mut States,
    alloc: Global,
    claim: Claim,
    line: CertLine,
    number: u64,
) -> Result<(), Refusal>
    requires fit { IsFit (pooled_width states.old.sets) (pooled_states states.old.sets) (text_line_of line) }
    ensures width { pooled_width states.new.sets ≡ pooled_width states.old.sets }
    ensures taken { OnOk result ((task : model.Task) (before : List TextLine) (heading : Heading) → heading.claim ≡ claim_of claim → IsTrue (is_body (text_line_of line))
        → HaveGiven task before heading
        → HaveListed before (claim_of claim) (pooled_width states.old.sets) (map listed_of states.old.marks.items) (pooled_states states.old.sets)
        → HaveGiven task (before ++ text_line_of line ∷ []) heading
        × HaveListed (before ++ text_line_of line ∷ []) (claim_of claim) (pooled_width states.old.sets) (map listed_of states.new.marks.items) (pooled_states states.new.sets)) }
    ensures wrong { IfErr result (λ refusal. (task : model.Task) (before : List TextLine) (heading : Heading) → heading.claim ≡ claim_of claim → number ≡ length before + 1
        → HaveGiven task before heading
        → HaveListed before (claim_of claim) (pooled_width states.old.sets) (map listed_of states.old.marks.items) (pooled_states states.old.sets)
        → IsWrongNow task before (text_line_of line) refusal) }
{
    match line {
        CertLine::Listed(line) => take(states, alloc, claim, &line, number),
        _ => Ok(()),
    }
}

/// Whether the line is a cut although the claim is that no plan solves the task.
fn is_cut_not_allowed(claim: Claim, line: &StateLine) -> bool
    ensures { IsTrue result ↔ ((claim_of claim ≡ claims.none) × IsCut (mark_of line.now.mark)) }
{
    match claim {
        Claim::Bound(_) => false,
        Claim::Unsolvable => is_cut(line.mark),
    }
}

/// Whether the state is listed as a cut.
fn is_cut(mark: Mark) -> bool
    ensures { IsTrue result ↔ IsCut (mark_of mark) }
{
    match mark {
        Mark::Expanded => false,
        Mark::Cut { .. } => true,
        Mark::Dead { .. } => false,
    }
}
