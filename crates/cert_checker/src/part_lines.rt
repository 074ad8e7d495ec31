//! The parts of a certificate, read line by line. Each kind of evidence has its arm.
ghost use Rattle.std.specs.Prelude.{IfErr, OnOk};
ghost use Rattle.certificate_reader.specs.Parts.{part_of};
ghost use Rattle.certificate.specs.Evidence.{evidence_of};
ghost use Rattle.cert_checker.specs.Tabled.{AreWeighed, IsFitPart, IsPartRefused, IsPartTaken};

use crate::landmark_lines::{take_value, take_zone};
use crate::refusal::Refusal;
use crate::table_lines::{take_row, take_scope};
use certificate::{Evidence, PartLine};
use std::alloc::Global;

/// Takes the part, from the line with this number.
pub(crate) fn take_part(
    alloc: Global,
    evidence: &mut Evidence,
    part: PartLine,
    number: u64,
) -> Result<(), Refusal>
    requires fit { IsFitPart evidence.old (part_of part) }
    ensures taken { OnOk result (IsPartTaken evidence.old evidence.new (part_of part)) }
    ensures wrong { IfErr result (IsPartRefused (evidence_of evidence.old).tables (part_of part) number) }
    ensures weighed { OnOk result (AreWeighed evidence.old → AreWeighed evidence.new) }
{
    match part {
        PartLine::Table { scope } => {
            take_scope(alloc, evidence, scope)?;
            Ok(())
        }
        PartLine::Row { weights, atoms } => take_row(alloc, evidence, &atoms, &weights, number),
        PartLine::Zone { atoms, negated } => {
            take_zone(evidence, &atoms, &negated)?;
            Ok(())
        }
        PartLine::Landmark { shares } => {
            take_value(evidence, &shares)?;
            Ok(())
        }
    }
}
