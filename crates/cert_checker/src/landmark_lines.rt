//! The zones and the landmark values of a certificate, read line by line.
ghost use Rattle.std.specs.Prelude.{◌≡◌, OnOk, map};
ghost use Rattle.landmark_zones.specs.Landmarks.{landmarks_of, share_of, with_value, with_zone};
ghost use Rattle.certificate.specs.Evidence.{evidence_of};
ghost use Rattle.cert_checker.specs.Tabled.{AreWeighed};

use certificate::{Evidence, Share, ZoneRef};
use faults::NoMemory;

/// Takes a zone with these atoms and negated atoms.
pub(crate) fn take_zone(
    evidence: &mut Evidence,
    atoms: &[u32],
    negated: &[u32],
) -> Result<(), NoMemory>
    ensures taken { OnOk result (landmarks_of evidence.new.landmarks ≡ with_zone (landmarks_of evidence.old.landmarks) (record { atoms = atoms.now; negated = negated.now })) }
    ensures values { evidence_of evidence.new ≡ evidence_of evidence.old }
    ensures weighed { AreWeighed evidence.old → AreWeighed evidence.new }
{
    evidence.landmarks.push_zone(ZoneRef { atoms, negated })
}

/// Takes a landmark value with these shares.
pub(crate) fn take_value(evidence: &mut Evidence, shares: &[Share]) -> Result<(), NoMemory>
    ensures taken { OnOk result (landmarks_of evidence.new.landmarks ≡ with_value (landmarks_of evidence.old.landmarks) (map share_of shares.now)) }
    ensures values { evidence_of evidence.new ≡ evidence_of evidence.old }
    ensures weighed { AreWeighed evidence.old → AreWeighed evidence.new }
{
    evidence.landmarks.push_value(shares)
}
