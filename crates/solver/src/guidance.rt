//! The values that guide a search, as its certificate has them.
ghost use Rattle.std.specs.Prelude.{◌≡◌, IfOk};
ghost use Rattle.certificate.specs.Evidence as parts;
ghost use Rattle.certificate_definitions.specs.Certificates.{no_landmarks};
ghost use Rattle.certificate_reader.specs.Lines.{version_of};
ghost use Rattle.landmark_zones.specs.Landmarks.{landmarks_of};
ghost use Rattle.potentials_improved.specs.Potentials.{potentials_of};
ghost use Rattle.solver.specs.Guidance as guidance;
ghost use Rattle.solver.specs.Written.{guidance_of, by_potentials_of};

use certificate::{Evidence, Landmarks, Version, WrittenPotentials};
use faults::NoMemory;
use potentials_improved::Potentials;
use search_spaces::SearchSpace;
use std::alloc::Global;

/// Values that are lower bounds of the remaining cost, and one that reports dead ends.
#[derive(Drop)]
pub(crate) enum Guidance {
    /// Two potential functions.
    Potentials {
        /// For the lower bound.
        value: WrittenPotentials,
        /// For dead ends.
        dead_ends: WrittenPotentials,
    },
    /// Several values over tables, the greatest of which is the lower bound, and one for dead ends.
    Tables(Evidence),
}

impl Guidance {
    /// The version of a certificate that can have it.
    pub(crate) fn version(&self) -> Version
        ensures { version_of result ≡ guidance.version_by (guidance_of self.now) }
    {
        match self {
            Guidance::Potentials { .. } => Version::Two,
            Guidance::Tables(_) => Version::Three,
        }
    }

    /// The evidence of the certificate: the values and tables. It has no landmark values, since each line rests on the values of
    /// all states.
    pub(crate) fn into_evidence(self, alloc: Global) -> Result<Evidence, NoMemory>
        ensures values { IfOk result (λ evidence. parts.evidence_of evidence ≡ guidance.values_by (guidance_of self)) }
        ensures landmarks { IfOk result (λ evidence. landmarks_of evidence.landmarks ≡ no_landmarks) }
    {
        match self {
            Guidance::Potentials { value, dead_ends } => evidence_of(alloc, value, dead_ends),
            Guidance::Tables(evidence) => Ok(Evidence {
                landmarks: Landmarks::none(alloc),
                ..evidence
            }),
        }
    }
}

/// The guidance by these potentials. With exchanges they are values over no tables, since version 2 has no exchanges.
pub(crate) fn guidance_by(
    alloc: Global,
    space: SearchSpace<'_, '_>,
    value: &Potentials,
    dead_ends: &Potentials,
) -> Result<Guidance, NoMemory>
    ensures { IfOk result (λ made. guidance_of made ≡ by_potentials_of space.entry (potentials_of value.now) (potentials_of dead_ends.now)) }
{
    let value = potential_of(alloc, value)?;
    let dead_ends = potential_of(alloc, dead_ends)?;
    match space {
        SearchSpace::Alone(_) => Ok(Guidance::Potentials { value, dead_ends }),
        SearchSpace::Orbits(_) => {
            let evidence = evidence_of(alloc, value, dead_ends)?;
            Ok(Guidance::Tables(evidence))
        }
    }
}

/// One value, one for dead ends, and neither tables nor landmark values.
fn evidence_of(
    alloc: Global,
    value: WrittenPotentials,
    dead_ends: WrittenPotentials,
) -> Result<Evidence, NoMemory>
    ensures values { IfOk result (λ evidence. parts.evidence_of evidence ≡ guidance.values_by (guidance.by_potentials (parts.potential_of value) (parts.potential_of dead_ends))) }
    ensures landmarks { IfOk result (λ evidence. landmarks_of evidence.landmarks ≡ no_landmarks) }
{
    let mut values = Vec::new(alloc);
    values.push(value)?;
    Ok(Evidence {
        values,
        dead_ends,
        tables: Vec::new(alloc),
        landmarks: Landmarks::none(alloc),
    })
}

/// The potentials' constant and weights.
pub(crate) fn potential_of(
    alloc: Global,
    potentials: &Potentials,
) -> Result<WrittenPotentials, NoMemory>
    ensures { IfOk result (λ p. parts.potential_of p ≡ potentials_of potentials.now) }
{
    let weights = Vec::from_slice(alloc, potentials.weights())?;
    Ok(WrittenPotentials {
        constant: potentials.constant(),
        weights,
    })
}
