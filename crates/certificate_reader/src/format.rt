//! The parameters that determine the form of lines.
ghost use Rattle.std.specs.Prelude.{◌≡◌};
ghost use Rattle.certificate_definitions.specs.Certificates.{has_exchanges, has_landmarks, has_tables};
ghost use Rattle.certificate_definitions.specs.CertificateText.{is_weight_count};
ghost use Rattle.certificate_reader.specs.Lines.{version_of};

use crate::line::{MAX_CONSTANTS, Version};

/// The parameters given by the lines before a line.
#[derive(Clone, Copy)]
pub(crate) struct Format {
    /// The version of the text.
    pub(crate) version: Version,
    /// The number of weights of an atom or a row, equal to the number of constants.
    pub(crate) weights: usize,
    /// The number of atoms.
    pub(crate) atoms: usize,
}

/// Whether this number of constants is allowed.
pub(crate) fn is_weight_count(version: Version, count: usize) -> bool
    ensures { result ≡ is_weight_count (version_of version) count }
{
    match version {
        Version::One => count == 1,
        Version::Two => count == 2,
        Version::Three | Version::Four => 2 <= count && count <= MAX_CONSTANTS,
    }
}

/// Whether tables are allowed.
pub(crate) fn has_tables(version: Version) -> bool
    ensures { result ≡ has_tables (version_of version) }
{
    match version {
        Version::One | Version::Two => false,
        Version::Three | Version::Four => true,
    }
}

/// Whether exchanges of objects are allowed.
pub(crate) fn has_exchanges(version: Version) -> bool
    ensures { result ≡ has_exchanges (version_of version) }
{
    version == Version::Three || version == Version::Four
}

/// Whether landmark values are allowed.
pub(crate) fn has_landmarks(version: Version) -> bool
    ensures { result ≡ has_landmarks (version_of version) }
{
    version == Version::Four
}
