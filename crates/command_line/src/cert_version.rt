//! Versions of certificates.
ghost use Rattle.std.specs.Prelude.{◌≡◌, option_map};
ghost use Rattle.command_line.specs.Versions.{number_of, version_with};

/// The first version that may be asked for.
pub(crate) const MIN_VERSION: u64 = 2;

/// The last one.
pub(crate) const MAX_VERSION: u64 = 4;

/// The latest version that the certificate of an answer may have.
#[derive(Clone, Copy, Debug, PartialEq, Eq)]
pub enum CertVersion {
    /// Version 2.
    Two,
    /// Version 3.
    Three,
    /// Version 4.
    Four,
}

impl CertVersion {
    /// The version with this number; `None` if it is not from 2 to 4.
    pub(crate) fn new(number: u32) -> Option<CertVersion>
        ensures { option_map number_of result ≡ version_with number }
    {
        match number {
            2 => Some(CertVersion::Two),
            3 => Some(CertVersion::Three),
            4 => Some(CertVersion::Four),
            _ => None,
        }
    }
}
