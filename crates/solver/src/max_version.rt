//! The latest version of certificates.
ghost use Rattle.std.specs.Prelude.{◌≡◌, nat_le};
ghost use Rattle.solver.specs.Versions.{number_of};

/// The latest version that an answer's certificate may have.
#[derive(Clone, Copy, Debug, PartialEq, Eq)]
pub enum MaxVersion {
    /// Version 2: values are potentials, and each listed state stands for itself alone.
    Two,
    /// Version 3: also values over tables, and exchanges of objects.
    Three,
    /// Version 4: also landmark values.
    Four,
}

impl MaxVersion {
    /// Whether version 3 is allowed: a certificate may have tables and exchanges of objects.
    pub(crate) fn allows_three(self) -> bool
        ensures { result ≡ nat_le 3 (number_of self) }
    {
        match self {
            MaxVersion::Two => false,
            MaxVersion::Three | MaxVersion::Four => true,
        }
    }

    /// Whether version 4 is allowed: a certificate may have landmark values.
    pub(crate) fn allows_four(self) -> bool
        ensures { result ≡ nat_le 4 (number_of self) }
    {
        match self {
            MaxVersion::Two | MaxVersion::Three => false,
            MaxVersion::Four => true,
        }
    }
}
