//! Faults of a text, and why there is no next line.
use devices::IoFault;
use std::alloc::AllocError;

/// A fault of a text, with the number it is reported as.
#[derive(Clone, Copy, Debug, PartialEq, Eq)]
pub enum TextFault {
    /// A line that is invalid at its place or too long, or a byte after the last line: 40.
    Form,
    /// A first line for another version: 41.
    Version,
    /// The text ends before its last line does: 42.
    Truncated,
    /// More exchanges, atoms, parts of a kind or states than allowed: 55.
    Limit,
}

/// Why there is no next line.
#[derive(Clone, Copy)]
pub(crate) enum NextFault {
    /// The text is faulty.
    Text(TextFault),
    /// The device failed.
    Device,
    /// An allocation failed.
    NoMemory,
}

impl From<IoFault> for NextFault {
    ghost use Rattle.std.specs.Prelude.{◌≡◌};
    ghost use Rattle.certificate_reader.specs.Next.{of_device};

    ghost from_gives = { λ fault given. given ≡ of_device fault };

    fn from(fault: IoFault) -> NextFault {
        match fault {
            IoFault::Device => NextFault::Device,
            IoFault::NoMemory => NextFault::NoMemory,
        }
    }
}

impl From<AllocError> for NextFault {
    ghost use Rattle.std.specs.Prelude.{◌≡◌};
    ghost use Rattle.certificate_reader.specs.declared.fault.NextFault.TheVariants.{NoMemory};

    ghost from_gives = { λ _ fault. fault ≡ NoMemory };

    fn from(_error: AllocError) -> NextFault {
        NextFault::NoMemory
    }
}
