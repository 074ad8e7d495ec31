//! Why the words are not an order.
use clap::Error;
use clap::error::ErrorKind;
use std::alloc::AllocError;

/// Why the words are not an order.
#[derive(Debug, Drop, thiserror::Error)]
pub enum WordsFault {
    /// They are not a command, or ask for help or the version. The error's text says which, and how the program is used.
    #[error("{0}")]
    Words(Error),
    /// An allocation failed.
    #[error("no memory")]
    NoMemory,
}

impl From<Error> for WordsFault {
    ghost use Rattle.std.specs.Prelude.{◌≡◌};
    ghost use Rattle.clap.specs.Values.{kind_of};
    ghost use Rattle.clap.specs.declared.error.kind.ErrorKind.TheVariants.{OutOfMemory};
    ghost use Rattle.command_line.specs.View.{IsOfWords};

    ghost from_gives = { λ error fault. IsOfWords fault → kind_of error ≡ OutOfMemory → ⊥ };

    fn from(error: Error) -> WordsFault {
        match error.kind() {
            ErrorKind::OutOfMemory => WordsFault::NoMemory,
            _ => WordsFault::Words(error),
        }
    }
}

impl From<AllocError> for WordsFault {
    ghost use Rattle.std.specs.Prelude.{◌≡◌};
    ghost use Rattle.command_line.specs.declared.fault.WordsFault.TheVariants.{NoMemory};

    ghost from_gives = { λ _ fault. fault ≡ NoMemory };

    fn from(_error: AllocError) -> WordsFault {
        WordsFault::NoMemory
    }
}
