//! Why files cannot be read.
ghost use Rattle.std.specs.Prelude.{◌≡◌, IfOk};
ghost use Rattle.std.specs.String.{string_bytes};
ghost use Rattle.optplan.specs.Looks.{line_of, reason};

use std::alloc::{AllocError, Global};
use std::io::ErrorKind;
use std::{fs, rt};

/// Why a file cannot be read, as far as a second attempt shows.
#[derive(Clone, Copy, Debug, PartialEq, Eq)]
pub enum Look {
    /// There is no file with this name.
    Missing,
    /// It is a folder.
    Folder,
    /// The user has no permission to read it.
    Forbidden,
    /// It cannot be opened for some other reason.
    Unreadable,
}

/// Why the file with this name cannot be read; `None` if it can be opened. This says nothing about an earlier call, since the
/// file may have changed since, and nothing about later reads.
pub(crate) fn look_at<R: rt::Files>(runtime: &R, name: &str) -> Option<Look> {
    match runtime.metadata(name) {
        Ok(found) if found.is_dir() => Some(Look::Folder),
        Ok(_) => match fs::open(runtime, name) {
            Ok(_) => None,
            Err(error) => Some(of_kind(error.kind())),
        },
        Err(error) => Some(of_kind(error.kind())),
    }
}

/// The reason that an error of this kind shows.
fn of_kind(kind: ErrorKind) -> Look {
    match kind {
        ErrorKind::NotFound => Look::Missing,
        ErrorKind::IsADirectory => Look::Folder,
        ErrorKind::PermissionDenied => Look::Forbidden,
        _ => Look::Unreadable,
    }
}

/// The reason as a line, with LF.
///
/// # Errors
/// An allocation failed.
///
/// # Examples
/// ```text
/// problem.pddl: there is no such file
/// ```
pub(crate) fn look_line(alloc: Global, name: &str, look: Look) -> Result<String, AllocError>
    ensures { IfOk result (λ line. string_bytes line ≡ line_of name.now look) }
{
    let reason = reason(look);
    format!(in alloc; "{name}: {reason}\n")
}

/// The reason in words.
fn reason(look: Look) -> &'static str
    ensures { result.now ≡ reason look }
{
    match look {
        Look::Missing => "there is no such file",
        Look::Folder => "this is a folder, and no file",
        Look::Forbidden => "this file may not be read",
        Look::Unreadable => "this file cannot be opened",
    }
}
