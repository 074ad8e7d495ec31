//! Whether an order would write over one of its own files.
ghost use Rattle.std.specs.Prelude.{◌≡◌, ◌≤◌, not, IfOk, is_none, map, length};
ghost use Rattle.std.specs.Borrow.{Bor};
ghost use Rattle.command_line.specs.OneFile.{is_one_file, is_one_path, lean};
ghost use Rattle.command_line.specs.Orders.{are_of_one_file, is_of_file, keeps_files};
ghost use Rattle.command_line.specs.View.{request_of, text_in, texts};

use crate::order::Order;
use crate::streams::is_stream;
use std::alloc::{AllocError, Global};
use std::path::{Component, Path};

/// Why the order would write over one of its files: a file that is to be written is another one that it names. Names are compared as they
/// are, without `.`, `..` and doubled slashes; no link is followed.
///
/// # Errors
/// An allocation failed.
pub(crate) fn overwritten(
    alloc: Global,
    order: &Order<'_>,
) -> Result<Option<&'static str>, AllocError>
    ensures { IfOk result (λ why. keeps_files (request_of order.now) ≡ is_none why) }
{
    let Order::Solve {
        domain,
        problem,
        plan,
        cert,
        ..
    } = *order
    else {
        return Ok(None);
    };
    if is_of_file(alloc, plan, domain)? {
        return Ok(Some("`--plan` names the file DOMAIN, and would write over it"));
    }
    if is_of_file(alloc, plan, problem)? {
        return Ok(Some("`--plan` names the file PROBLEM, and would write over it"));
    }
    if is_of_file(alloc, cert, domain)? {
        return Ok(Some("`--cert` names the file DOMAIN, and would write over it"));
    }
    if is_of_file(alloc, cert, problem)? {
        return Ok(Some("`--cert` names the file PROBLEM, and would write over it"));
    }
    if are_of_one_file(alloc, plan, cert)? {
        return Ok(Some("`--plan` and `--cert` name one file, which would keep only one of them"));
    }
    Ok(None)
}

/// Whether the name, if there is one, is of this file.
fn is_of_file(alloc: Global, name: Option<&str>, file: &str) -> Result<bool, AllocError>
    ensures { IfOk result (λ is. is ≡ is_of_file (text_in name.entry) file.now) }
{
    match name {
        Some(name) => is_one_file(alloc, name, file),
        None => Ok(false),
    }
}

/// Whether both names, if there are two, are of one file.
fn are_of_one_file(
    alloc: Global,
    name: Option<&str>,
    other: Option<&str>,
) -> Result<bool, AllocError>
    ensures { IfOk result (λ are. are ≡ are_of_one_file (text_in name.entry) (text_in other.entry)) }
{
    match name {
        Some(name) => is_of_file(alloc, other, name),
        None => Ok(false),
    }
}

/// Whether both names are of one file, and neither of a stream.
fn is_one_file(alloc: Global, one: &str, other: &str) -> Result<bool, AllocError>
    ensures { IfOk result (λ is. is ≡ is_one_file one.now other.now) }
{
    if is_stream(one) || is_stream(other) {
        Ok(false)
    } else {
        is_one_path(alloc, one, other)
    }
}

/// Whether both paths lead to one file.
fn is_one_path(alloc: Global, one: &str, other: &str) -> Result<bool, AllocError>
    ensures { IfOk result (λ is. is ≡ is_one_path one.now other.now) }
{
    let one = lean(alloc, one)?;
    let other = lean(alloc, other)?;
    Ok(one == other)
}

/// The components of a path, the last first, without `.`, and without `..` as far as names come before them.
fn lean<'a>(alloc: Global, path: &'a str) -> Result<Vec<&'a str>, AllocError>
    ensures { IfOk result (λ parts. texts parts.items ≡ lean path.now) }
{
    let mut parts = Vec::new(alloc);
    // The `..` whose names are still to come.
    let mut up: Vec<&str> = Vec::new(alloc);
    let mut rest = Path::new(path).components();
    'components: while let Some(component) = rest.next_back() {
        match component {
            Component::RootDir => {
                parts.push("/")?;
                return Ok(parts);
            }
            Component::CurDir => {}
            Component::ParentDir => up.push("..")?,
            Component::Normal(name) => {
                if up.pop().is_none() {
                    parts.push(name)?;
                }
            }
        }
    }
    'left: while up.pop().is_some() {
        parts.push("..")?;
    }
    Ok(parts)
}
