//! The object names of an exchange.
ghost use Rattle.std.specs.Prelude.{◌≡◌, ◌≢◌, IfNone, IfOk, IfSome, IsTrue, List, ℕ, None, Some, length, map};
ghost use Rattle.certificate_definitions.specs.CertificateText.{are_exchanged, are_paired, differ};
ghost use Rattle.certificate_reader.specs.Lines.{name_of};
ghost use Rattle.certificate_reader.specs.Words.{then_words};

use crate::lower_names::{copy, names};
use indexmap::IndexSet;
use std::alloc::{AllocError, Global};

/// The names, in pairs and all different; `None` if the bytes are anything else.
pub(crate) fn exchanged_names(
    alloc: Global,
    rest: &[u8],
) -> Result<Option<Vec<Vec<u8>>>, AllocError>
    ensures some { IfOk result (λ found. IfSome found (λ names. IsTrue (are_exchanged (map name_of names.items))
        × (then_words (map name_of names.items) None ≡ Some rest.now))) }
    ensures none { IfOk result (λ found. IfNone found ((names : List (List ℕ)) → IsTrue (are_exchanged names) → then_words names None ≢ Some rest.now)) }
{
    let Some(names) = names(alloc, Some(rest))? else {
        return Ok(None);
    };
    if !are_paired(&names) {
        return Ok(None);
    }
    let differ = differ(alloc, &names)?;
    if !differ {
        return Ok(None);
    }
    Ok(Some(names))
}

/// Whether the number of names is even.
fn are_paired(names: &[Vec<u8>]) -> bool
    ensures { result ≡ are_paired (map name_of names.now) }
{
    names.len() % 2 == 0
}

/// Whether all names are different.
fn differ(alloc: Global, names: &[Vec<u8>]) -> Result<bool, AllocError>
    ensures { IfOk result (λ answer. answer ≡ differ (map name_of names.now)) }
{
    let mut seen = IndexSet::new(alloc);
    for name in names {
        let name = copy(alloc, name)?;
        let is_new = seen.insert(name)?;
        if !is_new {
            return Ok(false);
        }
    }
    Ok(true)
}
