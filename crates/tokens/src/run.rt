//! The kind of a run, by its bytes.
ghost use Rattle.std.specs.Prelude.{◌≡◌, map};
ghost use Rattle.std.specs.Option.{option_map};
ghost use Rattle.std.specs.List.{list_all};
ghost use Rattle.std.specs.Char.{is_ascii_digit};
ghost use Rattle.tokens.specs.Word.{kind_of};
ghost use Rattle.model.specs.Words.{is_name, is_marked_name, is_number, is_only, kind_of_run};

use crate::names::is_name;
use crate::word::Kind;

/// The kind of word that the run is, if it is a word.
pub(crate) fn kind_of_run(run: &[u8]) -> Option<Kind>
    ensures { option_map kind_of result ≡ kind_of_run run.now }
{
    if is_name(run) {
        Some(Kind::Name)
    } else if is_marked_name(b'?', run) {
        Some(Kind::Variable)
    } else if is_marked_name(b':', run) {
        Some(Kind::Keyword)
    } else if is_number(run) {
        Some(Kind::Number)
    } else if is_only(b'-', run) {
        Some(Kind::Dash)
    } else if is_only(b'=', run) {
        Some(Kind::Equals)
    } else {
        None
    }
}

fn are_digits(bytes: &[u8]) -> bool
    ensures { result ≡ list_all is_ascii_digit bytes.now }
{
    bytes.iter().all(|byte| byte.is_ascii_digit())
}

/// Whether the bytes are this mark followed by a name.
fn is_marked_name(mark: u8, bytes: &[u8]) -> bool
    ensures { result ≡ is_marked_name mark bytes.now }
{
    match bytes.split_first() {
        Some((first, others)) => *first == mark && is_name(others),
        None => false,
    }
}

/// Whether the bytes are one or more digits.
fn is_number(bytes: &[u8]) -> bool
    ensures { result ≡ is_number bytes.now }
{
    match bytes.split_first() {
        Some((first, others)) => first.is_ascii_digit() && are_digits(others),
        None => false,
    }
}

/// Whether the bytes are this single byte.
fn is_only(byte: u8, bytes: &[u8]) -> bool
    ensures { result ≡ is_only byte bytes.now }
{
    bytes.len() == 1 && bytes[0] == byte
}
