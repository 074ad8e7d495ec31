//! Hints for runs of bytes that are no words.
use crate::hint::Hint;

/// What is said of sums, products and differences.
pub(crate) const ARITHMETIC: &str =
    "a cost is a number or a function of objects; sums and products are not supported";

/// What is said of a `:` in place of the dash before a type.
pub(crate) const TYPE: &str = "a type follows `-`, as in `?x - type`";

/// What a run that is no word may mean.
pub(crate) fn of_run<'a>(run: &'a [u8]) -> Option<Hint<'a>> {
    if is_comment_elsewhere(run) {
        return Some(Hint::text("a comment begins with `;`"));
    }
    let text = match run {
        b"<" | b">" | b"<=" | b">=" => "numeric conditions are not supported",
        b"+" | b"*" | b"/" => ARITHMETIC,
        b"?" => "no blank may follow the `?` of a variable",
        b"==" => "equality is written with one `=`",
        b":" => TYPE,
        _ if run.starts_with(b"?") && run.contains(&b':') => TYPE,
        _ if is_number_elsewhere(run) => "a cost is a whole number of 0 or more",
        _ if run.starts_with(b"!") => "a negation is written `(not ..)`, without `!`",
        _ if run.contains(&b',') => "words are separated by blanks, not by commas",
        _ if run.contains(&b'"') || run.contains(&b'\'') => {
            "names are written without quotation marks"
        }
        _ => return of_name(run),
    };
    Some(Hint::text(text))
}

/// What is wrong with a run that may be meant as a name or a variable.
fn of_name<'a>(run: &'a [u8]) -> Option<Hint<'a>> {
    let name = match run {
        [b'?' | b':', rest @ ..] => rest,
        _ => run,
    };
    if name.contains(&b'?') {
        return Some(Hint::text("a variable begins with `?`, as in `?x`"));
    }
    match name {
        [b'-', rest @ ..] if is_name(rest) => Some(Hint::around(
            "a blank is missing after the `-` before `",
            rest,
            "`",
        )),
        [b'0'..=b'9' | b'_', ..] => Some(Hint::text("a name begins with a letter")),
        [first, ..] if first.is_ascii_alphabetic() => Some(Hint::text(
            "a name may contain only letters, digits, `-` and `_`",
        )),
        _ => None,
    }
}

/// Whether a run is a letter, followed by letters, digits, hyphens and underscores.
pub(crate) fn is_name(run: &[u8]) -> bool {
    let begins = run.first().is_some_and(|byte| byte.is_ascii_alphabetic());
    begins && run.iter().all(|byte| byte.is_ascii_alphanumeric() || *byte == b'-' || *byte == b'_')
}

/// Whether a run of bytes begins a comment of other languages, `//` or `/*`, or consists of `#` only.
pub(crate) fn is_comment_elsewhere(run: &[u8]) -> bool {
    let begins = run.starts_with(b"//") || run.starts_with(b"/*");
    begins || run.iter().all(|byte| *byte == b'#')
}

/// Whether a run of bytes is a number elsewhere: digits with a point among them or a sign before them.
fn is_number_elsewhere(run: &[u8]) -> bool {
    let digits = match run {
        [b'-' | b'+', rest @ ..] => rest,
        _ => run,
    };
    digits.iter().any(|byte| byte.is_ascii_digit())
        && digits
            .iter()
            .all(|byte| byte.is_ascii_digit() || *byte == b'.')
}
