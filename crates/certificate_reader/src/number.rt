//! Numbers in a certificate's text.
ghost use Rattle.std.specs.Prelude.{◌≡◌, ◌≢◌, ℕ, ℤ, IfNone, IfSome, IsTrue};
ghost use Rattle.std.specs.Fmt.{decimal, signed_decimal};
ghost use Rattle.std.specs.Str.{bytes_eq};
ghost use Rattle.certificate_definitions.specs.Certificates.{is_number, is_weight};
ghost use Rattle.certificate_reader.specs.Words.{is_spelled};

use crate::line::{MAX_WEIGHT, NUMBER_LIMIT};
use itoa::Buffer;
use std::str;

/// The number denoted by a word; `None` if there is none, or if it is not in canonical form.
pub(crate) fn number(word: &[u8]) -> Option<u64>
    ensures some { IfSome result (λ n. IsTrue (is_number n) × (decimal n ≡ word.now)) }
    ensures none { IfNone result ((n : ℕ) → IsTrue (is_number n) → decimal n ≢ word.now) }
{
    if !is_spelled(word) {
        return None;
    }
    let mut number = 0;
    for byte in word {
        if !byte.is_ascii_digit() {
            return None;
        }
        number = number * 10 + u64::from(*byte - b'0');
        if number >= NUMBER_LIMIT {
            return None;
        }
    }
    Some(number)
}

/// Whether digits are in canonical form: at least one, without leading zeros.
fn is_spelled(word: &[u8]) -> bool
    ensures { result ≡ is_spelled word.now }
{
    match word.split_first() {
        Some((first, rest)) => *first != b'0' || rest.is_empty(),
        None => false,
    }
}

/// The constant or weight denoted by a word; `None` if there is none, or if it is not in canonical form.
pub(crate) fn weight(word: &[u8]) -> Option<i64>
    ensures some { IfSome result (λ w. IsTrue (is_weight w) × (signed_decimal w ≡ word.now)) }
    ensures none { IfNone result ((w : ℤ) → IsTrue (is_weight w) → signed_decimal w ≢ word.now) }
{
    let Ok(text) = str::from_utf8(word) else {
        return None;
    };
    let Ok(weight) = text.parse::<i64>() else {
        return None;
    };
    if is_weight(weight) && is_weight_spelled(weight, word) {
        Some(weight)
    } else {
        None
    }
}

/// Whether the number may be a constant or a weight: it is from -2147483647 to 2147483647.
pub fn is_weight(number: i64) -> bool
    ensures { result ≡ is_weight number }
{
    -MAX_WEIGHT <= number && number <= MAX_WEIGHT
}

/// Whether the word is the canonical form of the weight.
fn is_weight_spelled(weight: i64, word: &[u8]) -> bool
    ensures { result ≡ bytes_eq (signed_decimal weight) word.now }
{
    Buffer::new().format(weight).as_bytes() == word
}
