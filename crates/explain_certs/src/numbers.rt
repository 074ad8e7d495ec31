//! The numbers that a certificate claims and lists.
use crate::lines::line_of;

/// What a certificate claims.
#[derive(Clone, Copy, Debug, PartialEq, Eq)]
pub(crate) enum Claimed {
    /// Every plan costs at least this.
    Bound(u64),
    /// There is no plan.
    Nothing,
}

/// The claim of a text; `None` if its second line has none.
pub(crate) fn claim_in(text: &[u8]) -> Option<Claimed> {
    let line = line_of(text, 2)?.bytes;
    match word_at(line, 1) {
        b"bound" => Some(Claimed::Bound(number_at(line, 2)?)),
        b"none" => Some(Claimed::Nothing),
        _ => None,
    }
}

/// A listed state.
#[derive(Clone, Copy, Debug, PartialEq, Eq)]
pub(crate) struct Listed<'a> {
    /// What has been paid.
    pub paid: u64,
    /// What is still to pay; 0 for a line that is no cut.
    pub left: u64,
    /// The numbers of its atoms, as the line has them.
    pub numbers: &'a [u8],
}

/// The state of a line; `None` if it lists none.
pub(crate) fn state_in(line: &[u8]) -> Option<Listed<'_>> {
    match word_at(line, 0) {
        b"open" | b"dead" => at_cost(line, 1),
        b"dead-by" => at_cost(line, 2),
        b"cut" => of_cut(line, 1),
        b"cut-by" => of_cut(line, 2),
        _ => None,
    }
}

/// The state of a line whose cost is the word at this place, counted from 0.
fn at_cost(line: &[u8], place: usize) -> Option<Listed<'_>> {
    let paid = number_at(line, place)?;
    let numbers = from_word(line, place.saturating_add(1));
    Some(Listed {
        paid,
        left: 0,
        numbers,
    })
}

/// The same for a cut, whose bound follows the cost.
fn of_cut(line: &[u8], place: usize) -> Option<Listed<'_>> {
    let paid = number_at(line, place)?;
    let left = number_at(line, place.saturating_add(1))?;
    let numbers = from_word(line, place.saturating_add(2));
    Some(Listed {
        paid,
        left,
        numbers,
    })
}

/// The cost at which a text lists the state whose atoms have these numbers; `None` if it does not list it.
pub(crate) fn cost_listed(text: &[u8], numbers: &[u8]) -> Option<u64> {
    for line in text.split(|byte| *byte == b'\n') {
        if let Some(at) = state_in(line) {
            if at.numbers == numbers {
                return Some(at.paid);
            }
        }
    }
    None
}

/// The value of a state by the only function of what is still to pay, in a text of version 1 or 2. `None` in other versions.
pub(crate) fn value_of(text: &[u8], numbers: &[u8]) -> Option<u64> {
    match number_at(line_of(text, 1)?.bytes, 1)? {
        1 | 2 => {}
        _ => return None,
    }
    let mut sum = signed_at(line_of(text, 3)?.bytes, 1)?;
    if !numbers.is_empty() {
        for word in numbers.split(|byte| *byte == b' ') {
            let Some(weight) = weight_of(text, word) else {
                return None;
            };
            sum = sum.saturating_add(weight);
        }
    }
    match u64::try_from(sum) {
        Ok(value) => Some(value),
        Err(_) => Some(0),
    }
}

/// The first weight of the atom with this number, in a text of version 1 or 2: atoms follow the third line.
fn weight_of(text: &[u8], number: &[u8]) -> Option<i64> {
    let line = number_in(number)?.saturating_add(4);
    signed_at(line_of(text, line)?.bytes, 1)
}

/// The word at this place of a line, counted from 0; empty if there is none.
pub(crate) fn word_at(line: &[u8], place: usize) -> &[u8] {
    let mut left = place;
    for word in line.split(|byte| *byte == b' ') {
        if left == 0 {
            return word;
        }
        left -= 1;
    }
    b""
}

/// What a line has from the word at this place on; empty if it has fewer words.
fn from_word(line: &[u8], place: usize) -> &[u8] {
    let mut left = place;
    for piece in line.splitn(place.saturating_add(1), |byte| *byte == b' ') {
        if left == 0 {
            return piece;
        }
        left -= 1;
    }
    b""
}

/// The number at this place of a line.
fn number_at(line: &[u8], place: usize) -> Option<u64> {
    number_in(word_at(line, place))
}

/// The number that a word denotes.
pub(crate) fn number_in(word: &[u8]) -> Option<u64> {
    let Ok(digits) = str::from_utf8(word) else {
        return None;
    };
    match digits.parse::<u64>() {
        Ok(number) => Some(number),
        Err(_) => None,
    }
}

/// The number at this place of a line, which may be negative.
fn signed_at(line: &[u8], place: usize) -> Option<i64> {
    let Ok(digits) = str::from_utf8(word_at(line, place)) else {
        return None;
    };
    match digits.parse::<i64>() {
        Ok(number) => Some(number),
        Err(_) => None,
    }
}
