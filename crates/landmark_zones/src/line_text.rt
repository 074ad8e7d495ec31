//! The lines of landmark values in a certificate's text, each appended to those before it.
ghost use Rattle.std.specs.Prelude.{◌≡◌, ◌++◌, OnOk, map};
ghost use Rattle.std.specs.Fmt.{decimal};
ghost use Rattle.std.specs.List.{flat_map};
ghost use Rattle.lower_bounds.specs.LandmarkLines as line;
ghost use Rattle.lower_bounds.specs.LandmarkLines.{cut_by_text, dead_by_text, negated_text, number_text, numbers_text, share_text, whole_line};
ghost use Rattle.landmark_zones.specs.Landmarks.{share_of};

use crate::values::Share;
use crate::zones::ZoneRef;
use itoa::Buffer;
use std::alloc::AllocError;

/// Adds the line of a zone.
///
/// # Errors
/// An allocation failed. A prefix of the line may have been added.
pub fn add_zone(zone: ZoneRef<'_>, text: &mut Vec<u8>) -> Result<(), AllocError>
    ensures { OnOk result (text.new.items ≡ text.old.items ++ whole_line (line.zone (record { atoms = zone.entry.atoms.now; negated = zone.entry.negated.now }))) }
{
    text.extend_from_slice(b"zone")?;
    add_numbers(zone.atoms, text)?;
    add_negated(zone.negated, text)?;
    text.extend_from_slice(b"\n")
}

/// Adds the line of a value.
///
/// # Errors
/// An allocation failed. A prefix of the line may have been added.
pub fn add_value(shares: &[Share], text: &mut Vec<u8>) -> Result<(), AllocError>
    ensures { OnOk result (text.new.items ≡ text.old.items ++ whole_line (line.value (map share_of shares.now))) }
{
    text.extend_from_slice(b"marks")?;
    add_shares(shares, text)?;
    text.extend_from_slice(b"\n")
}

/// Adds what the line of a cut begins with that rests on the value with this number: all but the state.
///
/// # Errors
/// An allocation failed. A prefix may have been added.
pub fn add_cut_by(value: u32, cost: u64, rest: u64, text: &mut Vec<u8>) -> Result<(), AllocError>
    ensures { OnOk result (text.new.items ≡ text.old.items ++ cut_by_text value cost rest) }
{
    text.extend_from_slice(b"cut-by")?;
    add_number(u64::from(value), text)?;
    add_number(cost, text)?;
    add_number(rest, text)
}

/// Adds what the line of a dead end begins with that rests on the value with this number: all but the state.
///
/// # Errors
/// An allocation failed. A prefix may have been added.
pub fn add_dead_by(value: u32, cost: u64, text: &mut Vec<u8>) -> Result<(), AllocError>
    ensures { OnOk result (text.new.items ≡ text.old.items ++ dead_by_text value cost) }
{
    text.extend_from_slice(b"dead-by")?;
    add_number(u64::from(value), text)?;
    add_number(cost, text)
}

/// Adds the negated atoms after the word `not`, if there are any.
fn add_negated(negated: &[u32], text: &mut Vec<u8>) -> Result<(), AllocError>
    ensures { OnOk result (text.new.items ≡ text.old.items ++ negated_text negated.now) }
{
    if negated.is_empty() {
        return Ok(());
    }
    text.extend_from_slice(b" not")?;
    add_numbers(negated, text)
}

/// Adds the number of the zone of each share, and its weight.
fn add_shares(shares: &[Share], text: &mut Vec<u8>) -> Result<(), AllocError>
    ensures { OnOk result (text.new.items ≡ text.old.items ++ flat_map share_text (map share_of shares.now)) }
{
    for share in shares {
        add_number(u64::from(share.zone), text)?;
        add_number(u64::from(share.weight), text)?;
    }
    Ok(())
}

/// Adds the numbers, with a blank before each.
fn add_numbers(numbers: &[u32], text: &mut Vec<u8>) -> Result<(), AllocError>
    ensures { OnOk result (text.new.items ≡ text.old.items ++ numbers_text numbers.now) }
{
    for number in numbers {
        add_number(u64::from(*number), text)?;
    }
    Ok(())
}

/// Adds a blank, and then the number in decimal digits.
fn add_number(number: u64, text: &mut Vec<u8>) -> Result<(), AllocError>
    ensures { OnOk result (text.new.items ≡ text.old.items ++ number_text number) }
{
    text.extend_from_slice(b" ")?;
    text.extend_from_slice(Buffer::new().format(number).as_bytes())
}
