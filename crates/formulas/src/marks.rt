//! Sets of numbers, as tables of booleans.
ghost use Rattle.std.specs.Prelude.{◌≡◌, ◌==◌, OnOk};
ghost use Rattle.formulas.specs.Marks.{Marks, is_marked};

use faults::NoMemory;

/// Marks the number in the table, which is indexed by number and grows to hold it.
///
/// # Errors
/// An allocation failed.
pub fn mark(number: usize, table: &mut Vec<bool>) -> Result<(), NoMemory>
    ensures { OnOk result (Marks (λ n. number == n) table.old.items table.new.items) }
{
    while table.len() <= number {
        table.push(false)?;
    }
    table[number] = true;
    Ok(())
}

/// Whether the number is marked in the table; past its end none is.
pub fn is_marked(table: &[bool], number: usize) -> bool
    ensures { result ≡ is_marked table.now number }
{
    match table.get(number) {
        Some(marked) => *marked,
        None => false,
    }
}
