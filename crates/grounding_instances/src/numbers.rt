//! Literals by the numbers of their atoms.
ghost use Rattle.std.specs.Prelude.{◌≡◌, ◌≤◌, ◌++◌, ◌∷◌, [], if◌then◌else◌, length, map, IfOk, OnOk};
ghost use Rattle.std.specs.List.{filter_map};
ghost use Rattle.task.specs.TaskParts.{atom_of};
ghost use Rattle.formulas.specs.Literals.{literal_of};
ghost use Rattle.model.specs.SureLiterals as sure_literals;
ghost use Rattle.model.specs.NumberedAtoms as numbered;
ghost use Rattle.model.specs.NumberedLiterals as model_literals;
ghost use Rattle.grounding_instances.specs.Numbers.{numbered_of};

use crate::atoms::MAX_ATOMS;
use faults::NoMemory;
use formulas::Literal;
use indexmap::IndexSet;
use std::alloc::Global;
use task::Atom;

/// A literal of a numbered atom.
#[derive(Clone, Copy, Debug, Default, PartialEq, Eq)]
pub struct NumberedLiteral {
    /// The atom's number, from 0.
    pub atom: u32,
    /// Whether the atom is true.
    pub value: bool,
}

/// The literals that are of numbered atoms, in order.
pub(crate) fn numbered(
    alloc: Global,
    atoms: &IndexSet<Atom>,
    literals: &[Literal],
) -> Result<Vec<NumberedLiteral>, NoMemory>
    requires { length atoms.now.keys ≤ MAX_ATOMS }
    ensures { IfOk result (λ found. map numbered_of found.items ≡ filter_map (model_literals.numbered_literal (map atom_of atoms.now.keys)) (map literal_of literals.now)) }
{
    let mut found = Vec::new(alloc);
    for literal in literals {
        add_numbered(atoms, literal, &mut found)?;
    }
    Ok(found)
}

/// Adds the literal, if it is of a numbered atom.
fn add_numbered(
    atoms: &IndexSet<Atom>,
    literal: &Literal,
    found: &mut Vec<NumberedLiteral>,
) -> Result<(), NoMemory>
    requires { length atoms.now.keys ≤ MAX_ATOMS }
    ensures { OnOk result (map numbered_of found.new.items ≡ map numbered_of found.old.items ++ filter_map (model_literals.numbered_literal (map atom_of atoms.now.keys)) (literal_of literal.now ∷ [])) }
{
    match literal {
        Literal::IsTrue(atom) => add_literal(atoms, atom, true, found),
        Literal::IsFalse(atom) => add_literal(atoms, atom, false, found),
        Literal::AreSame(_, _) => Ok(()),
        Literal::AreDifferent(_, _) => Ok(()),
    }
}

/// Adds the literal that the atom is true, or false, if the atom is numbered.
fn add_literal(
    atoms: &IndexSet<Atom>,
    atom: &Atom,
    value: bool,
    found: &mut Vec<NumberedLiteral>,
) -> Result<(), NoMemory>
    requires { length atoms.now.keys ≤ MAX_ATOMS }
    ensures { OnOk result (map numbered_of found.new.items ≡ map numbered_of found.old.items
        ++ filter_map (model_literals.numbered_literal (map atom_of atoms.now.keys)) ((if value then sure_literals.is_true (atom_of atom.now) else sure_literals.is_false (atom_of atom.now)) ∷ [])) }
{
    match number_of(atoms, atom) {
        Some(number) => {
            found.push(NumberedLiteral {
                atom: number,
                value,
            })?;
            Ok(())
        }
        None => Ok(()),
    }
}

/// The number of the atom, if it has one.
pub(crate) fn number_of(atoms: &IndexSet<Atom>, atom: &Atom) -> Option<u32>
    requires { length atoms.now.keys ≤ MAX_ATOMS }
    ensures { result ≡ numbered.number_of (map atom_of atoms.now.keys) (atom_of atom.now) }
{
    match atoms.get_index_of(atom) {
        Some(place) => Some(place as u32),
        None => None,
    }
}
