//! Literals of atoms without a number. Each is true in all packed states or in none.
ghost use Rattle.std.specs.Prelude.{◌≡◌, is_some, map};
ghost use Rattle.std.specs.List.{list_all};
ghost use Rattle.task.specs.TaskParts.{atom_of};
ghost use Rattle.formulas.specs.Literals.{literal_of};
ghost use Rattle.model.specs.NumberedAtoms as numbered;
ghost use Rattle.grounding_instances.specs.Numbering.{task_in, atoms_in};
ghost use Rattle.grounding.specs.Unnumbered as unnumbered;

use formulas::Literal;
use grounding_instances::Numbering;
use task::Atom;

/// Whether each literal is of a numbered atom or true in all packed states.
pub(crate) fn all_may_hold(numbering: &Numbering<'_>, literals: &[Literal]) -> bool
    ensures { result ≡ list_all (unnumbered.may_hold (task_in numbering.now) (atoms_in numbering.now)) (map literal_of literals.now) }
{
    for literal in literals {
        if !may_hold(numbering, literal) {
            return false;
        }
    }
    true
}

/// Whether the literal is of a numbered atom or true in all packed states. Any other is true in none.
fn may_hold(numbering: &Numbering<'_>, literal: &Literal) -> bool
    ensures { result ≡ unnumbered.may_hold (task_in numbering.now) (atoms_in numbering.now) (literal_of literal.now) }
{
    match literal {
        Literal::IsTrue(atom) => {
            is_numbered(numbering, atom) || numbering.is_initial_static(atom)
        }
        Literal::IsFalse(atom) => {
            is_numbered(numbering, atom) || !numbering.is_initial_static(atom)
        }
        Literal::AreSame(first, second) => first == second,
        Literal::AreDifferent(first, second) => first != second,
    }
}

/// Whether the atom has a number.
fn is_numbered(numbering: &Numbering<'_>, atom: &Atom) -> bool
    ensures { result ≡ is_some (numbered.number_of (atoms_in numbering.now) (atom_of atom.now)) }
{
    numbering.number_of(atom).is_some()
}
