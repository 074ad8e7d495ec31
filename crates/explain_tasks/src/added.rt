//! Atoms that the goal requires and that are never true.
ghost use Rattle.std.specs.Prelude.{◌≡◌, ◌++◌, ◌∷◌, [], map, IfOk, OnOk, IsTrue};
ghost use Rattle.std.specs.FinSet.{empty};
ghost use Rattle.std.specs.List.{fold, list_all, list_any};
ghost use Rattle.std.specs.Ordering.{eq_by_cmp};
ghost use Rattle.task.specs.Task.{task_of};
ghost use Rattle.task.specs.TaskParts.{atom_of};
ghost use Rattle.formulas.specs.Effects.{change_of, ground_literal_of};
ghost use Rattle.formulas.specs.Literals.{literal_of};
ghost use Rattle.formulas.specs.State.{instance_of, state_of};
ghost use Rattle.grounding_instances.specs.Numbering.{task_in};
ghost use Rattle.model.specs.Meaning.{atom_cmp, is_instance};
ghost use Rattle.model.specs.NumberedAtoms.{occurs_in};
ghost use Rattle.explain_tasks.specs.Goals as defined;
ghost use Rattle.explain_tasks.specs.Goals.{Gains, GainsAsked};

use faults::NoMemory;
use formulas::{Atom, Binding, Change, GroundLiteral, Instance, Literal, State, changes, sure};
use grounding_instances::Numbering;
use std::alloc::Global;
use task::Task;

/// The first `limit` atoms that are sure literals of the goal and are never true: they are initially false, and no kept instance
/// adds them.
pub(crate) fn missing_goals(
    alloc: Global,
    numbering: &Numbering<'_>,
    limit: usize,
) -> Result<Vec<Atom>, NoMemory>
    ensures { IfOk result (λ found. map atom_of found.items ≡ defined.first_missing (task_in numbering.now) limit) }
{
    let task = numbering.task();
    let literals = sure(alloc, task, task.goal(), &Binding::new())?;
    let asked = atoms_asked_for(alloc, literals.as_slice())?;
    let added = atoms_added(alloc, task, numbering.instances(), &asked)?;
    let search = GoalSearch {
        numbering,
        added: &added,
        limit,
    };
    search.missing(alloc, literals.as_slice())
}

/// The atoms that the literals require.
fn atoms_asked_for(alloc: Global, literals: &[Literal]) -> Result<State, NoMemory>
    ensures { IfOk result (λ asked. Gains (occurs_in (defined.atoms_asked_for (map literal_of literals.now))) empty (state_of asked)) }
{
    let mut asked = State::new(alloc);
    for literal in literals {
        insert_asked_for(literal, &mut asked)?;
    }
    Ok(asked)
}

/// Inserts the atom that the literal requires.
fn insert_asked_for(literal: &Literal, asked: &mut State) -> Result<(), NoMemory>
    ensures { OnOk result (Gains (occurs_in (defined.atom_asked_for (literal_of literal.now))) (state_of asked.old) (state_of asked.new)) }
{
    match literal {
        Literal::IsTrue(atom) => insert_copy(atom, asked),
        _ => Ok(()),
    }
}

/// Inserts a copy of the atom.
fn insert_copy(atom: &Atom, atoms: &mut State) -> Result<(), NoMemory>
    ensures { OnOk result (Gains (occurs_in (atom_of atom.now ∷ [])) (state_of atoms.old) (state_of atoms.new)) }
{
    atoms.insert(atom.clone()?)?;
    Ok(())
}

/// The atoms among those that are asked for that some of the instances adds, under any condition.
fn atoms_added(
    alloc: Global,
    task: &Task,
    instances: &[Instance],
    asked: &State,
) -> Result<State, NoMemory>
    requires { IsTrue (list_all (is_instance (task_of task.now)) (map instance_of instances.now)) }
    ensures { IfOk result (λ added. GainsAsked (state_of asked.now) (λ a. list_any (defined.is_added_by (task_of task.now) a) (map instance_of instances.now)) empty (state_of added)) }
{
    let mut added = State::new(alloc);
    for instance in instances {
        let changes = changes(alloc, task, instance)?;
        insert_added(changes.as_slice(), asked, &mut added)?;
    }
    Ok(added)
}

/// Inserts the atoms that are asked for and that the changes add.
fn insert_added(changes: &[Change<'_>], asked: &State, added: &mut State) -> Result<(), NoMemory>
    ensures { OnOk result (GainsAsked (state_of asked.now) (λ a. list_any (defined.change_makes_true a) (map change_of changes.now)) (state_of added.old) (state_of added.new)) }
{
    for change in changes {
        insert_if_added(&change.literal, asked, added)?;
    }
    Ok(())
}

/// Inserts the atom that the literal adds, if it is asked for.
fn insert_if_added(
    literal: &GroundLiteral,
    asked: &State,
    added: &mut State,
) -> Result<(), NoMemory>
    ensures { OnOk result (GainsAsked (state_of asked.now) (λ a. defined.makes_true a (ground_literal_of literal.now)) (state_of added.old) (state_of added.new)) }
{
    match literal {
        GroundLiteral::Adds(atom) => insert_if_asked(atom, asked, added),
        GroundLiteral::Deletes(_) => Ok(()),
    }
}

/// Inserts the atom, if it is asked for.
fn insert_if_asked(atom: &Atom, asked: &State, added: &mut State) -> Result<(), NoMemory>
    ensures { OnOk result (GainsAsked (state_of asked.now) (eq_by_cmp atom_cmp (atom_of atom.now)) (state_of added.old) (state_of added.new)) }
{
    if !asked.contains(atom) {
        return Ok(());
    }
    insert_copy(atom, added)
}

/// A search for atoms of the goal that are never true.
#[derive(Drop)]
struct GoalSearch<'a, 't> {
    numbering: &'a Numbering<'t>,
    /// The atoms of the goal that some kept instance adds.
    added: &'a State,
    limit: usize,
}

impl GoalSearch<'_, '_> {
    /// The first such atoms that the literals require.
    fn missing(&self, alloc: Global, literals: &[Literal]) -> Result<Vec<Atom>, NoMemory>
        ensures { IfOk result (λ found. map atom_of found.items ≡ fold (defined.with_passing (defined.is_neither (task_in self.now.numbering.now) (state_of self.now.added.now)) self.now.limit) [] (defined.atoms_asked_for (map literal_of literals.now))) }
    {
        let mut found = Vec::new(alloc);
        for literal in literals {
            self.add_if_missing(literal, &mut found)?;
        }
        Ok(found)
    }

    /// Adds the atom that the literal requires, if it is never true and there is room.
    fn add_if_missing(&self, literal: &Literal, found: &mut Vec<Atom>) -> Result<(), NoMemory>
        ensures { OnOk result (map atom_of found.new.items ≡ fold (defined.with_passing (defined.is_neither (task_in self.now.numbering.now) (state_of self.now.added.now)) self.now.limit) (map atom_of found.old.items) (defined.atom_asked_for (literal_of literal.now))) }
    {
        match literal {
            Literal::IsTrue(atom) => self.add_atom_if_missing(atom, found),
            _ => Ok(()),
        }
    }

    /// Adds the atom, if it is never true and there is room.
    fn add_atom_if_missing(&self, atom: &Atom, found: &mut Vec<Atom>) -> Result<(), NoMemory>
        ensures { OnOk result (map atom_of found.new.items ≡ defined.with_passing (defined.is_neither (task_in self.now.numbering.now) (state_of self.now.added.now)) self.now.limit (map atom_of found.old.items) (atom_of atom.now)) }
    {
        if found.len() >= self.limit {
            return Ok(());
        }
        if !self.is_never_true(atom) {
            return Ok(());
        }
        push_copy(atom, found)
    }

    /// Whether the atom is initially false and no kept instance adds it.
    fn is_never_true(&self, atom: &Atom) -> bool
        ensures { result ≡ defined.is_neither (task_in self.now.numbering.now) (state_of self.now.added.now) (atom_of atom.now) }
    {
        !self.numbering.is_initial(atom) && !self.added.contains(atom)
    }
}

/// Adds a copy of the atom.
fn push_copy(atom: &Atom, found: &mut Vec<Atom>) -> Result<(), NoMemory>
    ensures { OnOk result (map atom_of found.new.items ≡ map atom_of found.old.items ++ atom_of atom.now ∷ []) }
{
    found.push(atom.clone()?)?;
    Ok(())
}
