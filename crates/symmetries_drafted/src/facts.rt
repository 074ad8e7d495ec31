//! What a task states about its objects that no action changes: static initial atoms, values of functions, and atoms of the goal.
use faults::DraftMemory;
use formulas::FluentPredicates;
use task::{Atom, Formula, LiftedAtom, ObjectId, PredicateId, Task, Term};

/// The origin of a fact.
#[derive(Clone, Copy, Debug, PartialEq, Eq, PartialOrd, Ord)]
pub(crate) enum Source {
    /// A static initial atom.
    Start,
    /// A function with this value.
    Value(u32),
    /// An atom of the goal.
    Goal,
}

/// A predicate or a function, applied to objects.
#[derive(Debug, PartialEq, Eq, PartialOrd, Ord, Drop)]
pub(crate) struct Fact {
    pub(crate) source: Source,
    pub(crate) predicate: PredicateId,
    pub(crate) objects: Vec<ObjectId>,
}

/// All facts of a task.
#[derive(Drop)]
pub(crate) struct Facts {
    /// In ascending order, without repetition.
    all: Vec<Fact>,
    /// For each object, by number, the indices of the facts that name it.
    rows: Vec<Vec<usize>>,
}

impl Facts {
    /// The facts of the task.
    pub(crate) fn new(memory: &DraftMemory, task: &Task) -> Facts {
        let mut all = memory.list();
        add_start(memory, task, &mut all);
        add_values(memory, task, &mut all);
        add_goal(memory, task.goal(), &mut all);
        all.sort_unstable();
        all.dedup();
        let rows = rows_of(memory, task.object_count(), &all);
        Facts { all, rows }
    }

    /// The indices of the facts that name the object.
    pub(crate) fn places_of(&self, object: ObjectId) -> &[usize] {
        match self.rows.get(object.0 as usize) {
            Some(row) => row.as_slice(),
            None => &[],
        }
    }

    /// The number of facts.
    pub(crate) fn count(&self) -> usize {
        self.all.len()
    }

    /// The fact at this index.
    pub(crate) fn at(&self, place: usize) -> Option<&Fact> {
        self.all.get(place)
    }

    /// Whether this is a fact of the task.
    pub(crate) fn contain(&self, fact: &Fact) -> bool {
        self.all.binary_search(fact).is_ok()
    }
}

/// Adds the static initial atoms.
fn add_start(memory: &DraftMemory, task: &Task, all: &mut Vec<Fact>) {
    let Some(fluents) = memory.kept(FluentPredicates::new(memory.alloc(), task)) else {
        return;
    };
    for atom in task.init() {
        if !fluents.contains(atom.predicate) {
            add(memory, Source::Start, atom, all);
        }
    }
}

/// Adds the functions with values.
fn add_values(memory: &DraftMemory, task: &Task, all: &mut Vec<Fact>) {
    for (function, value) in task.values() {
        add(memory, Source::Value(*value), function, all);
    }
}

/// Adds the atom.
fn add(memory: &DraftMemory, source: Source, atom: &Atom, all: &mut Vec<Fact>) {
    let fact = Fact {
        source,
        predicate: atom.predicate,
        objects: memory.copied(atom.objects.as_slice()),
    };
    memory.push(all, fact);
}

/// Adds the ground atoms of the formula.
fn add_goal(memory: &DraftMemory, formula: &Formula, all: &mut Vec<Fact>) {
    match formula {
        Formula::Atom(atom) => add_lifted(memory, atom, all),
        Formula::Equal(_, _) => {}
        Formula::And(parts) | Formula::Or(parts) => {
            for part in parts {
                add_goal(memory, part, all);
            }
        }
        Formula::Not(part) | Formula::Exists(_, part) | Formula::Forall(_, part) => {
            add_goal(memory, part, all);
        }
        Formula::Imply(premise, conclusion) => {
            add_goal(memory, premise, all);
            add_goal(memory, conclusion, all);
        }
    }
}

/// Adds the atom if it is ground.
fn add_lifted(memory: &DraftMemory, atom: &LiftedAtom, all: &mut Vec<Fact>) {
    let mut objects = memory.list();
    for term in &atom.terms {
        if let Term::Object(object) = term {
            memory.push(&mut objects, *object);
        }
    }
    if objects.len() == atom.terms.len() {
        let fact = Fact {
            source: Source::Goal,
            predicate: atom.predicate,
            objects,
        };
        memory.push(all, fact);
    }
}

/// For each of `count` objects, the indices of the facts that name it, in ascending order and without repetition.
fn rows_of(memory: &DraftMemory, count: usize, all: &[Fact]) -> Vec<Vec<usize>> {
    let mut rows: Vec<Vec<usize>> = memory.list();
    for _ in 0..count {
        memory.push(&mut rows, memory.list());
    }
    for (place, fact) in all.iter().enumerate() {
        for object in &fact.objects {
            note(memory, &mut rows, *object, place);
        }
    }
    rows
}

/// Adds the index to the object's row, unless it is the row's last one.
fn note(memory: &DraftMemory, rows: &mut [Vec<usize>], object: ObjectId, place: usize) {
    if let Some(row) = rows.get_mut(object.0 as usize) {
        if row.last() != Some(&place) {
            memory.push(row, place);
        }
    }
}
