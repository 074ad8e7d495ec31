//! Tasks from texts, with atoms and instances given by numbers.
use arrayvec::ArrayVec;
use faults::{Fault, NoMemory};
use formulas::{Atom, Instance};
use pddl_tree::{Domain, Problem, domain, problem};
use std::alloc::Global;
use std::test::Fail;
use task::{ObjectId, PredicateId, SchemaId, Task};
use tokens::scan;
use typing::FromTrees;

/// A predicate or an action applied to objects, all by number.
pub type Application = (usize, &'static [u32]);

/// Parses a domain's text.
fn read_domain(alloc: Global, text: &[u8]) -> Result<Domain<'_>, Fault> {
    let words = scan(alloc, text)?;
    domain(alloc, words.as_slice())
}

/// Parses a problem's text.
fn read_problem(alloc: Global, text: &[u8]) -> Result<Problem<'_>, Fault> {
    let words = scan(alloc, text)?;
    problem(alloc, words.as_slice())
}

/// The task of a domain's and a problem's text.
fn read_task(alloc: Global, texts: &[&str; 2]) -> Result<Task, Fail> {
    let domain = read_domain(alloc, texts[0].as_bytes())?;
    let problem = read_problem(alloc, texts[1].as_bytes())?;
    Ok(Task::new(alloc, domain, problem)?)
}

/// Runs this function on the task of the texts.
pub fn on_task<R, F: FnOnce(&R, Global, &Task) -> Result<(), Fail> + Drop>(
    rt: &R,
    alloc: Global,
    texts: &[&str; 2],
    act: F,
) -> Result<(), Fail>
    requires { F.IsAlwaysCallable act }
{
    let task = read_task(alloc, texts)?;
    act(rt, alloc, &task)
}

/// The objects with these numbers.
fn objects<const N: usize>(numbers: &[u32]) -> ArrayVec<ObjectId, N> {
    let mut objects = ArrayVec::new();
    for number in numbers {
        let _ = objects.try_push(ObjectId(*number));
    }
    objects
}

/// The atom of this predicate and these objects.
pub fn atom(predicate: usize, numbers: &[u32]) -> Atom {
    Atom {
        predicate: PredicateId(predicate),
        objects: objects(numbers),
    }
}

/// The atoms of these predicates and objects.
pub fn atoms(alloc: Global, rows: &[Application]) -> Result<Vec<Atom>, NoMemory> {
    let mut atoms = Vec::new(alloc);
    for row in rows {
        atoms.push(atom(row.0, row.1))?;
    }
    Ok(atoms)
}

/// The instance of this schema with these objects.
pub fn instance(schema: usize, numbers: &[u32]) -> Instance {
    Instance {
        schema: SchemaId(schema),
        objects: objects(numbers),
    }
}
