//! The test of exchanges.
ghost use Rattle.std.specs.Prelude.{◌≡◌};
ghost use Rattle.std.specs.FinSet.{contains};
ghost use Rattle.std.proofs.Props.{props};
ghost use Rattle.task.specs.Task.{task_of};
ghost use Rattle.formulas.specs.FluentTable.{AreFluentsOf};
ghost use Rattle.formulas.specs.State.{state_of};
ghost use Rattle.symmetries.specs.Lent.{PassAlike, formulas_lent};
ghost use Rattle.symmetries.specs.Named.{AreNamedIn};
ghost use Rattle.symmetries.specs.PlacesByObject.{Covers, Indexes, functions_of};
ghost use Rattle.model.specs.Task as model_task;
ghost use Rattle.model.specs.Meaning.{initial_state};
ghost use Rattle.symmetries_definitions.specs.Symmetries as defined;

use crate::conjuncts::conjuncts;
use crate::exchange::Exchange;
use crate::images::{image_of_atom, is_image};
use crate::named::NamedObjects;
use crate::places::PlacesByObject;
use faults::NoMemory;
use formulas::{FluentPredicates, State};
use std::alloc::Global;
use task::{Atom, Formula, ObjectId, PredicateId, Task};

/// Tests whether exchanges are symmetries of a task. Data shared by several tests is computed once.
pub struct SymmetryTest<'t> {
    task: &'t Task,
    named: NamedObjects,
    fluents: FluentPredicates,
    initial: State,
    /// Where the initial atoms name an object, and where the functions with values do.
    atoms: PlacesByObject,
    functions: PlacesByObject,
    /// The conjuncts of the goal, and where they name an object.
    conjuncts: Vec<&'t Formula>,
    goals: PlacesByObject,
    ghost are_named: { AreNamedIn (task_of task.now) named.table.items } by { Prim.hlevel props },
    ghost are_fluents: { AreFluentsOf (task_of task.now) fluents } by { Prim.hlevel props },
    ghost is_initial: { (a : model_task.Atom) → contains (state_of initial) a ≡ contains (initial_state (task_of task.now)) a } by { Prim.hlevel props },
    ghost covers_atoms: { Covers (task_of task.now).init atoms } by { Prim.hlevel props },
    ghost covers_functions: { Covers (functions_of (task_of task.now).values) functions } by { Prim.hlevel props },
    ghost are_conjuncts: { PassAlike (formulas_lent conjuncts.items) (defined.conjuncts (task_of task.now).goal) } by { Prim.hlevel props },
    ghost covers_goal: { Indexes (formulas_lent conjuncts.items) goals } by { Prim.hlevel props },
}

impl Drop for SymmetryTest<'_> {
    fn drop(self) {
        let Self {
            task: _,
            named: _,
            fluents: _,
            initial: _,
            atoms: _,
            functions: _,
            conjuncts: _,
            goals: _,
        } = self;
    }
}

impl<'t> SymmetryTest<'t> {
    ghost use Rattle.std.specs.Prelude.{true, false, ◌&&◌, ◌||◌, nat_eq, slice_get, IfOk};
    ghost use Rattle.std.specs.Option.{option_eq, option_map_or};
    ghost use Rattle.task.specs.TaskParts.{atom_of, formula_of};
    ghost use Rattle.symmetries.specs.Exchange.{exchange_of, image};
    ghost use Rattle.symmetries.specs.Named.{is_among};
    ghost use Rattle.symmetries.specs.PlacesByObject.{row_of};
    ghost use Rattle.symmetries.specs.SymmetryTest.{task_tested};
    ghost use Rattle.symmetries.specs.Kept.{has_image, keeps_at, keeps_atom, keeps_value, keeps_value_of};
    ghost use Rattle.model.specs.Fluents.{is_fluent};
    ghost use Rattle.model.specs.NumberedAtoms.{occurs_in};
    ghost use Rattle.symmetries_definitions.specs.Exchanges.{image_of_formula};
    ghost use Rattle.symmetries_definitions.specs.NamedObjects.{named_in_actions, named_in_formula};
    ghost use Rattle.symmetries_definitions.specs.SameFormula.{is_same_formula};

    /// Prepares the test for the task.
    ///
    /// # Errors
    /// An allocation failed, which says nothing about the task.
    pub fn new(alloc: Global, task: &'t Task) -> Result<SymmetryTest<'t>, NoMemory>
        ensures { IfOk result (λ test. task_tested test ≡ task_of task.now) }
    {
        let named = NamedObjects::new(alloc, task)?;
        let fluents = FluentPredicates::new(alloc, task)?;
        let initial = State::initial(alloc, task)?;
        let atoms = PlacesByObject::of_atoms(alloc, task.init())?;
        let functions = PlacesByObject::of_functions(alloc, task.values())?;
        let conjuncts = conjuncts(alloc, task.goal())?;
        let goals = PlacesByObject::of_formulas(alloc, &conjuncts)?;
        Ok(SymmetryTest {
            task,
            named,
            fluents,
            initial,
            atoms,
            functions,
            conjuncts,
            goals,
        })
    }

    /// Whether the exchange is a symmetry of the task. Nothing is allocated.
    pub fn is_symmetry(&self, exchange: &Exchange) -> bool
        ensures { result ≡ defined.is_symmetry (task_tested self.now) (exchange_of exchange.now) }
    {
        if !self.keeps_types(exchange) {
            return false;
        }
        if !self.keeps_actions(exchange) {
            return false;
        }
        if !self.keeps_values(exchange) {
            return false;
        }
        if !self.keeps_statics(exchange) {
            return false;
        }
        self.keeps_goal(exchange)
    }

    /// Whether the objects of each pair have the same declared type.
    fn keeps_types(&self, exchange: &Exchange) -> bool
        ensures { result ≡ defined.keeps_types (task_tested self.now) (exchange_of exchange.now) }
    {
        for pair in exchange.pairs() {
            if !self.have_one_type(pair.0, pair.1) {
                return false;
            }
        }
        true
    }

    /// Whether both objects have the same declared type.
    fn have_one_type(&self, one: ObjectId, other: ObjectId) -> bool
        ensures { result ≡ option_eq nat_eq (defined.declared_type (task_tested self.now) one.0) (defined.declared_type (task_tested self.now) other.0) }
    {
        let first = self.task.declared_type(one);
        let second = self.task.declared_type(other);
        first == second
    }

    /// Whether no action names an exchanged object.
    fn keeps_actions(&self, exchange: &Exchange) -> bool
        ensures { result ≡ defined.keeps_actions (task_tested self.now) (image exchange.now) }
    {
        for pair in exchange.pairs() {
            if self.names(pair.0, pair.1) {
                return false;
            }
        }
        true
    }

    /// Whether some action names one of the objects.
    fn names(&self, one: ObjectId, other: ObjectId) -> bool
        ensures { result ≡ (is_among (named_in_actions (task_tested self.now)) one.0 || is_among (named_in_actions (task_tested self.now)) other.0) }
    {
        self.is_named(one) || self.is_named(other)
    }

    /// Whether some action names the object.
    fn is_named(&self, object: ObjectId) -> bool
        ensures { result ≡ is_among (named_in_actions (task_tested self.now)) object.0 }
    {
        self.named.contains(object)
    }

    /// Whether each function has the same value as its image. Only functions of exchanged objects can fail.
    fn keeps_values(&self, exchange: &Exchange) -> bool
        ensures { result ≡ defined.keeps_values (task_tested self.now) (image exchange.now) }
    {
        for pair in exchange.pairs() {
            if !self.keeps_values_of_pair(exchange, pair.0, pair.1) {
                return false;
            }
        }
        true
    }

    /// Whether each function of one of the objects has the same value as its image.
    fn keeps_values_of_pair(&self, exchange: &Exchange, one: ObjectId, other: ObjectId) -> bool
        ensures { result ≡ (keeps_at (keeps_value (task_tested self.now) (image exchange.now)) (task_tested self.now).values (row_of self.now.functions) one.0
            && keeps_at (keeps_value (task_tested self.now) (image exchange.now)) (task_tested self.now).values (row_of self.now.functions) other.0) }
    {
        self.keeps_values_of(exchange, one) && self.keeps_values_of(exchange, other)
    }

    /// Whether each function of the object has the same value as its image.
    fn keeps_values_of(&self, exchange: &Exchange, object: ObjectId) -> bool
        ensures { result ≡ keeps_at (keeps_value (task_tested self.now) (image exchange.now)) (task_tested self.now).values (row_of self.now.functions) object.0 }
    {
        for place in self.functions.of(object) {
            if !self.keeps_value_at(exchange, *place) {
                return false;
            }
        }
        true
    }

    /// Whether the function valued at this index, if there is one, has the same value as its image.
    fn keeps_value_at(&self, exchange: &Exchange, place: usize) -> bool
        ensures { result ≡ option_map_or (keeps_value (task_tested self.now) (image exchange.now)) (slice_get (task_tested self.now).values place) true }
    {
        match self.task.values().get_index(place) {
            Some((function, _)) => self.keeps_value(exchange, function),
            None => true,
        }
    }

    /// Whether the function has the same value as its image.
    fn keeps_value(&self, exchange: &Exchange, function: &Atom) -> bool
        ensures { result ≡ keeps_value_of (task_tested self.now) (image exchange.now) (atom_of function.now) }
    {
        let image = image_of_atom(exchange, function);
        let value_of_image = self.task.value(&image);
        let value = self.task.value(function);
        value_of_image == value
    }

    /// Whether the image of each static initial atom is initially true. Only an atom that names exchanged objects differs from
    /// its image.
    fn keeps_statics(&self, exchange: &Exchange) -> bool
        ensures { result ≡ defined.keeps_statics (task_tested self.now) (image exchange.now) }
    {
        for pair in exchange.pairs() {
            if !self.keeps_atoms_of_pair(exchange, pair.0, pair.1) {
                return false;
            }
        }
        true
    }

    /// Whether each initial atom that names one of the objects is fluent, or has an initially true image.
    fn keeps_atoms_of_pair(&self, exchange: &Exchange, one: ObjectId, other: ObjectId) -> bool
        ensures { result ≡ (keeps_at (keeps_atom (task_tested self.now) (image exchange.now)) (task_tested self.now).init (row_of self.now.atoms) one.0
            && keeps_at (keeps_atom (task_tested self.now) (image exchange.now)) (task_tested self.now).init (row_of self.now.atoms) other.0) }
    {
        self.keeps_atoms_of(exchange, one) && self.keeps_atoms_of(exchange, other)
    }

    /// Whether each initial atom that names the object is fluent, or has an initially true image.
    fn keeps_atoms_of(&self, exchange: &Exchange, object: ObjectId) -> bool
        ensures { result ≡ keeps_at (keeps_atom (task_tested self.now) (image exchange.now)) (task_tested self.now).init (row_of self.now.atoms) object.0 }
    {
        for place in self.atoms.of(object) {
            if !self.keeps_atom_at(exchange, *place) {
                return false;
            }
        }
        true
    }

    /// Whether the initial atom at this index, if there is one, is fluent or has an initially true image.
    fn keeps_atom_at(&self, exchange: &Exchange, place: usize) -> bool
        ensures { result ≡ option_map_or (keeps_atom (task_tested self.now) (image exchange.now)) (slice_get (task_tested self.now).init place) true }
    {
        match self.task.init().get(place) {
            Some(atom) => self.keeps_atom(exchange, atom),
            None => true,
        }
    }

    /// Whether the atom is fluent or has an initially true image.
    fn keeps_atom(&self, exchange: &Exchange, atom: &Atom) -> bool
        ensures { result ≡ keeps_atom (task_tested self.now) (image exchange.now) (atom_of atom.now) }
    {
        if self.is_fluent(atom.predicate) {
            return true;
        }
        let image = image_of_atom(exchange, atom);
        self.is_initial(&image)
    }

    /// Whether some action adds or deletes an atom of the predicate.
    fn is_fluent(&self, predicate: PredicateId) -> bool
        ensures { result ≡ is_fluent (task_tested self.now) predicate.0 }
    {
        self.fluents.contains(predicate)
    }

    /// Whether the atom is initially true.
    fn is_initial(&self, atom: &Atom) -> bool
        ensures { result ≡ occurs_in (task_tested self.now).init (atom_of atom.now) }
    {
        self.initial.contains(atom)
    }

    /// Whether the image of each conjunct of the goal is a conjunct of the goal. Only a conjunct that names exchanged objects
    /// differs from its image.
    fn keeps_goal(&self, exchange: &Exchange) -> bool
        ensures { result ≡ defined.keeps_goal (task_tested self.now) (image exchange.now) }
    {
        for pair in exchange.pairs() {
            if !self.keeps_conjuncts_of_pair(exchange, pair.0, pair.1) {
                return false;
            }
        }
        true
    }

    /// Whether the image of each conjunct that names one of the objects is a conjunct.
    fn keeps_conjuncts_of_pair(&self, exchange: &Exchange, one: ObjectId, other: ObjectId) -> bool
        ensures { result ≡ (keeps_at (has_image (task_tested self.now) (image exchange.now)) (formulas_lent self.now.conjuncts.items) (row_of self.now.goals) one.0
            && keeps_at (has_image (task_tested self.now) (image exchange.now)) (formulas_lent self.now.conjuncts.items) (row_of self.now.goals) other.0) }
    {
        self.keeps_conjuncts_of(exchange, one) && self.keeps_conjuncts_of(exchange, other)
    }

    /// Whether the image of each conjunct that names the object is a conjunct.
    fn keeps_conjuncts_of(&self, exchange: &Exchange, object: ObjectId) -> bool
        ensures { result ≡ keeps_at (has_image (task_tested self.now) (image exchange.now)) (formulas_lent self.now.conjuncts.items) (row_of self.now.goals) object.0 }
    {
        for place in self.goals.of(object) {
            if !self.has_image_at(exchange, object, *place) {
                return false;
            }
        }
        true
    }

    /// Whether the image of the conjunct at this index, which names the object, is a conjunct.
    fn has_image_at(&self, exchange: &Exchange, object: ObjectId, place: usize) -> bool
        requires { is_among (row_of self.now.goals object.0) place ≡ true }
        ensures { result ≡ option_map_or (has_image (task_tested self.now) (image exchange.now)) (slice_get (formulas_lent self.now.conjuncts.items) place) true }
    {
        match self.conjuncts.get(place) {
            Some(conjunct) => self.has_image(exchange, object, conjunct),
            None => true,
        }
    }

    /// Whether the image of the formula, which names the object, is a conjunct. Only one that names the object's image can be.
    fn has_image(&self, exchange: &Exchange, object: ObjectId, formula: &Formula) -> bool
        requires { is_among (named_in_formula (formula_of formula.now)) object.0 ≡ true }
        ensures { result ≡ has_image (task_tested self.now) (image exchange.now) (formula_of formula.now) }
    {
        for place in self.goals.of(exchange.image(object)) {
            if self.is_image_at(exchange, formula, *place) {
                return true;
            }
        }
        false
    }

    /// Whether the conjunct at this index, if there is one, is the image of the formula.
    fn is_image_at(&self, exchange: &Exchange, formula: &Formula, place: usize) -> bool
        ensures { result ≡ option_map_or (is_same_formula (image_of_formula (image exchange.now) (formula_of formula.now))) (slice_get (formulas_lent self.now.conjuncts.items) place) false }
    {
        match self.conjuncts.get(place) {
            Some(conjunct) => is_image(exchange, formula, conjunct),
            None => false,
        }
    }
}
