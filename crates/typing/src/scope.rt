//! Atoms: from names to numbers.
ghost use Rattle.std.specs.Prelude.{◌≡◌, ◌≤◌, length, map};
ghost use Rattle.std.specs.List.{list_any};
ghost use Rattle.pddl_tree.specs.Tree as read;
ghost use Rattle.task.specs.TaskParts as parts;
ghost use Rattle.model.specs.Typing.{names_of_predicates, total_cost, is_same, word_of};

use crate::type_names::TypeTable;
use crate::walk::Walk;
use arrayvec::ArrayVec;
use faults::{Code, NoMemory};
use indexmap::IndexMap;
use pddl_tree as tree;
use pddl_tree::{GroundAtom, Name, TaskFile};
use task::{
    Atom, LiftedAtom, MAX_ARGUMENTS, ObjectId, Predicate, PredicateId, Term, TypeId, TypeUnion,
    VariableId, all_below, is_below,
};

/// The names visible all over a file: those declared outside its actions.
#[derive(Drop)]
pub struct Globals<'g> {
    /// The file.
    pub file: TaskFile,
    /// The types by name, each with its supertypes.
    pub types: &'g TypeTable,
    /// The predicates by name.
    pub predicates: &'g IndexMap<Vec<u8>, Predicate>,
    /// The functions by name.
    pub functions: &'g IndexMap<Vec<u8>, Predicate>,
    /// The objects by name, each with its type.
    pub objects: &'g IndexMap<Vec<u8>, TypeId>,
    ghost few: { length objects.now.entries ≤ 65535 },
}

/// Names visible to an atom.
///
/// An unknown name gets the number after the last: its fault is reported, and no task results.
#[derive(Drop)]
pub struct Scope<'s> {
    /// The names visible all over the file.
    pub globals: &'s Globals<'s>,
    /// The table of the atom's first word: the predicates, or the functions in a function of terms or objects.
    symbols: &'s IndexMap<Vec<u8>, Predicate>,
    /// The variables in scope, each with its types.
    variables: &'s IndexMap<Vec<u8>, TypeUnion>,
}

/// Whether the total cost is declared among these functions.
pub fn declares_cost(functions: &IndexMap<Vec<u8>, Predicate>) -> bool
    ensures { result ≡ list_any (is_same total_cost) (names_of_predicates (map parts.predicate_of functions.now.entries)) }
{
    functions.contains_key(b"total-cost".as_slice())
}

impl Globals<'_> {
    ghost use Rattle.typing.specs.Scope.{known_of, known_outside, known_over};
    ghost use Rattle.model.specs.Typing.{has_cost};

    /// Whether the total cost is declared.
    pub fn has_cost(&self) -> bool
        ensures { result ≡ has_cost (known_outside self.now) }
    {
        declares_cost(self.functions)
    }

    /// The names visible where these variables are in scope.
    pub fn with<'v>(&'v self, variables: &'v IndexMap<Vec<u8>, TypeUnion>) -> Scope<'v>
        ensures file { result.globals.now.file ≡ self.now.file }
        ensures known { known_of result ≡ known_over self.now variables.now.entries }
    {
        Scope {
            globals: self,
            symbols: self.predicates,
            variables,
        }
    }
}

impl Scope<'_> {
    ghost use Rattle.std.specs.Prelude.{[], nat_lt, slice_get, is_some, if◌then◌else◌, take, None, Some, IfOk, OnOk};
    ghost use Rattle.std.specs.List.{list_all};
    ghost use Rattle.std.specs.Option.{option_map, option_map_or};
    ghost use Rattle.pddl_tree.specs.Tree.{file_of};
    ghost use Rattle.typing.specs.Scope.{argument_faults, arguments_at, known_of, narrow_atom_in};
    ghost use Rattle.typing.specs.Walk.{Finds};
    ghost use Rattle.model.specs.Task.{variable, object};
    ghost use Rattle.model.specs.Trees as tree;
    ghost use Rattle.model.specs.Typing.{atom_faults, atom_in, fits_in, fits_required, ground_atom_faults, has_cost, in_function, is_named, lifted_atom_in, names_of_objects, names_of_predicates, names_of_variables, number_in, predicate_faults, refused_word, term_faults, term_in, terms_faults, unknown_faults};

    /// The names visible in a function of terms or objects: the functions take the place of the predicates.
    pub fn in_function(&self) -> Scope<'_>
        ensures file { result.globals.now.file ≡ self.now.globals.now.file }
        ensures known { known_of result ≡ in_function (known_of self.now) }
    {
        Scope {
            globals: self.globals,
            symbols: self.globals.functions,
            variables: self.variables,
        }
    }

    /// The predicate with this name, used with this number of terms.
    fn predicate(
        &self,
        walk: &mut Walk,
        name: &Name<'_>,
        count: usize,
    ) -> Result<PredicateId, NoMemory>
        ensures value { IfOk result (λ p. p.0 ≡ number_in (names_of_predicates (known_of self.now).predicates) (read.name_of name.now)) }
        ensures finds { OnOk result (Finds walk.old walk.new (predicate_faults (file_of self.now.globals.now.file) (known_of self.now) (read.name_of name.now) count)) }
    {
        walk.fold(name)?;
        match self.symbols.get_full(walk.folded.as_slice()) {
            Some((number, _, predicate)) => {
                if predicate.arguments.len() != count {
                    walk.refuse(self.globals.file, Code::WrongArity, name);
                }
                Ok(PredicateId(number))
            }
            None => {
                walk.refuse(self.globals.file, Code::UnknownName, name);
                Ok(PredicateId(self.symbols.len()))
            }
        }
    }

    /// Refuses a name that has no place in its table.
    fn check_known(&self, walk: &mut Walk, place: Option<usize>, name: &Name<'_>)
        ensures { Finds walk.old walk.new (if is_some place then [] else refused_word (file_of self.now.globals.now.file) 17 (read.name_of name.now)) }
    {
        if place.is_none() {
            walk.refuse(self.globals.file, Code::UnknownName, name);
        }
    }

    /// The variable with this name.
    fn variable(&self, walk: &mut Walk, name: &Name<'_>) -> Result<VariableId, NoMemory>
        ensures value { IfOk result (λ v. v.0 ≡ number_in (names_of_variables (known_of self.now).variables) (read.name_of name.now)) }
        ensures finds { OnOk result (Finds walk.old walk.new (unknown_faults (file_of self.now.globals.now.file) 17 (names_of_variables (known_of self.now).variables) (read.name_of name.now))) }
    {
        walk.fold(name)?;
        let place = self.variables.get_index_of(walk.folded.as_slice());
        self.check_known(walk, place, name);
        Ok(VariableId(place.unwrap_or(self.variables.len())))
    }

    /// The object with this name.
    fn object(&self, walk: &mut Walk, name: &Name<'_>) -> Result<ObjectId, NoMemory>
        ensures value { IfOk result (λ o. o.0 ≡ number_in (names_of_objects (known_of self.now).objects) (read.name_of name.now)) }
        ensures finds { OnOk result (Finds walk.old walk.new (unknown_faults (file_of self.now.globals.now.file) 17 (names_of_objects (known_of self.now).objects) (read.name_of name.now))) }
    {
        walk.fold(name)?;
        let place = self.globals.objects.get_index_of(walk.folded.as_slice());
        self.check_known(walk, place, name);
        let number = place.unwrap_or(self.globals.objects.len());
        Ok(ObjectId(number as u32))
    }

    /// The variable or the object in an atom or an equality.
    pub(crate) fn term(&self, walk: &mut Walk, term: &tree::Term<'_>) -> Result<Term, NoMemory>
        ensures value { IfOk result (λ t. parts.term_of t ≡ term_in (known_of self.now) (read.term_of term.now)) }
        ensures finds { OnOk result (Finds walk.old walk.new (term_faults (file_of self.now.globals.now.file) (known_of self.now) (read.term_of term.now))) }
    {
        match term {
            tree::Term::Variable(name) => Ok(Term::Variable(self.variable(walk, name)?)),
            tree::Term::Object(name) => Ok(Term::Object(self.object(walk, name)?)),
        }
    }

    /// Whether every type of a variable fits an argument. An unknown variable fits.
    fn variable_fits(&self, required_types: &TypeUnion, id: VariableId) -> bool
        ensures { result ≡ fits_in (known_of self.now) (parts.union_of required_types.now) (variable id.0) }
    {
        match self.variables.get_index(id.0) {
            Some((_, types)) => all_below(&self.globals.types.by_name, required_types, &types.0),
            None => true,
        }
    }

    /// Whether the type of an object fits an argument. An unknown object fits.
    fn object_fits(&self, required_types: &TypeUnion, id: ObjectId) -> bool
        ensures { result ≡ fits_in (known_of self.now) (parts.union_of required_types.now) (object id.0) }
    {
        match self.globals.objects.get_index(id.0 as usize) {
            Some((_, of_type)) => is_below(&self.globals.types.by_name, required_types, *of_type),
            None => true,
        }
    }

    /// Whether a term fits an argument.
    fn fits(&self, required_types: &TypeUnion, term: Term) -> bool
        ensures { result ≡ fits_in (known_of self.now) (parts.union_of required_types.now) (parts.term_of term) }
    {
        match term {
            Term::Variable(id) => self.variable_fits(required_types, id),
            Term::Object(id) => self.object_fits(required_types, id),
        }
    }

    /// The types that an argument of a predicate must have; `None` if there is no such argument.
    fn required_types(&self, predicate: PredicateId, index: usize) -> Option<&TypeUnion>
        ensures { option_map (λ u. parts.union_of u.now) result ≡ slice_get (arguments_at (known_of self.now) predicate.0) index }
    {
        let (_, predicate) = self.symbols.get_index(predicate.0)?;
        predicate.arguments.get(index)
    }

    /// Whether a term fits an argument; true if there is no such argument.
    fn fits_argument(&self, required_types: Option<&TypeUnion>, term: Term) -> bool
        ensures { result ≡ fits_required (known_of self.now) (option_map (λ u. parts.union_of u.now) required_types.entry) (parts.term_of term) }
    {
        match required_types {
            Some(required_types) => self.fits(required_types, term),
            None => true,
        }
    }

    /// The term in the place of an argument.
    fn argument(
        &self,
        walk: &mut Walk,
        required_types: Option<&TypeUnion>,
        term: &tree::Term<'_>,
    ) -> Result<Term, NoMemory>
        ensures value { IfOk result (λ t. parts.term_of t ≡ term_in (known_of self.now) (read.term_of term.now)) }
        ensures finds { OnOk result (Finds walk.old walk.new (argument_faults (file_of self.now.globals.now.file) (known_of self.now) (option_map (λ u. parts.union_of u.now) required_types.entry) (read.term_of term.now))) }
    {
        let resolved = self.term(walk, term)?;
        if !self.fits_argument(required_types, resolved) {
            walk.refuse(self.globals.file, Code::WrongType, word(term));
        }
        Ok(resolved)
    }

    /// The terms of an atom.
    fn terms(
        &self,
        walk: &mut Walk,
        predicate: PredicateId,
        given: &[tree::Term<'_>],
    ) -> Result<Vec<Term>, NoMemory>
        ensures value { IfOk result (λ v. map parts.term_of v.items ≡ map (λ t. term_in (known_of self.now) (read.term_of t)) given.now) }
        ensures finds { OnOk result (Finds walk.old walk.new (terms_faults (file_of self.now.globals.now.file) (known_of self.now) (arguments_at (known_of self.now) predicate.0) (map read.term_of given.now))) }
    {
        let mut terms = Vec::with_capacity(walk.alloc, given.len())?;
        for index in 0..given.len() {
            let required_types = self.required_types(predicate, index);
            terms.push(self.argument(walk, required_types, &given[index])?)?;
        }
        Ok(terms)
    }

    /// An atom of an action or a goal.
    pub fn lifted_atom(
        &self,
        walk: &mut Walk,
        atom: &tree::Atom<'_>,
    ) -> Result<LiftedAtom, NoMemory>
        ensures value { IfOk result (λ a. parts.lifted_atom_of a ≡ lifted_atom_in (known_of self.now) (read.atom_of atom.now)) }
        ensures finds { OnOk result (Finds walk.old walk.new (atom_faults (file_of self.now.globals.now.file) (known_of self.now) (read.atom_of atom.now))) }
    {
        let given = atom.terms.as_slice();
        let predicate = self.predicate(walk, &atom.predicate, given.len())?;
        let terms = self.terms(walk, predicate, given)?;
        Ok(LiftedAtom { predicate, terms })
    }

    /// The object in the place of an argument.
    fn ground_argument(
        &self,
        walk: &mut Walk,
        required_types: Option<&TypeUnion>,
        name: &Name<'_>,
    ) -> Result<ObjectId, NoMemory>
        ensures value { IfOk result (λ o. o.0 ≡ number_in (names_of_objects (known_of self.now).objects) (read.name_of name.now)) }
        ensures finds { OnOk result (Finds walk.old walk.new (argument_faults (file_of self.now.globals.now.file) (known_of self.now) (option_map (λ u. parts.union_of u.now) required_types.entry) (tree.object (read.name_of name.now)))) }
    {
        let object = self.object(walk, name)?;
        if !self.fits_argument(required_types, Term::Object(object)) {
            walk.refuse(self.globals.file, Code::WrongType, name);
        }
        Ok(object)
    }

    /// The objects of an atom, at most as many as a predicate may have.
    fn ground_objects(
        &self,
        walk: &mut Walk,
        predicate: PredicateId,
        given: &[Name<'_>],
    ) -> Result<ArrayVec<ObjectId, MAX_ARGUMENTS>, NoMemory>
        ensures value { IfOk result (λ v. map parts.object_of v.items ≡ take 8 (map (λ n. number_in (names_of_objects (known_of self.now).objects) (read.name_of n)) given.now)) }
        ensures finds { OnOk result (Finds walk.old walk.new (terms_faults (file_of self.now.globals.now.file) (known_of self.now) (arguments_at (known_of self.now) predicate.0) (map (λ n. tree.object (read.name_of n)) given.now))) }
    {
        let mut objects = ArrayVec::new();
        for index in 0..given.len() {
            let required_types = self.required_types(predicate, index);
            let object = self.ground_argument(walk, required_types, &given[index])?;
            if objects.len() < MAX_ARGUMENTS {
                objects.push(object);
            }
        }
        Ok(objects)
    }

    /// An atom of the initial state. Of more objects than a predicate may have only the first are kept; their number is a fault
    /// then.
    pub fn atom(&self, walk: &mut Walk, atom: &GroundAtom<'_>) -> Result<Atom, NoMemory>
        ensures value { IfOk result (λ a. parts.atom_of a ≡ narrow_atom_in (known_of self.now) (read.ground_atom_of atom.now)) }
        ensures finds { OnOk result (Finds walk.old walk.new (ground_atom_faults (file_of self.now.globals.now.file) (known_of self.now) (read.ground_atom_of atom.now))) }
    {
        let given = atom.objects.as_slice();
        let predicate = self.predicate(walk, &atom.predicate, given.len())?;
        let objects = self.ground_objects(walk, predicate, given)?;
        Ok(Atom { predicate, objects })
    }

    /// Whether all objects are known.
    fn all_known(&self, objects: &[ObjectId]) -> bool
        ensures { result ≡ list_all (λ n. nat_lt n (length (known_of self.now).objects)) (map parts.object_of objects.now) }
    {
        let count = self.globals.objects.len();
        objects.iter().all(|object| (object.0 as usize) < count)
    }

    /// Whether all names in an atom of the initial state are known, and it does not have too many objects. `atom` is what
    /// [`Scope::atom`] made of it.
    fn is_named(&self, given: &GroundAtom<'_>, atom: &Atom) -> bool
        requires { parts.atom_of atom.now ≡ narrow_atom_in (known_of self.now) (read.ground_atom_of given.now) }
        ensures { result ≡ is_named (known_of self.now) (read.ground_atom_of given.now) }
    {
        atom.predicate.0 < self.symbols.len()
            && given.objects.len() <= MAX_ARGUMENTS
            && self.all_known(&atom.objects)
    }

    /// An atom of the initial state, if all its names are known and it does not have too many objects.
    pub fn named_atom(
        &self,
        walk: &mut Walk,
        given: &GroundAtom<'_>,
    ) -> Result<Option<Atom>, NoMemory>
        ensures value { IfOk result (λ o. option_map parts.atom_of o ≡ (if is_named (known_of self.now) (read.ground_atom_of given.now) then Some (atom_in (known_of self.now) (read.ground_atom_of given.now)) else None)) }
        ensures finds { OnOk result (Finds walk.old walk.new (ground_atom_faults (file_of self.now.globals.now.file) (known_of self.now) (read.ground_atom_of given.now))) }
    {
        let atom = self.atom(walk, given)?;
        if self.is_named(given, &atom) {
            Ok(Some(atom))
        } else {
            Ok(None)
        }
    }
}

/// The word of a term.
fn word<'t>(term: &'t tree::Term<'t>) -> &'t Name<'t>
    ensures { read.name_of result.now ≡ word_of (read.term_of term.now) }
{
    match term {
        tree::Term::Variable(name) => name,
        tree::Term::Object(name) => name,
    }
}
