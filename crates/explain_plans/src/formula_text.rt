//! Formulas as texts, with objects in place of bound variables.
ghost use Rattle.std.specs.Prelude.{◌≡◌, ◌++◌, ◌∷◌, [], ℕ, List, codes, map, slice_get, IfOk, OnOk};
ghost use Rattle.std.specs.Borrow.{Bor};
ghost use Rattle.std.specs.Fmt.{decimal};
ghost use Rattle.std.specs.List.{flat_map};
ghost use Rattle.std.specs.Option.{option_map_or};
ghost use Rattle.std.specs.String.{string_bytes};
ghost use Rattle.task.specs.Task.{task_of};
ghost use Rattle.task.specs.TaskParts.{formula_of, lifted_atom_of, object_of, term_of, type_of, union_of};
ghost use Rattle.task.specs.NumberedNames.{type_name};
ghost use Rattle.explain_plans.specs.FormulaText.{atom_text, formula_text, next_name, parts_text, scope_at, scope_after, term_text, union_text, variable_declared, variable_text, with_next};
ghost use Rattle.task.specs.Names.{names_in};
ghost use Rattle.explain_plans.specs.ScopeView.{scope_of};
ghost use Rattle.explain_plans.specs.NamesLeft.{formulas};

use crate::variable_names::{names_after, without_first};
use std::alloc::{AllocError, Global};
use task::{Formula, LiftedAtom, ObjectId, Task, Term, TypeId, TypeUnion};

/// Scope for printing: bound variables print as objects, others by name. The names still to be given to quantified variables come
/// in textual order.
#[derive(Clone, Copy)]
pub(crate) struct Scope<'a> {
    /// The objects of the bound variables, in order.
    pub objects: &'a [ObjectId],
    /// The names of the variables without an object, the outermost quantifier's first.
    pub names: &'a [&'a [u8]],
    /// The names of variables that are not in scope yet, in textual order.
    pub coming: &'a [Vec<u8>],
}

impl<'a> Scope<'a> {
    /// A scope in which all variables have objects. Quantified variables get these names.
    pub(crate) fn of(objects: &'a [ObjectId], coming: &'a [Vec<u8>]) -> Scope<'a>
        ensures { scope_of result ≡ scope_at (map object_of objects.now) (names_in coming.now) }
    {
        Scope {
            objects,
            names: &[],
            coming,
        }
    }

    /// The scope after the formula, whose quantified variables have used up their names.
    fn after(self, formula: &Formula) -> Scope<'a>
        ensures { scope_of result ≡ scope_after (scope_of self.entry) (formula_of formula.now) }
    {
        Scope {
            objects: self.objects,
            names: self.names,
            coming: names_after(formula, self.coming),
        }
    }

    /// The name of the next variable, in lower case like all names of a task.
    fn next_name(self, alloc: Global) -> Result<Vec<u8>, AllocError>
        ensures { IfOk result (λ name. name.items ≡ next_name (scope_of self.entry)) }
    {
        match self.coming.first() {
            Some(name) => name.to_ascii_lowercase(alloc),
            None => {
                let name = numbered_name(alloc, self.names.len() + 1)?;
                Ok(name.into_bytes())
            }
        }
    }

    /// The name of the object bound to the variable with this number, or of the variable itself if it is unbound.
    fn variable_name(self, task: &'a Task, number: usize) -> &'a [u8]
        ensures { codes " " ++ result.now ≡ variable_text (task_of task.now) (scope_of self.entry) number }
    {
        match self.objects.get(number) {
            Some(object) => task.name_of_object(*object),
            None => inner_name(self.names, number.saturating_sub(self.objects.len())),
        }
    }
}

/// Prints formulas of a task in lower-case PDDL.
#[derive(Clone, Copy)]
pub(crate) struct FormulaPrinter<'a> {
    /// Supplies memory.
    pub alloc: Global,
    /// The task, which has the names.
    pub task: &'a Task,
    /// The variables in scope.
    pub scope: Scope<'a>,
}

impl<'a> FormulaPrinter<'a> {
    /// Adds the text of the formula. A quantified variable in it gets the first unused name; when none is left it is printed as
    /// `?1`, `?2` and so on, by its place in scope after the variables that have objects.
    #[cycle(formula)]
    pub(crate) fn add_formula(self, formula: &Formula, text: &mut Vec<u8>) -> Result<(), AllocError>
        ensures { OnOk result (text.new.items ≡ text.old.items ++ formula_text (task_of self.entry.task.now) (scope_of self.entry.scope) (formula_of formula.now)) }
    {
        match formula {
            Formula::Atom(atom) => {
                let name = self.task.name_of_predicate(atom.predicate);
                self.add_atom(name, atom, text)
            }
            Formula::Equal(left, right) => self.add_equality(left, right, text),
            Formula::And(parts) => self.add_parts(b"(and", parts, text),
            Formula::Or(parts) => self.add_parts(b"(or", parts, text),
            Formula::Not(part) => self.add_negation(part, text),
            Formula::Imply(premise, conclusion) => {
                text.extend_from_slice(b"(imply ")?;
                self.add_formula(premise, text)?;
                text.extend_from_slice(b" ")?;
                let scope = self.scope.after(premise);
                FormulaPrinter { scope, ..self }.add_formula(conclusion, text)?;
                text.extend_from_slice(b")")
            }
            Formula::Exists(types, part) => {
                text.extend_from_slice(b"(exists (")?;
                self.add_quantified(types, part, text)
            }
            Formula::Forall(types, part) => {
                text.extend_from_slice(b"(forall (")?;
                self.add_quantified(types, part, text)
            }
        }
    }

    /// Adds an equality.
    fn add_equality(self, left: &Term, right: &Term, text: &mut Vec<u8>) -> Result<(), AllocError>
        ensures { OnOk result (text.new.items ≡ text.old.items ++ (codes "(=" ++ (term_text (task_of self.entry.task.now) (scope_of self.entry.scope) (term_of left.now)
            ++ (term_text (task_of self.entry.task.now) (scope_of self.entry.scope) (term_of right.now) ++ codes ")")))) }
    {
        text.extend_from_slice(b"(=")?;
        self.add_term(left, text)?;
        self.add_term(right, text)?;
        text.extend_from_slice(b")")
    }

    /// Adds a negation.
    #[cycle(formula)]
    fn add_negation(self, part: &Formula, text: &mut Vec<u8>) -> Result<(), AllocError>
        ensures { OnOk result (text.new.items ≡ text.old.items ++ (codes "(not " ++ (formula_text (task_of self.entry.task.now) (scope_of self.entry.scope) (formula_of part.now) ++ codes ")"))) }
    {
        text.extend_from_slice(b"(not ")?;
        self.add_formula(part, text)?;
        text.extend_from_slice(b")")
    }

    /// Adds the keyword of a conjunction or a disjunction, and its parts.
    #[cycle(formula)]
    fn add_parts(
        self,
        opening: &[u8],
        parts: &[Formula],
        text: &mut Vec<u8>,
    ) -> Result<(), AllocError>
        ensures { OnOk result (text.new.items ≡ text.old.items ++ (opening.now ++ (parts_text (task_of self.entry.task.now) (scope_of self.entry.scope) (formulas (map formula_of parts.now)) ++ codes ")"))) }
    {
        text.extend_from_slice(opening)?;
        let mut scope = self.scope;
        for part in parts {
            text.extend_from_slice(b" ")?;
            FormulaPrinter { scope, ..self }.add_formula(part, text)?;
            scope = scope.after(part);
        }
        text.extend_from_slice(b")")
    }

    /// Adds what follows the keyword of a quantifier: its variable, the variable's types, and its part.
    #[cycle(formula)]
    fn add_quantified(
        self,
        types: &TypeUnion,
        part: &Formula,
        text: &mut Vec<u8>,
    ) -> Result<(), AllocError>
        ensures { OnOk result (text.new.items ≡ text.old.items ++ (variable_declared (task_of self.entry.task.now) (scope_of self.entry.scope) (union_of types.now)
            ++ (formula_text (task_of self.entry.task.now) (with_next (scope_of self.entry.scope)) (formula_of part.now) ++ codes ")"))) }
    {
        let name = self.scope.next_name(self.alloc)?;
        let names = with_name(self.alloc, self.scope.names, name.as_slice())?;
        add_declared(self.task, name.as_slice(), types, text)?;
        let inner = FormulaPrinter {
            alloc: self.alloc,
            task: self.task,
            scope: Scope {
                objects: self.scope.objects,
                names: names.as_slice(),
                coming: without_first(self.scope.coming),
            },
        };
        inner.add_formula(part, text)?;
        text.extend_from_slice(b")")
    }

    /// Adds an atom with this name, or a function of terms.
    pub(crate) fn add_atom(
        self,
        name: &[u8],
        atom: &LiftedAtom,
        text: &mut Vec<u8>,
    ) -> Result<(), AllocError>
        ensures { OnOk result (text.new.items ≡ text.old.items ++ atom_text (task_of self.entry.task.now) (scope_of self.entry.scope) name.now (lifted_atom_of atom.now).terms) }
    {
        text.extend_from_slice(b"(")?;
        text.extend_from_slice(name)?;
        for term in &atom.terms {
            self.add_term(term, text)?;
        }
        text.extend_from_slice(b")")
    }

    /// Adds a blank and the term.
    fn add_term(self, term: &Term, text: &mut Vec<u8>) -> Result<(), AllocError>
        ensures { OnOk result (text.new.items ≡ text.old.items ++ term_text (task_of self.entry.task.now) (scope_of self.entry.scope) (term_of term.now)) }
    {
        text.extend_from_slice(b" ")?;
        text.extend_from_slice(self.term_name(term))
    }

    /// The name of an object, of a bound variable's object, or of a variable without one.
    fn term_name(self, term: &Term) -> &'a [u8]
        ensures { codes " " ++ result.now ≡ term_text (task_of self.entry.task.now) (scope_of self.entry.scope) (term_of term.now) }
    {
        match term {
            Term::Object(object) => self.task.name_of_object(*object),
            Term::Variable(variable) => self.scope.variable_name(self.task, variable.0),
        }
    }
}

/// The name of the variable with this number, when no name is left.
fn numbered_name(alloc: Global, number: usize) -> Result<String, AllocError>
    ensures { IfOk result (λ name. string_bytes name ≡ codes "?" ++ decimal number) }
{
    format!(in alloc; "?{number}")
}

/// The names, with one appended.
fn with_name<'a>(
    alloc: Global,
    names: &[&'a [u8]],
    name: &'a [u8],
) -> Result<Vec<&'a [u8]>, AllocError>
    ensures { IfOk result (λ all. all.items ≡ names.now ++ name.entry ∷ []) }
{
    let mut all = Vec::new(alloc);
    all.extend_from_slice(names)?;
    all.push(name)?;
    Ok(all)
}

/// Adds the name of a quantified variable and its types.
fn add_declared(
    task: &Task,
    name: &[u8],
    types: &TypeUnion,
    text: &mut Vec<u8>,
) -> Result<(), AllocError>
    ensures { OnOk result (text.new.items ≡ text.old.items ++ (name.now ++ (codes " - " ++ (union_text (task_of task.now) (union_of types.now) ++ codes ") ")))) }
{
    text.extend_from_slice(name)?;
    text.extend_from_slice(b" - ")?;
    add_types(task, types, text)?;
    text.extend_from_slice(b") ")
}

/// Adds the name of the type, or `(either ..)` if there are several.
fn add_types(task: &Task, types: &TypeUnion, text: &mut Vec<u8>) -> Result<(), AllocError>
    ensures { OnOk result (text.new.items ≡ text.old.items ++ union_text (task_of task.now) (union_of types.now)) }
{
    match types.0.as_slice() {
        [only] => text.extend_from_slice(task.name_of_type(*only)),
        several => add_either(task, several, text),
    }
}

/// Adds `(either ..)` of these types.
fn add_either(task: &Task, types: &[TypeId], text: &mut Vec<u8>) -> Result<(), AllocError>
    ensures { OnOk result (text.new.items ≡ text.old.items
        ++ (codes "(either" ++ (flat_map (λ number. codes " " ++ type_name (task_of task.now) number) (map type_of types.now) ++ codes ")"))) }
{
    text.extend_from_slice(b"(either")?;
    for one in types {
        text.extend_from_slice(b" ")?;
        text.extend_from_slice(task.name_of_type(*one))?;
    }
    text.extend_from_slice(b")")
}

/// The name at this index; empty if there is none.
fn inner_name<'a>(names: &[&'a [u8]], place: usize) -> &'a [u8]
    ensures { result.now ≡ option_map_or (λ (name : Bor (List ℕ)). name.now) (slice_get names.now place) [] }
{
    match names.get(place) {
        Some(name) => name,
        None => b"",
    }
}
