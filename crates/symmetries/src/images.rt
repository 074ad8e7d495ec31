//! Images of atoms, and the test whether a formula is the image of another.
ghost use Rattle.std.specs.Prelude.{◌≡◌, map, nat_eq};
ghost use Rattle.std.specs.Cmp.Lexicographic.{pointwise};
ghost use Rattle.std.specs.Option.{option_map};
ghost use Rattle.task.specs.TaskParts.{atom_of, formula_of, lifted_atom_of, term_of, union_of};
ghost use Rattle.symmetries.specs.Exchange.{image};
ghost use Rattle.symmetries.specs.Lent.{slice_formulas};
ghost use Rattle.symmetries.specs.Lent as defined;
ghost use Rattle.model.specs.Task as model_task;
ghost use Rattle.symmetries_definitions.specs.Exchanges as exchanges;
ghost use Rattle.symmetries_definitions.specs.Exchanges.{image_of_formula, image_of_lifted, image_of_term};
ghost use Rattle.symmetries_definitions.specs.SameFormula.{is_same_formula, is_same_lifted, is_same_term};

use crate::exchange::Exchange;
use arrayvec::ArrayVec;
use task::{Atom, Formula, LiftedAtom, Term, TypeUnion};

/// The image of the atom.
pub(crate) fn image_of_atom(exchange: &Exchange, atom: &Atom) -> Atom
    ensures { atom_of result ≡ exchanges.image_of_atom (image exchange.now) (atom_of atom.now) }
{
    let mut objects = ArrayVec::new();
    for object in atom.objects.as_slice() {
        objects.push(exchange.image(*object));
    }
    Atom {
        predicate: atom.predicate,
        objects,
    }
}

/// Whether the second formula is the image of the first, part by part.
#[cycle(is_image)]
pub(crate) fn is_image(exchange: &Exchange, formula: &Formula, other: &Formula) -> bool
    ensures { result ≡ is_same_formula (image_of_formula (image exchange.now) (formula_of formula.now)) (formula_of other.now) }
{
    match formula {
        Formula::Atom(atom) => is_image_of_atom(exchange, atom, other),
        Formula::Equal(left, right) => is_image_of_equal(exchange, left, right, other),
        Formula::And(parts) => match and_parts(other) {
            Some(others) => are_images(exchange, parts, others),
            None => false,
        },
        Formula::Or(parts) => match or_parts(other) {
            Some(others) => are_images(exchange, parts, others),
            None => false,
        },
        Formula::Not(part) => match other {
            Formula::Not(image) => is_image(exchange, part, image),
            _ => false,
        },
        Formula::Imply(premise, conclusion) => match other {
            Formula::Imply(if_so, then) => {
                is_image(exchange, premise, if_so) && is_image(exchange, conclusion, then)
            }
            _ => false,
        },
        Formula::Exists(types, part) => match other {
            Formula::Exists(others, image) => {
                are_same(types, others) && is_image(exchange, part, image)
            }
            _ => false,
        },
        Formula::Forall(types, part) => match other {
            Formula::Forall(others, image) => {
                are_same(types, others) && is_image(exchange, part, image)
            }
            _ => false,
        },
    }
}

/// Whether the lists have the same length, and each formula is the image of the one at its index.
#[cycle(is_image)]
fn are_images(exchange: &Exchange, formulas: &[Formula], others: &[Formula]) -> bool
    ensures { result ≡ pointwise (λ f g. is_same_formula (image_of_formula (image exchange.now) f) g) (map formula_of formulas.now) (map formula_of others.now) }
{
    if formulas.len() != others.len() {
        return false;
    }
    for place in 0..formulas.len() {
        if !is_image(exchange, &formulas[place], &others[place]) {
            return false;
        }
    }
    true
}

/// The parts of the formula, if it is an `and`.
fn and_parts(formula: &Formula) -> Option<&[Formula]>
    ensures { option_map slice_formulas result ≡ defined.and_parts (formula_of formula.now) }
{
    match formula {
        Formula::And(parts) => Some(parts.as_slice()),
        _ => None,
    }
}

/// The parts of the formula, if it is an `or`.
fn or_parts(formula: &Formula) -> Option<&[Formula]>
    ensures { option_map slice_formulas result ≡ defined.or_parts (formula_of formula.now) }
{
    match formula {
        Formula::Or(parts) => Some(parts.as_slice()),
        _ => None,
    }
}

/// Whether the formula is the atom's image.
fn is_image_of_atom(exchange: &Exchange, atom: &LiftedAtom, other: &Formula) -> bool
    ensures { result ≡ is_same_formula (image_of_formula (image exchange.now) (model_task.atom (lifted_atom_of atom.now))) (formula_of other.now) }
{
    match other {
        Formula::Atom(image) => is_image_of_lifted(exchange, atom, image),
        _ => false,
    }
}

/// Whether the formula is the image of the equality of these terms.
fn is_image_of_equal(exchange: &Exchange, left: &Term, right: &Term, other: &Formula) -> bool
    ensures { result ≡ is_same_formula (image_of_formula (image exchange.now) (model_task.equal (term_of left.now) (term_of right.now))) (formula_of other.now) }
{
    match other {
        Formula::Equal(first, second) => {
            is_image_of_term(exchange, left, first) && is_image_of_term(exchange, right, second)
        }
        _ => false,
    }
}

/// Whether the second atom of terms is the image of the first.
fn is_image_of_lifted(exchange: &Exchange, atom: &LiftedAtom, other: &LiftedAtom) -> bool
    ensures { result ≡ is_same_lifted (image_of_lifted (image exchange.now) (lifted_atom_of atom.now)) (lifted_atom_of other.now) }
{
    atom.predicate.0 == other.predicate.0
        && are_images_of_terms(exchange, &atom.terms, &other.terms)
}

/// Whether the lists have the same length, and each term is the image of the one at its index.
fn are_images_of_terms(exchange: &Exchange, terms: &[Term], others: &[Term]) -> bool
    ensures { result ≡ pointwise is_same_term (map (image_of_term (image exchange.now)) (map term_of terms.now)) (map term_of others.now) }
{
    if terms.len() != others.len() {
        return false;
    }
    for place in 0..terms.len() {
        if !is_image_of_term(exchange, &terms[place], &others[place]) {
            return false;
        }
    }
    true
}

/// Whether the second term is the image of the first.
fn is_image_of_term(exchange: &Exchange, term: &Term, other: &Term) -> bool
    ensures { result ≡ is_same_term (image_of_term (image exchange.now) (term_of term.now)) (term_of other.now) }
{
    match term {
        Term::Variable(variable) => match other {
            Term::Variable(same) => variable.0 == same.0,
            Term::Object(_) => false,
        },
        Term::Object(object) => match other {
            Term::Object(image) => exchange.image(*object).0 == image.0,
            Term::Variable(_) => false,
        },
    }
}

/// Whether both are the same types in the same order.
fn are_same(types: &TypeUnion, others: &TypeUnion) -> bool
    ensures { result ≡ pointwise nat_eq (union_of types.now) (union_of others.now) }
{
    types.0 == others.0
}
