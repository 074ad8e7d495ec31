//! Atoms that are asked for together with their negations, and atoms that are both added and deleted.
ghost use Rattle.std.specs.Prelude.{◌≡◌, map};
ghost use Rattle.std.specs.Cmp.Lexicographic.{pointwise};
ghost use Rattle.task.specs.TaskParts.{effect_literal_of, effect_of, formula_of, lifted_atom_of, term_of};
ghost use Rattle.explain_tasks.specs.Conjuncts as defined;

use task::{Effect, EffectLiteral, Formula, LiftedAtom, Term};

/// Whether an atom and its negation are conjuncts of the formula.
pub(crate) fn is_contradictory(formula: &Formula) -> bool
    ensures { result ≡ defined.is_contradictory (formula_of formula.now) }
{
    has_denied(formula, formula)
}

/// Whether some conjunct of the formula is an atom whose negation is a conjunct of the whole.
fn has_denied(formula: &Formula, whole: &Formula) -> bool
    ensures { result ≡ defined.has_conjunct (defined.is_denied (formula_of whole.now)) (formula_of formula.now) }
{
    match formula {
        Formula::Atom(atom) => denies(whole, atom),
        Formula::And(parts) => {
            for part in parts {
                if has_denied(part, whole) {
                    return true;
                }
            }
            false
        }
        _ => false,
    }
}

/// Whether the negation of the atom is a conjunct of the formula.
fn denies(formula: &Formula, atom: &LiftedAtom) -> bool
    ensures { result ≡ defined.has_conjunct (defined.is_negation_of (lifted_atom_of atom.now)) (formula_of formula.now) }
{
    match formula {
        Formula::Not(part) => is_atom(part, atom),
        Formula::And(parts) => {
            for part in parts {
                if denies(part, atom) {
                    return true;
                }
            }
            false
        }
        _ => false,
    }
}

/// Whether the formula is this atom.
fn is_atom(formula: &Formula, atom: &LiftedAtom) -> bool
    ensures { result ≡ defined.is_atom (lifted_atom_of atom.now) (formula_of formula.now) }
{
    match formula {
        Formula::Atom(other) => is_same_atom(atom, other),
        _ => false,
    }
}

/// Whether the effect adds and deletes an atom under no condition.
pub(crate) fn is_adding_what_it_deletes(effect: &Effect) -> bool
    ensures { result ≡ defined.is_adding_what_it_deletes (effect_of effect.now) }
{
    has_undone(effect, effect)
}

/// Whether the effect deletes an atom under no condition that the whole adds under none.
fn has_undone(effect: &Effect, whole: &Effect) -> bool
    ensures { result ≡ defined.has_sure_literal (defined.is_undone (effect_of whole.now)) (effect_of effect.now) }
{
    match effect {
        Effect::Literal(literal) => is_undone(literal, whole),
        Effect::And(parts) => {
            for part in parts {
                if has_undone(part, whole) {
                    return true;
                }
            }
            false
        }
        Effect::Forall(_, _) => false,
        Effect::When(_, _) => false,
    }
}

/// Whether the literal deletes an atom that the effect adds under no condition.
fn is_undone(literal: &EffectLiteral, whole: &Effect) -> bool
    ensures { result ≡ defined.is_undone (effect_of whole.now) (effect_literal_of literal.now) }
{
    match literal {
        EffectLiteral::Add(_) => false,
        EffectLiteral::Delete(atom) => adds(whole, atom),
    }
}

/// Whether the effect adds the atom under no condition.
fn adds(effect: &Effect, atom: &LiftedAtom) -> bool
    ensures { result ≡ defined.has_sure_literal (defined.is_addition_of (lifted_atom_of atom.now)) (effect_of effect.now) }
{
    match effect {
        Effect::Literal(literal) => is_addition_of(literal, atom),
        Effect::And(parts) => {
            for part in parts {
                if adds(part, atom) {
                    return true;
                }
            }
            false
        }
        Effect::Forall(_, _) => false,
        Effect::When(_, _) => false,
    }
}

/// Whether the literal adds this atom.
fn is_addition_of(literal: &EffectLiteral, atom: &LiftedAtom) -> bool
    ensures { result ≡ defined.is_addition_of (lifted_atom_of atom.now) (effect_literal_of literal.now) }
{
    match literal {
        EffectLiteral::Add(other) => is_same_atom(atom, other),
        EffectLiteral::Delete(_) => false,
    }
}

/// Whether both are the same predicate of the same terms.
fn is_same_atom(one: &LiftedAtom, other: &LiftedAtom) -> bool
    ensures { result ≡ defined.is_same_atom (lifted_atom_of one.now) (lifted_atom_of other.now) }
{
    one.predicate.0 == other.predicate.0 && are_same_terms(&one.terms, &other.terms)
}

/// Whether both are the same terms in the same order.
fn are_same_terms(some: &[Term], others: &[Term]) -> bool
    ensures { result ≡ pointwise defined.is_same_term (map term_of some.now) (map term_of others.now) }
{
    match some.split_first() {
        Some((first, rest)) => match others.split_first() {
            Some((second, last)) => is_same_term(first, second) && are_same_terms(rest, last),
            None => false,
        },
        None => match others.split_first() {
            Some(_) => false,
            None => true,
        },
    }
}

/// Whether both are the same variable or the same object.
fn is_same_term(one: &Term, other: &Term) -> bool
    ensures { result ≡ defined.is_same_term (term_of one.now) (term_of other.now) }
{
    match one {
        Term::Variable(variable) => match other {
            Term::Variable(second) => variable.0 == second.0,
            Term::Object(_) => false,
        },
        Term::Object(object) => match other {
            Term::Variable(_) => false,
            Term::Object(second) => object.0 == second.0,
        },
    }
}
