//! Tasks, as texts.
use test_support::Texts;

/// A lamp, and a way that is visible when the lamp is lit. The way is gone and the lamp lit once each. The atoms are: at the first
/// place, the lamp is lit, at the second place, the second place was seen.
pub(crate) const LAMP: Texts = [
    "(define (domain lamp) (:requirements :conditional-effects) (:predicates (link ?x ?y) (at ?x) (lit) (seen ?x))
 (:action light :parameters () :effect (lit))
 (:action go :parameters (?x ?y) :precondition (and (link ?x ?y) (at ?x))
  :effect (and (at ?y) (not (at ?x)) (when (lit) (seen ?y)))))",
    "(define (problem p) (:domain lamp) (:objects a b) (:init (link a b) (at a)) (:goal (and (at b) (seen b))))",
];

const DOOR_DOMAIN: &str =
    "(define (domain door) (:predicates (locked) (key) (open)) (:functions (total-cost) - number)
 (:action unlock :parameters () :precondition (key) :effect (and (not (locked)) (increase (total-cost) 3)))
 (:action lose :parameters () :effect (and (not (key)) (increase (total-cost) 1)))
 (:action push :parameters () :precondition (not (locked)) :effect (and (open) (increase (total-cost) 2))))";

/// A locked door is unlocked for 3 and then pushed for 2. The atoms are: it is locked, there is a key, it is open.
pub(crate) const DOOR: Texts = [
    DOOR_DOMAIN,
    "(define (problem d) (:domain door) (:init (locked) (key)) (:goal (open)) (:metric minimize (total-cost)))",
];

/// There is no key, so the door stays locked. The atoms are: it is locked, there is a key, it is open.
pub(crate) const NO_KEY: Texts = [
    DOOR_DOMAIN,
    "(define (problem d) (:domain door) (:init (locked)) (:goal (open)) (:metric minimize (total-cost)))",
];
