//! Tasks, as texts.

/// A domain's and a problem's text.
pub type Texts = [&'static str; 2];

const GO_DOMAIN: &str = "(define (domain go) (:predicates (p) (q))
 (:action go :parameters () :effect (and (not (p)) (p) (q))))";

/// The only action makes the goal hold.
#[rattlefmt::skip]
pub const GO: Texts = [GO_DOMAIN, "(define (problem g) (:domain go) (:init (p)) (:goal (and (p) (q))))"];

/// The goal holds initially.
#[rattlefmt::skip]
pub const DONE: Texts = [GO_DOMAIN, "(define (problem g) (:domain go) (:init (p)) (:goal (p)))"];

const TIE_DOMAIN: &str = "(define (domain tie) (:predicates (link ?x ?y) (tied))
 (:action tie :parameters (?x ?y) :precondition (link ?x ?y) :effect (tied)))";

/// One object, which is linked to itself.
pub const TIE: Texts = [
    TIE_DOMAIN,
    "(define (problem t) (:domain tie) (:objects a) (:init (link a a)) (:goal (tied)))",
];

/// There is no plan.
pub const UNTIED: Texts = [
    TIE_DOMAIN,
    "(define (problem t) (:domain tie) (:objects a) (:init) (:goal (tied)))",
];

const PATH_DOMAIN: &str = "(define (domain path) (:predicates (at ?x) (road ?x ?y))
 (:action go :parameters (?x ?y) :precondition (and (at ?x) (road ?x ?y))
  :effect (and (not (at ?x)) (at ?y))))";

/// Three places in a row; the goal is to reach the last.
pub const PATH: Texts = [
    PATH_DOMAIN,
    "(define (problem p) (:domain path) (:objects a b c)
 (:init (at a) (road a b) (road b c)) (:goal (at c)))",
];

/// Two places that are reached from the first one.
pub const FORK: Texts = [
    PATH_DOMAIN,
    "(define (problem f) (:domain path) (:objects a b c)
 (:init (at a) (road a b) (road a c)) (:goal (at c)))",
];

/// Three places; the last is reached by two hops of cost 3 each, or by a leap of cost 10.
pub const HOP: Texts = [
    "(define (domain hop) (:predicates (at ?x) (road ?x ?y) (far ?x ?y)) (:functions (total-cost) - number)
 (:action hop :parameters (?x ?y) :precondition (and (at ?x) (road ?x ?y))
  :effect (and (not (at ?x)) (at ?y) (increase (total-cost) 3)))
 (:action leap :parameters (?x ?y) :precondition (and (at ?x) (far ?x ?y))
  :effect (and (not (at ?x)) (at ?y) (increase (total-cost) 10))))",
    "(define (problem h) (:domain hop) (:objects a b c) (:init (at a) (road a b) (road b c) (far a c))
 (:goal (at c)) (:metric minimize (total-cost)))",
];

/// Two of three switches are turned at a time; one must be on in the end.
pub const PAIRS: Texts = [
    "(define (domain pairs) (:predicates (on ?s))
 (:action toggle :parameters (?x ?y) :precondition (not (= ?x ?y))
  :effect (and (when (on ?x) (not (on ?x))) (when (not (on ?x)) (on ?x))
   (when (on ?y) (not (on ?y))) (when (not (on ?y)) (on ?y)))))",
    "(define (problem p) (:domain pairs) (:objects s1 s2 s3) (:init)
 (:goal (exists (?s) (and (on ?s) (forall (?t) (or (= ?s ?t) (not (on ?t))))))))",
];

/// Two towers of two blocks, with `b` blocking `c`: `b` is moved twice, `c` and `a` once.
pub const FOUR_BLOCKS: Texts = [
    "(define (domain blocks)
 (:predicates (on ?x ?y) (on-table ?x) (clear ?x) (holding ?x) (hand-empty))
 (:action pick-up :parameters (?x) :precondition (and (clear ?x) (on-table ?x) (hand-empty))
  :effect (and (holding ?x) (not (clear ?x)) (not (on-table ?x)) (not (hand-empty))))
 (:action put-down :parameters (?x) :precondition (holding ?x)
  :effect (and (clear ?x) (on-table ?x) (hand-empty) (not (holding ?x))))
 (:action stack :parameters (?x ?y) :precondition (and (holding ?x) (clear ?y))
  :effect (and (on ?x ?y) (clear ?x) (hand-empty) (not (holding ?x)) (not (clear ?y))))
 (:action unstack :parameters (?x ?y) :precondition (and (on ?x ?y) (clear ?x) (hand-empty))
  :effect (and (holding ?x) (clear ?y) (not (on ?x ?y)) (not (clear ?x)) (not (hand-empty)))))",
    "(define (problem four) (:domain blocks) (:objects a b c d)
 (:init (on-table a) (on c a) (clear c) (on-table d) (on b d) (clear b) (hand-empty))
 (:goal (and (on a b) (on b c) (on c d))))",
];

/// Conditions are evaluated in the state before the step.
pub const SNAP: Texts = [
    "(define (domain snap) (:predicates (lit) (out))
 (:action snap :parameters () :effect (and (not (lit)) (when (lit) (out)))))",
    "(define (problem s) (:domain snap) (:init (lit)) (:goal (out)))",
];

const SPIN_DOMAIN: &str =
    "(define (domain spin) (:predicates (x) (y) (paid)) (:functions (total-cost) - number)
 (:action spin :parameters () :precondition (x) :effect (and (not (x)) (y)))
 (:action back :parameters () :precondition (y) :effect (and (not (y)) (x)))
 (:action pay :parameters () :precondition (y) :effect (and (paid) (increase (total-cost) 4))))";

/// Two steps cost nothing and form a cycle.
#[rattlefmt::skip]
pub const SPIN: Texts = [SPIN_DOMAIN, "(define (problem s) (:domain spin) (:init (x)) (:goal (paid)) (:metric minimize (total-cost)))"];

/// Nothing is true initially, and no step is applicable.
#[rattlefmt::skip]
pub const STILL: Texts = [SPIN_DOMAIN, "(define (problem s) (:domain spin) (:init) (:goal (paid)) (:metric minimize (total-cost)))"];

const BOX_DOMAIN: &str = "(define (domain box) (:types box) (:predicates (open ?b - box)))";

/// There are no boxes and no atoms: packed states have no words.
#[rattlefmt::skip]
pub const EACH_BOX: Texts = [BOX_DOMAIN, "(define (problem b) (:domain box) (:init) (:goal (forall (?b - box) (open ?b))))"];

/// The same, but one box must be open.
#[rattlefmt::skip]
pub const SOME_BOX: Texts = [BOX_DOMAIN, "(define (problem b) (:domain box) (:init) (:goal (exists (?b - box) (open ?b))))"];

/// The cost of an instance is a function of its objects.
pub const TRIP: Texts = [
    "(define (domain trip) (:predicates (at ?p) (road ?x ?y)) (:functions (len ?x ?y) - number (total-cost) - number)
 (:action go :parameters (?x ?y) :precondition (and (at ?x) (road ?x ?y))
  :effect (and (not (at ?x)) (at ?y) (increase (total-cost) (len ?x ?y)))))",
    "(define (problem t) (:domain trip) (:objects a b c)
 (:init (at a) (road a b) (road b c) (road a c) (= (len a b) 2) (= (len b c) 3) (= (len a c) 9))
 (:goal (at c)) (:metric minimize (total-cost)))",
];

/// Tiles on a board: a tile next to the gap slides into it. Cells are not tiles, but no condition says so.
const SLIDE_DOMAIN: &str = "(define (domain slide) (:predicates (at ?t ?c) (gap ?c) (beside ?c ?d))
 (:action slide :parameters (?t ?from ?to) :precondition (and (at ?t ?from) (gap ?to) (beside ?from ?to))
  :effect (and (not (at ?t ?from)) (at ?t ?to) (not (gap ?to)) (gap ?from))))";

/// Five tiles on two rows of three cells, as far from the goal as possible: 21 steps. There are 360 reachable states, and 72
/// atoms (tiles in cells and cells in cells), which take two words.
pub const SLIDE: Texts = [
    SLIDE_DOMAIN,
    "(define (problem far) (:domain slide) (:objects c1 c2 c3 c4 c5 c6 t1 t2 t3 t4 t5)
 (:init (beside c1 c2) (beside c2 c1) (beside c2 c3) (beside c3 c2) (beside c4 c5) (beside c5 c4) (beside c5 c6)
  (beside c6 c5) (beside c1 c4) (beside c4 c1) (beside c2 c5) (beside c5 c2) (beside c3 c6) (beside c6 c3)
  (at t4 c1) (at t5 c2) (gap c3) (at t1 c4) (at t2 c5) (at t3 c6))
 (:goal (and (at t1 c1) (at t2 c2) (at t3 c3) (at t4 c4) (at t5 c5) (gap c6))))",
];

/// Two tiles should be swapped, which is impossible.
pub const SWAP: Texts = [
    SLIDE_DOMAIN,
    "(define (problem swap) (:domain slide) (:objects c1 c2 c3 c4 c5 c6 t1 t2 t3 t4 t5)
 (:init (beside c1 c2) (beside c2 c1) (beside c2 c3) (beside c3 c2) (beside c4 c5) (beside c5 c4) (beside c5 c6)
  (beside c6 c5) (beside c1 c4) (beside c4 c1) (beside c2 c5) (beside c5 c2) (beside c3 c6) (beside c6 c3)
  (at t2 c1) (at t1 c2) (at t3 c3) (at t4 c4) (at t5 c5) (gap c6))
 (:goal (and (at t1 c1) (at t2 c2) (at t3 c3) (at t4 c4) (at t5 c5) (gap c6))))",
];
