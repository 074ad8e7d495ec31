//! Tasks without interchangeable objects, so that in a certificate of `solve` each state represents only itself: facts that no
//! action uses distinguish the objects.
use test_support::Texts;

/// Two of three switches are turned at a time; one must be on in the end.
pub(crate) const UNLIKE_PAIRS: Texts = [
    "(define (domain pairs) (:predicates (on ?s) (before ?s ?t))
 (:action toggle :parameters (?x ?y) :precondition (not (= ?x ?y))
  :effect (and (when (on ?x) (not (on ?x))) (when (not (on ?x)) (on ?x))
   (when (on ?y) (not (on ?y))) (when (not (on ?y)) (on ?y)))))",
    "(define (problem p) (:domain pairs) (:objects s1 s2 s3) (:init (before s1 s2) (before s2 s3))
 (:goal (exists (?s) (and (on ?s) (forall (?t) (or (= ?s ?t) (not (on ?t))))))))",
];

/// Sixteen lamps are lit one by one.
pub(crate) const UNLIKE_LAMPS: Texts = [
    "(define (domain lamps) (:predicates (on ?s) (before ?s ?t))
 (:action flip :parameters (?s) :precondition (not (on ?s)) :effect (on ?s)))",
    "(define (problem l) (:domain lamps) (:objects a b c d e f g h i j k l m n o p)
 (:init (before a b) (before b c) (before c d) (before d e) (before e f) (before f g) (before g h) (before h i)
  (before i j) (before j k) (before k l) (before l m) (before m n) (before n o) (before o p))
 (:goal (forall (?s) (on ?s))))",
];

/// Four balls are picked up and dropped, two of them carried at a time: three trips between the rooms.
pub(crate) const FOUR_UNLIKE_BALLS: Texts = [
    "(define (domain gripper)
 (:predicates (room ?r) (ball ?b) (gripper ?g) (at-robot ?r) (at ?b ?r) (free ?g) (carry ?b ?g) (before ?x ?y))
 (:action move :parameters (?from ?to)
  :precondition (and (room ?from) (room ?to) (at-robot ?from))
  :effect (and (at-robot ?to) (not (at-robot ?from))))
 (:action pick :parameters (?b ?r ?g)
  :precondition (and (ball ?b) (room ?r) (gripper ?g) (at ?b ?r) (at-robot ?r) (free ?g))
  :effect (and (carry ?b ?g) (not (at ?b ?r)) (not (free ?g))))
 (:action drop :parameters (?b ?r ?g)
  :precondition (and (ball ?b) (room ?r) (gripper ?g) (carry ?b ?g) (at-robot ?r))
  :effect (and (at ?b ?r) (free ?g) (not (carry ?b ?g)))))",
    "(define (problem four) (:domain gripper) (:objects a b b1 b2 b3 b4 left right)
 (:init (room a) (room b) (ball b1) (ball b2) (ball b3) (ball b4) (gripper left) (gripper right)
  (before b1 b2) (before b2 b3) (before b3 b4) (before left right)
  (at-robot a) (free left) (free right) (at b1 a) (at b2 a) (at b3 a) (at b4 a))
 (:goal (and (at b1 b) (at b2 b) (at b3 b) (at b4 b))))",
];
