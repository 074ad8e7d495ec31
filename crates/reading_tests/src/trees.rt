//! Tests of the faults for words that end too early. The program never gets there, since it first reports the open list.
use faults::{Code, Fault, Span, TextRefusal};
use pddl_tree::{domain, problem};
use std::test::Fail;
use tokens::scan;

const GO: &[u8] =
    b"(define (domain go) (:predicates (p) (q ?x)) (:functions (Len ?c) (total-cost) - number)
 (:action go :parameters (?a) :effect (and (not (p)) (increase (total-cost) 12) (forall (?b) (q ?a))
 (when (p) (and (not (p)) (Q b))) (increase (total-cost) (len ?a)))))";

const TRIP: &[u8] =
    b"(define (problem trip) (:domain go) (:objects a B) (:metric minimize (total-cost))
 (:init (p) (= (total-cost) 07) (q a) (= (LEN B) 3)) (:goal (and (p) (or) (not (q B))
 (imply (p) (q a)) (= ?x B) (exists (?x ?y - (either place truck) ?z) (q ?y)) (forall () (p)))))";

/// The fault of the words before this index, which are incomplete.
fn refused_at(end: usize) -> Option<Fault> {
    Some(Fault::At(TextRefusal {
        code: Code::BadForm,
        span: Span { start: end, end },
    }))
}

#[test]
fn each_beginning_of_a_domain_is_refused_at_its_end(rt: HostRuntime) -> Result<(), Fail> {
    let words = scan(rt.alloc(), GO)?;
    for count in 1..words.len() {
        let fault = domain(rt.alloc(), &words.as_slice()[..count]).err();
        assert_eq!(rt; fault, refused_at(words[count - 1].span().end));
    }
    Ok(())
}

#[test]
fn each_beginning_of_a_problem_is_refused_at_its_end(rt: HostRuntime) -> Result<(), Fail> {
    let words = scan(rt.alloc(), TRIP)?;
    for count in 1..words.len() {
        let fault = problem(rt.alloc(), &words.as_slice()[..count]).err();
        assert_eq!(rt; fault, refused_at(words[count - 1].span().end));
    }
    Ok(())
}
