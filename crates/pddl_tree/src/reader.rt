//! From words to trees.
//!
//! A file is read by a deterministic pushdown automaton whose stack is the call stack: the next word alone decides each step, and
//! the reader never backtracks. It has the viable-prefix property: the words read so far are a prefix of some file, so the
//! refused word is the first that no file has after them. The automaton is crates/model/specs/GrammarMachine.antt, and the
//! property is proved in crates/model/proofs/GrammarBegins.antt. It differs from the textbook automaton in three ways. A state is
//! a function from the next tree to the state after it, so that a run ends in the file's tree instead of a mere acceptance. The
//! state records the sections and parts read so far, since each occurs at most once and in any order. And a refusing run ends
//! with a number that gives the reason.
ghost use Rattle.std.specs.Prelude.{◌≡◌, List, map, IfOk, IfErr, IsErrAnd, IfSome, IsSome, None, []};
ghost use Rattle.tokens.specs.Reported.{reported_by};
ghost use Rattle.tokens.specs.Word.{word_of};
ghost use Rattle.model.specs.Fault as model;
ghost use Rattle.model.specs.Words as text;
ghost use Rattle.model.specs.Trees as tree;
ghost use Rattle.model.specs.Trees.{domain_file, problem_file};
ghost use Rattle.model.specs.GrammarWords.{tokens_of};
ghost use Rattle.model.specs.Grammar.{EachIsOneDomain, EachIsOneProblem, IsDomain, IsProblem, IsFile, tree_from};
ghost use Rattle.model.specs.Refusals.{IsWhole, IsRefused, span_of_place};
ghost use Rattle.model.specs.GrammarExamples.{AreAsReported};
ghost use Rattle.pddl_tree.specs.Terms.{name_of};
ghost use Rattle.pddl_tree.specs.Token.{from};
ghost use Rattle.pddl_tree.specs.Refusal.{reported, fault_of};
ghost use Rattle.pddl_tree.specs.Reading.{phrase, Stops};
ghost use Rattle.pddl_tree.specs.Sections.{contents_of, sections_on};
ghost use Rattle.pddl_tree.specs.Head.{HasHead, HasNoHead, ReadsHead, ReadsAll, no_more};
ghost use Rattle.pddl_tree.specs.Tree.{file_of, domain_of, problem_of};

use crate::look::{close, define, kind, name, open};
use crate::refusals::{Place, refusal};
use crate::sections::{Contents, sections};
use crate::terms::Name;
use crate::tree::{Domain, Problem, TaskFile};
use crate::word_fault::{WordFault, WordRefusal};
use faults::{Fault, Refused, Span, TextRefusal};
use std::alloc::Global;
use tokens::Word;

/// Parses the words of a domain file: all words of its text.
///
/// A refusal reports the first word such that the words up to and including it begin no domain, with its span. If the words end
/// too early, it is `BadForm` at the end of the last word, or at `0..0` if there is no word. The codes:
///
/// - `RepeatedSection`: the keyword of a section, or of a part of an action, that occurs for the second time in its list.
/// - `NumberTooLarge`: a number over 2,147,483,647 where a number may occur.
/// - `LeftOut`: the keyword of an unsupported section or part, where one may occur; the name of an unsupported construct, such as
///   `preference`; the `(` of an `(either ..)` as the type of a name; `when` or `forall` at the head of a list under a `when`; a
///   function other than `total-cost` that is increased or is the metric; or `maximize`.
/// - `UnknownSection`: any other keyword where the keyword of a section or part is required.
/// - `UnknownRequirement`: an unknown keyword in `:requirements`.
/// - `MissingSection`: the `)` of the file without `:predicates`, or of an action without `:parameters`.
/// - `BadForm`: any other word.
///
/// `NoMemory` says nothing about the words. The head, `( define ( domain NAME )`, is read before anything is allocated.
///
/// # Examples
/// The words of `(define (domain d) (:predicates (at ?x)))` are a domain of one predicate and no action:
///
/// ```
/// let words = scan(alloc, b"(define (domain d) (:predicates (at ?x)))")?;
/// let tree = domain(alloc, &words)?;
/// assert_eq!(rt; tree.name.text, b"d".as_slice());
/// assert_eq!(rt; tree.predicates.len(), 1);
/// ```
///
/// `(define (domain d))` is refused by `MissingSection` at its last `)`, `18..19`, and `(define (domain))` by `BadForm`
/// at `15..16`.
pub fn domain<'a>(alloc: Global, words: &[Word<'a>]) -> Result<Domain<'a>, Fault>
    ensures tree { IfOk result (λ tree. IsDomain (tokens_of (map word_of words.now)) (domain_of tree)) }
    ensures refused { IfErr result (λ fault. IfSome (reported_by fault) (IsRefused domain_file (map word_of words.now))) }

    // Words that are a domain are never refused: the only error is running out of memory.
    ensures taken { IsWhole domain_file (tokens_of (map word_of words.now)) → IfErr result (λ fault. reported_by fault ≡ None) }

    // Words that stop within the head are refused for that, and never for running out of memory.
    ensures head { HasNoHead domain_file (tokens_of (map word_of words.now)) → IsErrAnd result (λ fault. IsSome (reported_by fault)) }
{
    let (name, contents) = file(alloc, words, TaskFile::Domain)?;
    Ok(Domain {
        name,
        types: contents.types,
        constants: contents.constants,
        predicates: contents.predicates,
        functions: contents.functions,
        actions: contents.actions,
    })
}

/// Parses the words of a problem file: all words of its text.
///
/// The refusals are those of [`domain`]; `MissingSection` is reported at the `)` of a file without `:domain`, `:init` or `:goal`.
///
/// # Examples
/// The words of `(define (problem p) (:domain d) (:init (at a)) (:goal (at a)))` are a problem of one fact:
///
/// ```
/// let words = scan(alloc, b"(define (problem p) (:domain d) (:init (at a)) (:goal (at a)))")?;
/// let tree = problem(alloc, &words)?;
/// assert_eq!(rt; tree.init.len(), 1);
/// ```
///
/// `(define (problem p) (:domain d) (:domain d))` is refused by `RepeatedSection` at the second `:domain`, `33..40`.
pub fn problem<'a>(alloc: Global, words: &[Word<'a>]) -> Result<Problem<'a>, Fault>
    ensures tree { IfOk result (λ tree. IsProblem (tokens_of (map word_of words.now)) (problem_of tree)) }
    ensures refused { IfErr result (λ fault. IfSome (reported_by fault) (IsRefused problem_file (map word_of words.now))) }

    // Words that are a problem are never refused: the only error is running out of memory.
    ensures taken { IsWhole problem_file (tokens_of (map word_of words.now)) → IfErr result (λ fault. reported_by fault ≡ None) }

    // Words that stop within the head are refused for that, and never for running out of memory.
    ensures head { HasNoHead problem_file (tokens_of (map word_of words.now)) → IsErrAnd result (λ fault. IsSome (reported_by fault)) }
{
    let (name, contents) = file(alloc, words, TaskFile::Problem)?;
    Ok(Problem {
        name,
        domain: contents.domain,
        objects: contents.objects,
        init: contents.init,
        goal: contents.goal,
        metric: contents.metric,
    })
}

/// A law of the grammar: a list of words is at most one domain tree, and at most one problem tree.
pub fn one_reading()
    ensures domain { EachIsOneDomain }
    ensures problem { EachIsOneProblem }
{}

/// A law of refusals: at most one fault is reported for words, and none for a whole file.
pub fn one_fault()
    ensures one { (file : tree.TaskFile) (words : List text.Word) (fault other : model.Fault)
        → IsRefused file words fault → IsRefused file words other → fault ≡ other }
    ensures none { (file : tree.TaskFile) (words : List text.Word) (fault : model.Fault)
        → IsWhole file (tokens_of words) → IsRefused file words fault → ⊥ }
{}

/// The worked examples of the definitions: small files with their tree or with the fault reported for them.
pub fn examples_are_as_reported()
    ensures { AreAsReported }
{}

/// The fault that a refusal is, in bytes of the file.
fn fault(words: &[Word], refusal: WordFault) -> Fault
    ensures { reported_by result ≡ fault_of (map word_of words.now) (reported refusal) }
{
    match refusal {
        Refused::At(WordRefusal { code, at }) => Refused::At(TextRefusal {
            code,
            span: span_at(words, at),
        }),
        Refused::NoMemory => Refused::NoMemory,
    }
}

/// The span of the word at an index; at end of input, the empty span at the end of the last word, or at 0.
fn span_at(words: &[Word], at: usize) -> Span
    ensures start { result.start ≡ (span_of_place (map word_of words.now) at).start }
    ensures end { result.end ≡ (span_of_place (map word_of words.now) at).end }
{
    if at < words.len() {
        return words[at].span();
    }
    let end = match words.last() {
        Some(word) => word.span().end,
        None => 0,
    };
    Span { start: end, end }
}

/// Parses the words as a whole file of this kind: its name, and the contents of its sections.
fn file<'a>(
    alloc: Global,
    words: &[Word<'a>],
    file: TaskFile,
) -> Result<(Name<'a>, Contents<'a>), Fault>
    ensures read { IfOk result (λ r. IsFile (file_of file) (tokens_of (map word_of words.now)) (tree_from (file_of file) (name_of r.0) (contents_of r.1))) }
    ensures refused { IfErr result (λ fault. IfSome (reported_by fault) (IsRefused (file_of file) (map word_of words.now))) }
    ensures taken { IsWhole (file_of file) (tokens_of (map word_of words.now)) → IfErr result (λ fault. reported_by fault ≡ None) }
    ensures head { HasNoHead (file_of file) (tokens_of (map word_of words.now)) → IsErrAnd result (λ fault. IsSome (reported_by fault)) }
{
    let (name, at) = match head(words, 0, file) {
        Ok(head) => head,
        Err(refusal) => return Err(fault(words, Refused::At(refusal))),
    };
    let mut contents = Contents::new(alloc);
    match rest(alloc, words, at, file, &mut contents) {
        Ok(()) => Ok((name, contents)),
        Err(refusal) => Err(fault(words, refusal)),
    }
}

/// Parses what follows the head of a file into the contents.
#[tactic(auto, using(crate::proofs::Reported::of_rest))]
fn rest<'a>(
    alloc: Global,
    words: &[Word<'a>],
    at: usize,
    file: TaskFile,
    contents: &mut Contents<'a>,
) -> Result<(), WordFault>
    ensures { ReadsAll (phrase (sections_on (file_of file) [] (contents_of contents.old))) words.now at (contents_of contents.new) result }
{
    let next = sections(alloc, words, at, file, contents)?;
    end(words, next)?;
    Ok(())
}

/// Reads `( define ( domain NAME )`, or `problem` in place of `domain`: the name, and the index after the parenthesis.
#[tactic(auto, using(crate::proofs::Heads::of_heads))]
fn head<'a>(words: &[Word<'a>], at: usize, file: TaskFile) -> Result<(Name<'a>, usize), WordRefusal>
    ensures head { IfOk result (λ _. HasHead (file_of file) (from words.now at)) }
    ensures read { ReadsHead (file_of file) words.now at result }
{
    let next = open(words, at, Place::Elsewhere)?;
    let next = define(words, next)?;
    let next = open(words, next, Place::Incomplete)?;
    let next = kind(words, next, file)?;
    let (name, next) = name(words, next)?;
    let next = close(words, next)?;
    Ok((name, next))
}

/// Succeeds at end of input; refuses the word at this index otherwise.
fn end(words: &[Word], at: usize) -> Result<(), WordRefusal>
    ensures none { IfOk result (λ _. from words.now at ≡ []) }
    ensures reported { IfErr result (λ refusal. Stops words.now (no_more (from words.now at)) refusal) }
{
    if at < words.len() {
        Err(refusal(words, at, Place::Elsewhere))
    } else {
        Ok(())
    }
}
