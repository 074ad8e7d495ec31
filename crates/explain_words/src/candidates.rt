//! The words that may stand in place of a refused one: those that the reader does not refuse after the words before it.
ghost use Rattle.std.specs.Prelude.{◌≡◌, ◌<◌, ◌↔◌, [], ◌∷◌, ◌++◌, IfOk, IfSome, IsTrue, length, map};
ghost use Rattle.tokens.specs.Word.{word_of};
ghost use Rattle.model.specs.Words.{ReadsAs, end_of};
ghost use Rattle.model.specs.GrammarWords.{tokens_of};
ghost use Rattle.model.specs.Refusals.{Begins};
ghost use Rattle.pddl_tree.specs.Tree.{file_of};
ghost use Rattle.explain_words.specs.Expected.{AreAll, AreThose, MayFollow, candidates_text};
ghost use Rattle.explain_words.specs.Verdict.{IsVerdict};

use crate::refusals::refused;
use faults::{NoMemory, TextRefusal};
use pddl_tree::TaskFile;
use std::alloc::Global;
use tokens::{Word, scan};

/// One word for each kind that the grammar distinguishes, and all words with a meaning of their own.
const CANDIDATES: &[u8] =
    b"name ?variable 0 - = preference define domain problem number minimize and or not imply \
    exists forall either when increase total-cost :requirements :types :constants :predicates :functions :action :domain \
    :objects :init :goal :metric :parameters :precondition :effect :strips :typing :equality :negative-preconditions \
    :disjunctive-preconditions :existential-preconditions :universal-preconditions :quantified-preconditions \
    :conditional-effects :adl :action-costs :fluents :numeric-fluents ()";

/// The bytes of the candidates.
fn candidate_bytes() -> &'static [u8]
    ensures { result.now ≡ candidates_text }
{
    CANDIDATES
}

/// The words that may follow these in a file of this kind, one for each kind that the grammar distinguishes. One name stands for
/// all names without a meaning of their own, one variable for all variables, and one number for all numbers.
///
/// # Errors
/// An allocation failed.
pub fn expected<'a>(
    alloc: Global,
    file: TaskFile,
    before: &[Word<'a>],
) -> Result<Vec<Word<'a>>, NoMemory>
    ensures { IfOk result (λ found. AreAll (file_of file) before.now found.items) }
{
    let text: &'a [u8] = candidate_bytes();
    let Ok(candidates) = scan(alloc, text) else {
        return Err(NoMemory);
    };
    those_after(alloc, file, before, &candidates)
}

/// Those of the candidates that may follow these words in a file of this kind.
fn those_after<'a>(
    alloc: Global,
    file: TaskFile,
    before: &[Word<'a>],
    candidates: &[Word<'a>],
) -> Result<Vec<Word<'a>>, NoMemory>
    requires { ReadsAs candidates_text (map word_of candidates.now) }
    ensures { IfOk result (λ found. AreThose (MayFollow (file_of file) before.now) candidates.now found.items) }
{
    let begin = begin(alloc, file, before, candidates)?;
    if !begin {
        return Ok(Vec::new(alloc));
    }
    those_read(alloc, file, before, candidates)
}

/// Whether a file of this kind begins with these words. If none does, the reader refuses one of them, the same whatever follows.
/// Otherwise it refuses what follows or its end, so two followers that end at different offsets tell.
fn begin<'a>(
    alloc: Global,
    file: TaskFile,
    before: &[Word<'a>],
    candidates: &[Word<'a>],
) -> Result<bool, NoMemory>
    requires { ReadsAs candidates_text (map word_of candidates.now) }
    ensures { IfOk result (λ begin. IsTrue begin ↔ Begins (file_of file) (tokens_of (map word_of before.now))) }
{
    // There are more than two candidates.
    if candidates.len() < 2 {
        return Err(NoMemory);
    }
    let first = candidates[0];
    let second = candidates[1];
    let of_first = refused_with(alloc, file, before, first)?;
    let of_second = refused_with(alloc, file, before, second)?;
    let to_first = is_read_to(of_first, first);
    let to_second = is_read_to(of_second, second);
    Ok(to_first && to_second)
}

/// Whether nothing is refused, or something that ends where this word does.
fn is_read_to(refused: Option<TextRefusal>, word: Word<'_>) -> bool
    ensures { IsTrue result ↔ IfSome refused (λ refusal. refusal.span.end ≡ end_of (word_of word.entry)) }
{
    match refused {
        Some(refusal) => refusal.span.end == word.span().end,
        None => true,
    }
}

/// Those of the candidates that may follow these words, with which a file of this kind begins.
fn those_read<'a>(
    alloc: Global,
    file: TaskFile,
    before: &[Word<'a>],
    candidates: &[Word<'a>],
) -> Result<Vec<Word<'a>>, NoMemory>
    requires begins { Begins (file_of file) (tokens_of (map word_of before.now)) }
    requires candidates { ReadsAs candidates_text (map word_of candidates.now) }
    ensures { IfOk result (λ found. AreThose (MayFollow (file_of file) before.now) candidates.now found.items) }
{
    let mut found = Vec::new(alloc);
    for word in candidates {
        let follows = may_follow(alloc, file, before, *word)?;
        if follows {
            found.push(*word)?;
        }
    }
    Ok(found)
}

/// Whether a word may follow these, with which a file of this kind begins: the reader does not refuse it, though it may refuse the
/// end.
fn may_follow<'a>(
    alloc: Global,
    file: TaskFile,
    before: &[Word<'a>],
    word: Word<'a>,
) -> Result<bool, NoMemory>
    requires begins { Begins (file_of file) (tokens_of (map word_of before.now)) }
    requires has_bytes { 0 < length (word_of word).text }
    ensures { IfOk result (λ follows. IsTrue follows ↔ MayFollow (file_of file) before.now word.entry) }
{
    let refused = refused_with(alloc, file, before, word)?;
    match refused {
        Some(refusal) => Ok(is_at_end(refusal)),
        None => Ok(true),
    }
}

/// Whether no word is refused, but the end.
fn is_at_end(refusal: TextRefusal) -> bool
    ensures { IsTrue result ↔ (refusal.span.start ≡ refusal.span.end) }
{
    refusal.span.start == refusal.span.end
}

/// What is refused in words with one more after them; `None` if they are a whole file of this kind.
fn refused_with<'a>(
    alloc: Global,
    file: TaskFile,
    before: &[Word<'a>],
    word: Word<'a>,
) -> Result<Option<TextRefusal>, NoMemory>
    ensures { IfOk result (IsVerdict (file_of file) (map word_of before.now ++ word_of word.entry ∷ [])) }
{
    let mut words = Vec::with_capacity(alloc, before.len().saturating_add(1))?;
    words.extend_from_slice(before)?;
    words.push(word)?;
    refused(alloc, file, &words)
}
