//! Words classified for the grammar.
ghost use Rattle.std.specs.Prelude.{◌≡◌, ◌||◌, ◌<◌, length, codes, Some};
ghost use Rattle.std.specs.Option.{option_map, option_and_then};
ghost use Rattle.model.specs.Grammar.{name_in, variable_in};
ghost use Rattle.std.specs.Str.{bytes_eq, str_to_ascii_lowercase};
ghost use Rattle.tokens.specs.Word.{word_of};
ghost use Rattle.model.specs.GrammarWords as words;
ghost use Rattle.model.specs.GrammarWords.{is_among, left_out_names, number_of_digits, requirement_keys, left_out_keywords};
ghost use Rattle.pddl_tree.specs.Terms.{name_of};
ghost use Rattle.pddl_tree.specs.Token.{seen, keyword_view, small, IsToken, first, from};

use crate::terms::Name;
use tokens::{Kind, Word};

/// The greatest number allowed in a file.
const MAX_NUMBER: u32 = 2_147_483_647;

/// A name that may name a predicate, folded to lower case.
#[derive(Clone, Copy, PartialEq, Eq)]
pub enum FreeName {
    /// `define`
    Define,
    /// `domain`
    Domain,
    /// `problem`
    Problem,
    /// `number`
    NumberWord,
    /// `minimize`
    Minimize,
    /// `maximize`
    Maximize,
    /// Any other name that is not reserved.
    Ordinary,
}

/// A name that cannot name a predicate, folded to lower case.
#[derive(Clone, Copy, PartialEq, Eq)]
pub enum ReservedName {
    /// `and`
    And,
    /// `or`
    Or,
    /// `not`
    Not,
    /// `imply`
    Imply,
    /// `exists`
    Exists,
    /// `forall`
    Forall,
    /// `either`
    Either,
    /// `when`
    When,
    /// `increase`
    Increase,
    /// `total-cost`
    TotalCost,
    /// The name of an unsupported construct.
    LeftOut,
}

/// The keyword of a section of a file.
#[derive(Clone, Copy, PartialEq, Eq)]
pub enum SectionKeyword {
    /// `:requirements`
    Requirements,
    /// `:types`
    Types,
    /// `:constants`
    Constants,
    /// `:predicates`
    Predicates,
    /// `:functions`
    Functions,
    /// `:action`
    Action,
    /// `:domain`
    Domain,
    /// `:objects`
    Objects,
    /// `:init`
    Init,
    /// `:goal`
    Goal,
    /// `:metric`
    Metric,
}

/// The keyword of a part of an action.
#[derive(Clone, Copy, PartialEq, Eq)]
pub enum PartKeyword {
    /// `:parameters`
    Parameters,
    /// `:precondition`
    Precondition,
    /// `:effect`
    Effect,
}

/// The class of a keyword, folded to lower case.
#[derive(Clone, Copy)]
pub enum Keyword {
    /// A section.
    Section(SectionKeyword),
    /// A part of an action.
    Part(PartKeyword),
    /// A key of `:requirements`.
    Requirement,
    /// An unsupported section or part.
    LeftOut,
    /// Any other keyword.
    Unknown,
}

/// The class of a word. Any name may name an object or an action.
#[derive(Clone, Copy)]
pub enum Token<'a> {
    /// `(`
    Open,
    /// `)`
    Close,
    /// A name that may name a predicate.
    Free(FreeName, Name<'a>),
    /// A reserved name.
    Reserved(ReservedName, Name<'a>),
    /// A variable, such as `?x`.
    Variable(Name<'a>),
    /// A keyword, such as `:goal`.
    Keyword(Keyword),
    /// `-`
    Dash,
    /// `=`, with its place.
    Equals(Name<'a>),
    /// A number, with its place.
    Number(u32, Name<'a>),
    /// A number over 2,147,483,647.
    LargeNumber,
    /// The end of the words.
    End,
}

impl<'a> Token<'a> {
    /// The name, if the word is one.
    pub fn name(self) -> Option<Name<'a>>
        ensures { option_map name_of result ≡ option_and_then name_in (seen self.entry) }
    {
        match self {
            Token::Free(_, name) | Token::Reserved(_, name) => Some(name),
            _ => None,
        }
    }

    /// The variable, if the word is one.
    pub fn variable(self) -> Option<Name<'a>>
        ensures { option_map name_of result ≡ option_and_then variable_in (seen self.entry) }
    {
        match self {
            Token::Variable(variable) => Some(variable),
            _ => None,
        }
    }
}

/// The class of the word at an index.
pub fn token_at<'a>(words: &[Word<'a>], at: usize) -> Token<'a>
    ensures within { IsToken (seen result) → at < length words.now }
    ensures first { seen result ≡ first (from words.now at) }
{
    if at < words.len() {
        token_of(&words[at])
    } else {
        Token::End
    }
}

/// The class of a word.
fn token_of<'a>(word: &Word<'a>) -> Token<'a>
    ensures { seen result ≡ Some (words.token_of (word_of word.now)) }
{
    let name = Name {
        text: word.text(),
        span: word.span(),
    };
    match word.kind() {
        Kind::Name => named(name),
        Kind::Variable => Token::Variable(name),
        Kind::Keyword => Token::Keyword(keyword_of(word.text())),
        Kind::Dash => Token::Dash,
        Kind::Equals => Token::Equals(name),
        Kind::Number => numbered(name),
        Kind::Open => Token::Open,
        Kind::Close => Token::Close,
    }
}

/// The class of a name.
fn named(name: Name) -> Token
    ensures { seen result ≡ Some (words.named (str_to_ascii_lowercase name.entry.text.now) (name_of name.entry)) }
{
    let text = name.text;
    if is(text, b"and") {
        Token::Reserved(ReservedName::And, name)
    } else if is(text, b"or") {
        Token::Reserved(ReservedName::Or, name)
    } else if is(text, b"not") {
        Token::Reserved(ReservedName::Not, name)
    } else if is(text, b"imply") {
        Token::Reserved(ReservedName::Imply, name)
    } else if is(text, b"exists") {
        Token::Reserved(ReservedName::Exists, name)
    } else if is(text, b"forall") {
        Token::Reserved(ReservedName::Forall, name)
    } else if is(text, b"either") {
        Token::Reserved(ReservedName::Either, name)
    } else if is(text, b"when") {
        Token::Reserved(ReservedName::When, name)
    } else if is(text, b"increase") {
        Token::Reserved(ReservedName::Increase, name)
    } else if is(text, b"total-cost") {
        Token::Reserved(ReservedName::TotalCost, name)
    } else if is(text, b"define") {
        Token::Free(FreeName::Define, name)
    } else if is(text, b"domain") {
        Token::Free(FreeName::Domain, name)
    } else if is(text, b"problem") {
        Token::Free(FreeName::Problem, name)
    } else if is(text, b"number") {
        Token::Free(FreeName::NumberWord, name)
    } else if is(text, b"minimize") {
        Token::Free(FreeName::Minimize, name)
    } else if is(text, b"maximize") {
        Token::Free(FreeName::Maximize, name)
    } else if is_left_out_name(text) {
        Token::Reserved(ReservedName::LeftOut, name)
    } else {
        Token::Free(FreeName::Ordinary, name)
    }
}

/// The class of a number.
fn numbered(name: Name) -> Token
    ensures { seen result ≡ Some (words.number_from (number_of_digits (str_to_ascii_lowercase name.entry.text.now)) (name_of name.entry)) }
{
    match number_of(name.text) {
        Some(number) => Token::Number(number, name),
        None => Token::LargeNumber,
    }
}

/// The number that the digits denote; `None` if it is over 2,147,483,647.
fn number_of(digits: &[u8]) -> Option<u32>
    ensures { result ≡ small (number_of_digits (str_to_ascii_lowercase digits.now)) }
{
    let mut number: u32 = 0;
    for digit in digits {
        let value = digit.to_ascii_lowercase().saturating_sub(b'0');
        let more = u64::from(number) * 10 + u64::from(value);
        if more > u64::from(MAX_NUMBER) {
            return None;
        }
        number = more as u32;
    }
    Some(number)
}

/// The class of a keyword.
fn keyword_of(text: &[u8]) -> Keyword
    ensures { keyword_view result ≡ words.keyword_of (str_to_ascii_lowercase text.now) }
{
    if is(text, b":action") {
        Keyword::Section(SectionKeyword::Action)
    } else if is(text, b":parameters") {
        Keyword::Part(PartKeyword::Parameters)
    } else if is(text, b":precondition") {
        Keyword::Part(PartKeyword::Precondition)
    } else if is(text, b":effect") {
        Keyword::Part(PartKeyword::Effect)
    } else if is(text, b":requirements") {
        Keyword::Section(SectionKeyword::Requirements)
    } else if is(text, b":types") {
        Keyword::Section(SectionKeyword::Types)
    } else if is(text, b":constants") {
        Keyword::Section(SectionKeyword::Constants)
    } else if is(text, b":predicates") {
        Keyword::Section(SectionKeyword::Predicates)
    } else if is(text, b":functions") {
        Keyword::Section(SectionKeyword::Functions)
    } else if is(text, b":domain") {
        Keyword::Section(SectionKeyword::Domain)
    } else if is(text, b":objects") {
        Keyword::Section(SectionKeyword::Objects)
    } else if is(text, b":init") {
        Keyword::Section(SectionKeyword::Init)
    } else if is(text, b":goal") {
        Keyword::Section(SectionKeyword::Goal)
    } else if is(text, b":metric") {
        Keyword::Section(SectionKeyword::Metric)
    } else {
        other_keyword(text)
    }
}

/// The class of a keyword that begins no section and no part.
fn other_keyword(text: &[u8]) -> Keyword
    ensures { keyword_view result ≡ words.other_keyword_of (str_to_ascii_lowercase text.now) }
{
    if is_requirement_key(text) {
        Keyword::Requirement
    } else if is_left_out_keyword(text) {
        Keyword::LeftOut
    } else {
        Keyword::Unknown
    }
}

/// Whether a text is this word once folded to lower case.
fn is(text: &[u8], word: &[u8]) -> bool
    ensures { result ≡ bytes_eq (str_to_ascii_lowercase text.now) (str_to_ascii_lowercase word.now) }
{
    text.eq_ignore_ascii_case(word)
}

/// Whether a name is reserved for an unsupported construct.
fn is_left_out_name(text: &[u8]) -> bool
    ensures { result ≡ is_among (str_to_ascii_lowercase text.now) left_out_names }
{
    is(text, b"preference")
        || is(text, b"assign")
        || is(text, b"decrease")
        || is(text, b"scale-up")
        || is(text, b"scale-down")
}

/// Whether a keyword is a key of `:requirements`.
fn is_requirement_key(text: &[u8]) -> bool
    ensures { result ≡ is_among (str_to_ascii_lowercase text.now) requirement_keys }
{
    is(text, b":strips")
        || is(text, b":typing")
        || is(text, b":equality")
        || is(text, b":negative-preconditions")
        || is(text, b":disjunctive-preconditions")
        || is(text, b":existential-preconditions")
        || is(text, b":universal-preconditions")
        || is(text, b":quantified-preconditions")
        || is(text, b":conditional-effects")
        || is(text, b":adl")
        || is(text, b":action-costs")
        || is(text, b":fluents")
        || is(text, b":numeric-fluents")
}

/// Whether a keyword is that of an unsupported section or part.
fn is_left_out_keyword(text: &[u8]) -> bool
    ensures { result ≡ is_among (str_to_ascii_lowercase text.now) left_out_keywords }
{
    is(text, b":durative-action")
        || is(text, b":derived")
        || is(text, b":constraints")
        || is(text, b":axiom")
        || is(text, b":safety")
        || is(text, b":timeless")
        || is(text, b":extends")
        || is(text, b":situation")
        || is(text, b":length")
        || is(text, b":vars")
        || is(text, b":duration")
        || is(text, b":condition")
        || is(text, b":expansion")
        || is(text, b":method")
}
