//! What is wrong with a text: fault codes, their numbers and names.
ghost use Rattle.std.specs.Prelude.{◌≡◌};
ghost use Rattle.faults.specs.Fault.{name_in, names, number_of};

use std::fmt;

/// What is wrong with a text. The discriminant is the number that the program prints.
#[derive(Clone, Copy, Debug, PartialEq, Eq, Drop)]
pub enum Code {
    /// A byte that is neither blank nor printable ASCII, outside comments.
    BadByte = 1,
    /// A run of printable bytes that is not a word.
    BadWord = 2,
    /// A `)` without a `(`, or a list still open at the end.
    Unbalanced = 3,
    /// A `(` that opens a list at depth 65.
    TooDeep = 4,
    /// A text over 16,777,216 bytes, or a run over 255 bytes.
    TooLong = 5,
    /// A word after the parenthesis that closed the first list.
    Trailing = 6,
    /// An unexpected word, or unexpected end of file.
    BadForm = 7,
    /// A keyword that names no section or part.
    UnknownSection = 8,
    /// A repeated section or part.
    RepeatedSection = 9,
    /// A list that closes before a required section or part.
    MissingSection = 10,
    /// An unknown keyword in `:requirements`.
    UnknownRequirement = 11,
    /// A PDDL construct outside the supported language.
    LeftOut = 12,
    /// A number over 2,147,483,647.
    NumberTooLarge = 13,
    /// An undeclared type other than `object`.
    UnknownType = 14,
    /// A type that is its own ancestor.
    TypeCycle = 15,
    /// A name that is already declared.
    Duplicate = 16,
    /// An unknown predicate, variable or object.
    UnknownName = 17,
    /// A predicate with the wrong number of terms.
    WrongArity = 18,
    /// A term whose type does not fit the argument.
    WrongType = 19,
    /// A quantified variable whose name is already in scope.
    Shadowed = 20,
    /// A problem for another domain.
    DomainMismatch = 21,
    /// A `total-cost` metric where the domain declares no total cost.
    BadMetric = 22,
    /// A total cost that is undeclared, does not start at 0, or is set or increased twice.
    BadCost = 23,
    /// A negated fact in the initial state.
    NegativeInit = 24,
    /// The first item beyond a limit.
    TooMany = 25,
    /// A plan text that is not a list of steps.
    PlanForm = 30,
    /// A time stamp outside a step: a run that begins with a digit, `.` or `[`.
    TimedStep = 31,
    /// A step that names an undeclared action.
    UnknownAction = 32,
    /// A step with the wrong number of objects for its action.
    StepArity = 33,
    /// A step with an undeclared object, or one that is not of its parameter's type.
    StepType = 34,
}

impl Code {
    /// The number that the program prints.
    pub fn number(self) -> u8
        ensures { result ≡ number_of self }
    {
        self as u8
    }

    /// The name that the program prints beside the number: the variant's name.
    pub fn name(self) -> &'static str
        ensures { result.now ≡ name_in names (number_of self) }
    {
        match self {
            Code::BadByte => "BadByte",
            Code::BadWord => "BadWord",
            Code::Unbalanced => "Unbalanced",
            Code::TooDeep => "TooDeep",
            Code::TooLong => "TooLong",
            Code::Trailing => "Trailing",
            Code::BadForm => "BadForm",
            Code::UnknownSection => "UnknownSection",
            Code::RepeatedSection => "RepeatedSection",
            Code::MissingSection => "MissingSection",
            Code::UnknownRequirement => "UnknownRequirement",
            Code::LeftOut => "LeftOut",
            Code::NumberTooLarge => "NumberTooLarge",
            Code::UnknownType => "UnknownType",
            Code::TypeCycle => "TypeCycle",
            Code::Duplicate => "Duplicate",
            Code::UnknownName => "UnknownName",
            Code::WrongArity => "WrongArity",
            Code::WrongType => "WrongType",
            Code::Shadowed => "Shadowed",
            Code::DomainMismatch => "DomainMismatch",
            Code::BadMetric => "BadMetric",
            Code::BadCost => "BadCost",
            Code::NegativeInit => "NegativeInit",
            Code::TooMany => "TooMany",
            Code::PlanForm => "PlanForm",
            Code::TimedStep => "TimedStep",
            Code::UnknownAction => "UnknownAction",
            Code::StepArity => "StepArity",
            Code::StepType => "StepType",
        }
    }
}

impl fmt::Display for Code {
    fn fmt<W: fmt::Write>(&self, f: &mut fmt::Formatter<W>) -> fmt::Result {
        write!(f, "{}", self.name())
    }
}
