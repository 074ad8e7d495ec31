//! The sentence about a fault, by its code.
use crate::context::Context;
use crate::of_terms::UNDECLARED_COST;
use crate::shown::{FilePlace, Name};
use faults::{Code, NoMemory};
use std::alloc::AllocError;
use tokens::{LONGEST_TEXT, Lexeme};

impl<'a> Context<'_, 'a> {
    /// A sentence that says what is wrong, with its full stop or question mark. For a fault that these texts do not have, it says
    /// whatever the words around its span allow.
    ///
    /// # Errors
    /// An allocation failed.
    pub fn sentence(self) -> Result<String, NoMemory> {
        let mut out = String::new(self.alloc);
        self.add_help(&mut out)?;
        if out.is_empty() {
            self.add_plain(&mut out)?;
        }
        Ok(out)
    }

    /// Appends a sentence about what the lists of the texts show, if they show anything.
    fn add_help(self, out: &mut String) -> Result<(), AllocError> {
        match self.fault.code {
            Code::PlanForm if self.fault.span.start == LONGEST_TEXT => Ok(()),
            Code::Unbalanced | Code::PlanForm => self.add_open(out),
            Code::Trailing => self.add_trailing(out),
            Code::RepeatedSection => self.add_repeated_section(out),
            Code::MissingSection => self.add_missing(out),
            Code::UnknownType => self.add_unknown_type(out),
            Code::TypeCycle => self.add_type_cycle(out),
            Code::Duplicate => self.add_duplicate(out),
            Code::UnknownName => self.add_unknown_name(out),
            Code::UnknownAction => self.add_unknown_action(out),
            Code::Shadowed => self.add_shadowed(out),
            Code::WrongArity | Code::StepArity => self.add_counts(out),
            Code::WrongType | Code::StepType => self.add_types(out),
            Code::DomainMismatch => self.add_domain_name(out),
            Code::BadCost => self.add_cost_fault(out),
            Code::TooMany => out.push_str(self.passed_limit()),
            _ => Ok(()),
        }
    }

    /// Appends the sentence that follows from the code and the bytes alone.
    fn add_plain(self, out: &mut String) -> Result<(), AllocError> {
        let length = self.fault.span.end.saturating_sub(self.fault.span.start);
        match self.fault.code {
            Code::TooLong | Code::PlanForm if self.fault.span.start == LONGEST_TEXT => {
                write!(out, "the file has more than {LONGEST_TEXT} bytes.")
            }
            Code::TooLong => write!(
                out,
                "this word has {length} bytes; a word may have at most 255."
            ),
            Code::Unbalanced => out.push_str("this `)` closes no list."),
            Code::TooDeep => {
                out.push_str("this `(` opens a list at depth 65; lists may be at most 64 deep.")
            }
            Code::LeftOut if self.word == b"(".as_slice() => {
                out.push_str("only variables may be of several types, as `(either ..)`.")
            }
            Code::BadMetric => out.push_str(UNDECLARED_COST),
            Code::NegativeInit => {
                out.push_str("`:init` lists only what is true; everything else is false.")
            }
            code => write!(out, "{} {}.", Name(self.word), after_word(code)),
        }
    }

    /// The place of a piece of the file at fault.
    pub(crate) fn place_of(self, piece: &Lexeme<'a>) -> FilePlace<'a> {
        FilePlace::of(self.texts, self.fault.file, piece.span().start)
    }
}

/// What a code says about the bytes named before it.
pub fn after_word(code: Code) -> &'static str {
    match code {
        Code::BadByte => "is not printable ASCII and may appear only in comments",
        Code::BadWord => "is not a name, a variable, a keyword or a number",
        Code::LeftOut => "belongs to a part of PDDL that is not supported",
        Code::NumberTooLarge => "is greater than 2147483647, the largest number allowed",
        Code::PlanForm => "is not allowed here: a plan is a list of steps `(action object ..)`",
        Code::TimedStep => "is a time stamp; a step is only `(action object ..)`",
        Code::Duplicate => "is already declared",
        _ => "is not allowed here",
    }
}
