//! Sentences about wrong numbers and types of arguments (codes 18, 19, 33, 34), limits, costs, and the domain's name.
use crate::context::Context;
use crate::declarations::section;
use crate::lists::{head_of, is_among};
use crate::of_names::OBJECT;
use crate::shown::{Name, Types};
use std::alloc::AllocError;

/// What is said of a cost without a declaration.
pub(crate) const UNDECLARED_COST: &str = "`:functions` does not declare `total-cost`.";

impl Context<'_, '_> {
    /// Says how many arguments are required, and how many are there.
    pub(crate) fn add_counts(self, out: &mut String) -> Result<(), AllocError> {
        let given = self.list().len().saturating_sub(3);
        let Some(parameters) = self.parameters() else {
            return Ok(());
        };
        let required = parameters.count();
        let ending = if required == 1 { "" } else { "s" };
        let name = Name(self.word);
        write!(
            out,
            "{name} takes {required} argument{ending}, not {given}."
        )
    }

    /// Says which types a term has, and which its place requires.
    pub(crate) fn add_types(self, out: &mut String) -> Result<(), AllocError> {
        let (Some(at), Some(open)) = (self.at(), self.open()) else {
            return Ok(());
        };
        let variables = self.variables()?;
        let Some(term) = self.term(self.word, &variables) else {
            return self.add_unknown_term(OBJECT, out);
        };
        let index = at.saturating_sub(open).saturating_sub(2);
        let Some(mut parameters) = self.parameters() else {
            return Ok(());
        };
        let Some(required) = parameters.nth(index) else {
            return Ok(());
        };
        let (given, required) = (Types(term.types), Types(required.types));
        let (name, user) = (Name(self.word), Name(head_of(self.list())));
        write!(
            out,
            "{name} has type {given}, but {user} requires {required}"
        )?;
        self.add_cause(term, &variables, out)
    }

    /// The limit that is exceeded.
    pub(crate) fn passed_limit(self) -> &'static str {
        let head = head_of(self.list());
        if head.eq_ignore_ascii_case(b":types") {
            "a domain may declare at most 4095 types."
        } else if head.starts_with(b":") {
            "a task may have at most 65535 constants and objects."
        } else if is_among(head_of(self.outer()), &[b":predicates", b":functions"]) {
            "a predicate or a function may have at most 8 arguments."
        } else {
            "at most 16 variables may be in scope at once."
        }
    }

    /// Says what is wrong with a total cost, by the reported word.
    pub(crate) fn add_cost_fault(self, out: &mut String) -> Result<(), AllocError> {
        out.push_str(if !self.is_cost_declared() {
            UNDECLARED_COST
        } else if self.word.eq_ignore_ascii_case(b"increase") {
            "the action already increases the total cost."
        } else if self.word == b"=".as_slice() {
            "the total cost already has an initial value."
        } else {
            "the total cost must start at 0."
        })
    }

    /// Whether the domain declares a total cost.
    fn is_cost_declared(self) -> bool {
        !section(self.section(b":functions"), b"total-cost").is_empty()
    }

    /// Says the domain's name.
    pub(crate) fn add_domain_name(self, out: &mut String) -> Result<(), AllocError> {
        match self.section(b"domain").get(2) {
            Some(name) => write!(out, "the domain is called {}.", Name(name.text())),
            None => Ok(()),
        }
    }
}
