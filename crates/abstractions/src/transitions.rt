//! The effect of an instance on a variable, for each value in which it may be applicable.
use crate::variables::Variables;
use faults::DraftMemory;
use grounding::{CountingChange, NumberedLiteral};

/// The target of a transition.
#[derive(Clone, Copy, PartialEq, Eq, PartialOrd, Ord)]
pub(crate) enum Target {
    /// This value.
    Value(u32),
    /// No value of the variable: two of its atoms become true.
    NoValue,
}

/// A transition of a variable from one value.
#[derive(Clone, Copy, PartialEq, Eq, PartialOrd, Ord)]
pub(crate) struct Transition {
    pub(crate) from: u32,
    pub(crate) to: Target,
}

/// A kind of change of a variable's atom.
#[derive(Clone, Copy)]
enum Kind {
    /// An add whenever the instance is applied.
    SureAdd,
    /// A delete whenever the instance is applied.
    SureDelete,
    /// A delete under a `when`.
    PossibleDelete,
}

impl Kind {
    /// Whether the change is of this kind.
    fn is_of(self, change: &CountingChange<'_>) -> bool {
        match self {
            Kind::SureAdd => change.value && change.is_unconditional(),
            Kind::SureDelete => !change.value && change.is_unconditional(),
            Kind::PossibleDelete => !change.value && !change.is_unconditional(),
        }
    }
}

/// The part of an instance that concerns one variable.
#[derive(Clone, Copy)]
pub(crate) struct InstancePart<'a, 't> {
    pub(crate) memory: &'a DraftMemory,
    pub(crate) variables: &'a Variables,
    pub(crate) variable: u32,
    pub(crate) literals: &'a [NumberedLiteral],
    pub(crate) changes: &'a [CountingChange<'t>],
}

impl InstancePart<'_, '_> {
    /// The transitions from each value that the literals allow, in ascending order of these values.
    pub(crate) fn transitions(&self) -> Vec<Transition> {
        let mut transitions = self.memory.list();
        for from in self.first_value()..self.variables.value_count(self.variable) {
            if self.allows(self.literals, from) {
                self.add_transitions(from, &mut transitions);
                if self.requires_atom() {
                    break;
                }
            }
        }
        transitions
    }

    /// The first value that the literals may allow.
    fn first_value(&self) -> u32 {
        for literal in self.literals {
            if literal.value {
                if let Some(value) = self.value_of(literal.atom) {
                    return value;
                }
            }
        }
        0
    }

    /// Whether a literal requires one of the variable's atoms.
    fn requires_atom(&self) -> bool {
        self.literals.iter().any(|literal| literal.value && self.value_of(literal.atom).is_some())
    }

    /// The value that the atom stands for, if it is an atom of the variable.
    fn value_of(&self, atom: u32) -> Option<u32> {
        for value in self.variables.of_atom(atom) {
            if value.variable == self.variable {
                return Some(value.value);
            }
        }
        None
    }

    /// Whether no literal excludes the value.
    fn allows(&self, literals: &[NumberedLiteral], from: u32) -> bool {
        literals.iter().all(|literal| match self.value_of(literal.atom) {
            Some(value) => (value == from) == literal.value,
            None => true,
        })
    }

    /// Adds the transitions from this value.
    fn add_transitions(&self, from: u32, transitions: &mut Vec<Transition>) {
        let certain = self.certain_target(from);
        self.memory
            .push(transitions, Transition { from, to: certain });
        let Target::Value(value) = certain else {
            return;
        };
        if value > 0
            && !self.makes(Kind::SureAdd, value, from)
            && self.makes(Kind::PossibleDelete, value, from)
        {
            let to = Target::Value(0);
            self.memory.push(transitions, Transition { from, to });
        }
        self.add_uncertain_adds(from, value, transitions);
    }

    /// The target of the unconditional changes from this value.
    fn certain_target(&self, from: u32) -> Target {
        let mut value = from;
        if from > 0 && self.makes(Kind::SureDelete, from, from) {
            value = 0;
        }
        for change in self.changes {
            if change.value && change.is_unconditional() {
                if let Some(added) = self.value_of(change.atom) {
                    if value > 0 && value != added {
                        return Target::NoValue;
                    }
                    value = added;
                }
            }
        }
        Target::Value(value)
    }

    /// Adds the transitions in which a change under a `when` adds an atom, given the target of the others.
    fn add_uncertain_adds(&self, from: u32, value: u32, transitions: &mut Vec<Transition>) {
        let mut first = value;
        for change in self.changes {
            if change.value && !change.is_unconditional() && self.is_open(change, from) {
                if let Some(added) = self.value_of(change.atom) {
                    if first > 0 && first != added {
                        let to = Target::NoValue;
                        self.memory.push(transitions, Transition { from, to });
                        break;
                    }
                    if first != added {
                        let to = Target::Value(added);
                        self.memory.push(transitions, Transition { from, to });
                    }
                    first = added;
                }
            }
        }
    }

    /// Whether a change of this kind is made to the atom of this value, from that value.
    fn makes(&self, kind: Kind, value: u32, from: u32) -> bool {
        self.changes.iter().any(|change| {
            kind.is_of(change)
                && self.value_of(change.atom) == Some(value)
                && self.is_open(change, from)
        })
    }

    /// Whether the change may take effect from the value.
    fn is_open(&self, change: &CountingChange<'_>, from: u32) -> bool {
        !change.requires_unnumbered() && self.allows(change.condition(), from)
    }
}

/// The transitions from this value.
pub(crate) fn transitions_from(transitions: &[Transition], from: u32) -> &[Transition] {
    let start = transitions.partition_point(|it| it.from < from);
    let end = transitions.partition_point(|it| it.from <= from);
    match transitions.get(start..end) {
        Some(those) => those,
        None => &[],
    }
}

/// The number of values that have transitions.
pub(crate) fn source_count(transitions: &[Transition]) -> u32 {
    let mut count = 0u32;
    let mut last = None;
    for it in transitions {
        if last != Some(it.from) {
            count = count.saturating_add(1);
        }
        last = Some(it.from);
    }
    count
}
