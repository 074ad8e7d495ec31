//! What each refusal of a certificate means.
use cert_checker::RefusalCode;

/// What a refusal means, in one or two sentences.
pub(crate) fn meaning_of(code: RefusalCode) -> &'static str {
    match code {
        RefusalCode::CertForm | RefusalCode::CertVersion | RefusalCode::Truncated => {
            meaning_of_text(code)
        }
        RefusalCode::NotFluent | RefusalCode::Repeated | RefusalCode::CutNotAllowed => {
            meaning_of_line(code)
        }
        RefusalCode::NoInitial
        | RefusalCode::GoalOpen
        | RefusalCode::SuccessorMissing
        | RefusalCode::SuccessorDearer
        | RefusalCode::CutWeak
        | RefusalCode::NotDead => meaning_of_state(code),
        RefusalCode::PlanInvalid | RefusalCode::PlanDearer | RefusalCode::Limit => {
            meaning_of_plan(code)
        }
        _ => meaning_of_values(code),
    }
}

/// The same for a text that is no certificate.
fn meaning_of_text(code: RefusalCode) -> &'static str {
    match code {
        RefusalCode::CertVersion => {
            "The first line names an unknown version. The versions are 1, 2, 3 and 4."
        }
        RefusalCode::Truncated => {
            "The text ends before its last line, `end N` with the number of states: a part of the certificate is missing."
        }
        _ => {
            "The line is malformed or out of place. First come `pddl-cert`, `claim` and `constant`, then exchanges, atoms, tables, zones, landmark values, states and `end`, in this order."
        }
    }
}

/// The same for a line that does not fit the task or the lines before it.
fn meaning_of_line(code: RefusalCode) -> &'static str {
    match code {
        RefusalCode::NotFluent => {
            "No action of the task changes this atom: its predicate is static or unknown, or takes other objects."
        }
        RefusalCode::Repeated => "An earlier line has the same atom, state or row.",
        _ => {
            "A cut leaves open whether a plan leads through its state. So none may stand in a certificate that claims that there is no plan."
        }
    }
}

/// The same for a listed state.
fn meaning_of_state(code: RefusalCode) -> &'static str {
    match code {
        RefusalCode::NoInitial => {
            "No line lists the initial state at cost 0, nor a state that the exchanges of objects make of it. This may be the certificate of another task."
        }
        RefusalCode::GoalOpen => {
            "The state of this line meets the goal. The certificate claims that there is no plan, or that every plan costs more."
        }
        RefusalCode::SuccessorMissing => {
            "An action leads from the state of this line to a state that no line lists. So the certificate leaves out the plans that go there."
        }
        RefusalCode::SuccessorDearer => {
            "An action leads from the state of this line to a state that is listed at a higher cost. So the certificate leaves out a cheaper way there."
        }
        RefusalCode::CutWeak => {
            "The line claims more than the certificate shows of the remaining cost, or less than the claim needs."
        }
        _ => {
            "The line says that the goal cannot be reached from its state, but the value that it rests on is 0 there."
        }
    }
}

/// The same for the plan beside a certificate, and for limits.
fn meaning_of_plan(code: RefusalCode) -> &'static str {
    match code {
        RefusalCode::PlanInvalid => "The plan does not solve the task.",
        RefusalCode::PlanDearer => {
            "The plan costs more than the certificate claims, so it may not be a cheapest one."
        }
        _ => {
            "The task has more action instances than `--instances` allows, or more than 1,048,576 atoms; or the certificate has too many lines of one kind."
        }
    }
}

/// The same for values and exchanges of objects.
fn meaning_of_values(code: RefusalCode) -> &'static str {
    match code {
        RefusalCode::UnfairGoal => {
            "A value of the certificate may be above 0 in a goal state, where nothing is left to pay."
        }
        RefusalCode::DeadUnfairGoal => {
            "The value for dead ends may be above 0 in a goal state, which is no dead end."
        }
        RefusalCode::NotSymmetry => {
            "This exchange of objects does not leave the task as it is, or it makes of an atom of the certificate one that has no line."
        }
        RefusalCode::ValueUnfair => {
            "This landmark value charges an action more than it costs, or one of its zones has no literal of the goal."
        }
        RefusalCode::ValueNotDead => {
            "The landmark value that this line names shows no dead ends: an action can break one of its zones, or a zone has no literal of the goal."
        }
        RefusalCode::Unfair => {
            "When some action is applied, a value may fall by more than the action costs."
        }
        _ => "When some action is applied, the value for dead ends may fall.",
    }
}
