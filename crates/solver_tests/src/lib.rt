//! Tests of ground tasks, and of the certificates of the solver's answers.
#![tactic(auto)]

#[cfg(test)]
mod ground_tasks;
#[cfg(test)]
mod laws;
#[cfg(test)]
mod plain_certificates;
#[cfg(test)]
mod plain_tasks;
#[cfg(test)]
mod unlike_tasks;
