//! Tests of trees, tasks, states, landmark values and certificates, as far as runs of the program cannot show them.
#![tactic(auto)]

#[cfg(test)]
mod certificates;
#[cfg(test)]
mod checked_streams;
#[cfg(test)]
mod landmark_certificates;
#[cfg(test)]
mod landmark_lines;
#[cfg(test)]
mod laws;
#[cfg(test)]
mod reading_certificates;
#[cfg(test)]
mod states;
#[cfg(test)]
mod tasks;
#[cfg(test)]
mod trees;
#[cfg(test)]
mod writing;
