//! Tests of the whole program over failing files and over the machine's files.
#![tactic(auto)]

#[cfg(test)]
mod failing_certificates;
#[cfg(test)]
mod failing_files;
#[cfg(test)]
mod failing_runs;
#[cfg(test)]
mod laws;
#[cfg(test)]
mod machine_files;
#[cfg(test)]
mod reported;
