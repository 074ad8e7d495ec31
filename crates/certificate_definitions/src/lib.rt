//! Defines certificates: when they are closed, what their text is, and what is refused. No code.
#![tactic(auto)]
