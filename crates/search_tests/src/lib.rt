//! Tests of the search over a small system of rooms: the order of finding, values that are asked for; and of sets in words.
#![tactic(auto)]

#[cfg(test)]
mod asked_signs;
#[cfg(test)]
mod found_rooms;
#[cfg(test)]
mod orders;
#[cfg(test)]
mod packed_states;
#[cfg(test)]
mod refused_inserts;
mod rooms;
