//! The unit tests of the crates below a run's: mostly what no clause says and no comparison of the folder `tests` shows. Those of
//! runs stand in run_tests.
//!
//! What a text, a frame or a packet comes to is no unit test, but a row beside a model: each function here is proved.
#![tactic(auto)]

#[cfg(test)]
mod checksum;
#[cfg(test)]
mod claims;
#[cfg(test)]
mod elements;
#[cfg(test)]
mod evaluations;
#[cfg(test)]
mod index;
#[cfg(test)]
mod merging;
#[cfg(test)]
mod published;
#[cfg(test)]
mod states;
#[cfg(test)]
mod streams;
#[cfg(test)]
mod workers;
