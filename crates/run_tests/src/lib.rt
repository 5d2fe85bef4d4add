//! The unit tests of whole runs: packets that workers evaluate ahead, and how far captures are read ahead.
//!
//! What a contract says of every input, and what the models of the folder `tests` answer, isn't tested here again.
#![tactic(auto)]

#[cfg(test)]
mod answers;
#[cfg(test)]
mod feeds;
#[cfg(test)]
mod inputs;
#[cfg(test)]
mod pace;
#[cfg(test)]
mod reading;
#[cfg(test)]
mod shown;
#[cfg(test)]
mod streams;
#[cfg(test)]
mod told;
#[cfg(test)]
mod turns;
#[cfg(test)]
mod walks;
