//! Tests of sessions on a disk: their calls, what a store is opened for, what commits and checkpoints write, runs over readers and
//! writers that break, and a command that is refused memory.
#![tactic(auto)]

#[cfg(test)]
mod applications;
#[cfg(test)]
mod calls;
#[cfg(test)]
mod lines;
#[cfg(test)]
mod own;
#[cfg(test)]
mod stores;
#[cfg(test)]
mod written;
