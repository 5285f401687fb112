//! Tests of disks: random calls beside a plain program over bytes.
#![tactic(auto)]

mod dice;
mod plain;
#[cfg(test)]
mod tests;
mod trial;

pub use dice::Dice;
pub use plain::Plain;
pub use trial::{call_agrees, reads_as};
