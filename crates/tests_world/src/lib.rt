//! Tests of windows and of the world: what no row of a session shows.
#![tactic(auto)]

#[cfg(test)]
mod counting;
#[cfg(test)]
mod events;
#[cfg(test)]
mod lengths;
#[cfg(test)]
mod nothing;
#[cfg(test)]
mod places;
#[cfg(test)]
mod refusals;
#[cfg(test)]
mod rules;
#[cfg(test)]
mod tree;
#[cfg(test)]
mod turns;
#[cfg(test)]
mod worlds;
