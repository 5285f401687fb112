//! Tests of bytes: spellings of inputs, headers, events, what waits, windows' parts and variables, written out by hand, read
//! and written again, and spellings that are damaged. Tests of what a crash leaves: of journals, beside a plain reader, and of
//! sessions, over a machine whose state is a text, stopped at each call of the disk and crashed in each way, sides that aren't
//! theirs, and sides of both formats.
#![tactic(auto)]

#[cfg(test)]
mod again;
#[cfg(test)]
mod crashes;
#[cfg(test)]
mod damaged;
#[cfg(test)]
mod events;
#[cfg(test)]
mod formats;
#[cfg(test)]
mod inputs;
#[cfg(test)]
mod journal_trial;
#[cfg(test)]
mod journals;
#[cfg(test)]
mod log;
#[cfg(test)]
mod parts;
#[cfg(test)]
mod places;
#[cfg(test)]
mod plain;
#[cfg(test)]
mod sessions;
#[cfg(test)]
mod spelling;
#[cfg(test)]
mod variables;
#[cfg(test)]
mod widgets;
