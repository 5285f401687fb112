//! Tests of the language's crates: what no line of the program shows, and no row of what is read. Tests of a world's parts: what
//! they are made again by, from the values that were kept of them; bindings, timers and the queue of events; and the commands of
//! an application.
#![tactic(auto)]

#[cfg(test)]
mod applications;
#[cfg(test)]
mod bindings;
#[cfg(test)]
mod commands;
#[cfg(test)]
mod counter;
#[cfg(test)]
mod evaluation;
#[cfg(test)]
mod items_trial;
#[cfg(test)]
mod lines;
#[cfg(test)]
mod lines_trial;
#[cfg(test)]
mod listboxes;
#[cfg(test)]
mod numbers;
#[cfg(test)]
mod options;
#[cfg(test)]
mod packings;
#[cfg(test)]
mod plain;
#[cfg(test)]
mod plain_lines;
#[cfg(test)]
mod plain_queue;
#[cfg(test)]
mod queue;
#[cfg(test)]
mod scenes;
#[cfg(test)]
mod swap;
#[cfg(test)]
mod text_values;
#[cfg(test)]
mod texts;
#[cfg(test)]
mod trial;
#[cfg(test)]
mod values;
#[cfg(test)]
mod waiting;
#[cfg(test)]
mod widgets;
