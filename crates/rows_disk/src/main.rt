//! Calls on a disk of real files. Without words it runs its rows in the folder where it stands, and writes what each gives;
//! `fill PATH` and `check PATH RECORDS` are for a device that gets full, `time PATH RECORDS` for the bench.
#![tactic(auto)]

mod records;
mod rows;

use std::{env, io};

fn main(rt: HostRuntime) -> io::Result<()> {
    let mut words = env::args(&rt)?.skip(1);
    let (Some(command), Some(path)) = (words.next(), words.next()) else {
        return rows::run(&rt);
    };
    let count = match words.next() {
        Some(word) => word.parse::<usize>().unwrap_or(0),
        None => 0,
    };
    match command.as_str() {
        "fill" => records::fill(&rt, path.as_str()),
        "check" => records::check(&rt, path.as_str(), count),
        "time" => records::time(&rt, path.as_str(), count),
        _ => rows::run(&rt),
    }
}
