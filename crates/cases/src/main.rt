// Replays stored answers. Each argument is a data file, and each of its lines a case of an operation, or
// several (see `line`). Where an operation answers something else than the line stores, that is printed, and
// the file and the line. The last line of each file counts.
#![tactic(auto)]

mod answer;
mod calls;
mod file;
mod kinds;
mod line;
mod lists;
mod ops;
mod output;
mod ranges;
mod records;
mod selections;
mod sizes;
mod tables;
mod texts;
mod words;

use std::env::FillError;
use std::rt::Env;

// No path is longer.
const MOST_NAME: usize = 4096;

fn main(rt: HostRuntime) {
    let mut name = [0u8; MOST_NAME];
    for i in 1..usize::MAX {
        match rt.arg(i, &mut name) {
            Ok(len) => file::replay_file(&rt, &name[..len]),
            Err(FillError::TooLong) => file::replay_file(&rt, &name[..0]),
            Err(FillError::NotPresent) => return,
        }
    }
}
