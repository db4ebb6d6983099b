//! `tock_look`: the board of a flash file under a script, which goes where it is told to and tells
//! what there is to see of it.
//!
//!     tock_look FLASH SCRIPT COMMAND ..
//!
//! does the commands, one word of the command line each; without any those that come in, one a line.
//! The answer to each ends with a line `= ok`.
#![tactic(auto)]

mod adding;
mod answers;
mod asks;
mod keeping;
mod lines;
mod look;
mod views;

use crate::lines::InputLines;
use crate::look::look;
use std::env;
use std::process::ExitCode;
use tk_outside::{FileShelf, OutSink};

fn main(rt: HostRuntime) -> ExitCode {
    let Ok(arguments) = env::args(&rt) else {
        return ExitCode::from(7);
    };
    let Ok(words) = arguments.collect::<Vec<String>>(rt.alloc()) else {
        return ExitCode::from(7);
    };
    let mut shelf = FileShelf::new(&rt);
    let mut lines = InputLines::new(&rt);
    let mut out = OutSink::new(&rt);
    ExitCode::from(look(rt.alloc(), &words, &mut shelf, &mut lines, &mut out).answer())
}
