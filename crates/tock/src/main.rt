//! `tock`: the program.
#![tactic(auto)]

use std::env;
use std::io::ErrorKind;
use std::process::ExitCode;
use tk_outside::{FileShelf, OutSink};
use tock_cli::serve::serve;

/// Takes the arguments, and ends with the answer of [`serve`]; 7 where there was no memory for the arguments. Where
/// one of them is not UTF-8 the words are none at all, and no command has none: so that command line is answered by 2
/// and the usage line.
fn main(rt: HostRuntime) -> ExitCode {
    let collected = match env::args(&rt) {
        Ok(arguments) => arguments.collect::<Vec<String>>(rt.alloc()),
        Err(error) if error.kind() == ErrorKind::InvalidData => Ok(Vec::new(rt.alloc())),
        Err(_) => return ExitCode::from(7),
    };
    let Ok(words) = collected else {
        return ExitCode::from(7);
    };
    let mut shelf = FileShelf::new(&rt);
    let mut out = OutSink::new(&rt);
    let mut last = None;
    ExitCode::from(serve(rt.alloc(), &words, &mut shelf, &mut out, &mut last))
}
