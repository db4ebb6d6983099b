//! Where commands come from, one a line.
ghost use Rattle.std.specs.Prelude.{◌≡◌};

use std::io::Input;

/// Lines, of which one at a time is taken.
pub trait LineSource {
    ghost use Rattle.std.specs.Prelude.{ℕ, List, Option, string_bytes};
    ghost use Rattle.std.specs.Option.{option_map};
    ghost use Rattle.tock_look.specs.Lines.{GivesLine};

    /// The lines that are still to come, where the source tells them.
    ghost lines: { Self → Option (List (List ℕ)) };

    /// Takes the next line. None comes where no line is left, and ends a session: no more is known
    /// of the source then.
    fn next_line(&mut self) -> Option<String>
        ensures { GivesLine (lines self.old) (lines self.new) (option_map string_bytes result) };
}

/// The lines of the standard input. One that cannot be read, or has no room in memory, is the end of
/// them.
#[derive(Drop)]
pub struct InputLines<'r, R: Input + AllocGlobal> {
    rt: &'r R,
}

impl<'r, R: Input + AllocGlobal> InputLines<'r, R> {
    /// The lines that are still to be read.
    pub fn new(rt: &'r R) -> InputLines<'r, R> {
        InputLines { rt }
    }
}

impl<'r, R: Input + AllocGlobal> LineSource for InputLines<'r, R> {
    ghost use Rattle.std.specs.Prelude.{None};

    ghost lines = { λ s. None };

    fn next_line(&mut self) -> Option<String> {
        let mut line = String::new(self.rt.alloc());
        match self.rt.read_line(&mut line) {
            Ok(size) if size > 0 => {
                if line.ends_with('\n') {
                    let _end = line.pop();
                }
                Some(line)
            }
            _ => None,
        }
    }
}
