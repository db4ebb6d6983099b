//! The files and the standard output of the operating system. What the system does is trusted:
//! these tell no bytes and call no name sound.
ghost use Rattle.std.specs.Prelude.{◌≡◌, ◌≤◌};

use crate::failed::Failed;
use crate::mem_shelf::copy_front;
use crate::shelf::Shelf;
use crate::sink::Sink;
use std::fs::File;
use std::io::Read;
use std::rt::Files;

/// How many bytes are asked of the system at a time.
const BUFFER_LEN: usize = 4096;

/// The files of the system, by their paths. An error of any kind is a fault, as one at a path
/// where no file is, at a directory, or for want of memory.
#[derive(Drop)]
pub struct FileShelf<'r, R: Files> {
    rt: &'r R,
    file: Option<R::File>,
    buffer: [u8; BUFFER_LEN],
    start: usize,
    end: usize,
    faults: u64,
    ghost ordered: { start ≤ end },
    ghost within: { end ≤ 4096 },
}

impl<'r, R: Files> FileShelf<'r, R> {
    /// A shelf over the system's files. No file is begun at first.
    pub fn new(rt: &'r R) -> FileShelf<'r, R>
        ensures { (⟦<FileShelf<'r, R> as Shelf>⟧.tells result).faults ≡ 0 }
    {
        FileShelf {
            rt,
            file: None,
            buffer: [0; BUFFER_LEN],
            start: 0,
            end: 0,
            faults: 0,
        }
    }
}

impl<'r, R: Files> Shelf for FileShelf<'r, R> {
    ghost use Rattle.std.specs.Prelude.{None};

    ghost tells = { λ s. record { bytes = λ _. None; is_sound = λ _. ⊥; faults = s.faults } };

    ghost rest = { λ _. None };

    ghost in_sound = { λ _. ⊥ };

    fn begin(&mut self, name: &str) -> Result<(), Failed> {
        self.start = 0;
        self.end = 0;
        self.file = None;
        match File::open(self.rt, name) {
            Ok(file) => {
                self.file = Some(file);
                Ok(())
            }
            Err(_) => {
                self.faults = self.faults.saturating_add(1);
                Err(Failed)
            }
        }
    }

    fn read(&mut self, into: &mut [u8]) -> Result<usize, Failed> {
        if self.start == self.end {
            let Some(file) = &mut self.file else {
                return Ok(0);
            };
            match file.read(&mut self.buffer) {
                Ok(got) => {
                    self.start = 0;
                    self.end = got;
                }
                Err(_) => {
                    self.faults = self.faults.saturating_add(1);
                    return Err(Failed);
                }
            }
        }
        let given = into.len().min(self.end - self.start);
        copy_front(into, &self.buffer[self.start..self.start + given]);
        self.start += given;
        Ok(given)
    }
}

/// The standard output. An error, or a write that takes nothing of a piece that is not empty, is a
/// fault.
#[derive(Drop)]
pub struct OutSink<'r, R: Print> {
    rt: &'r R,
    faults: u64,
}

impl<'r, R: Print> OutSink<'r, R> {
    /// A sink over the standard output.
    pub fn new(rt: &'r R) -> OutSink<'r, R>
        ensures { (⟦<OutSink<'r, R> as Sink>⟧.tells result).faults ≡ 0 }
    {
        OutSink { rt, faults: 0 }
    }
}

impl<'r, R: Print> Sink for OutSink<'r, R> {
    ghost use Rattle.std.specs.Prelude.{None};

    ghost tells = { λ s. record { written = None; faults = s.faults } };

    fn write(&mut self, piece: &[u8]) -> Result<usize, Failed> {
        match self.rt.write_some(piece) {
            Ok(taken) if taken > 0 || piece.is_empty() => Ok(taken),
            _ => {
                self.faults = self.faults.saturating_add(1);
                Err(Failed)
            }
        }
    }
}
