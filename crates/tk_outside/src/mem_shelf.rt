//! A shelf in memory.
ghost use Rattle.std.specs.Prelude.{◌≡◌, ◌≤◌, ◌<◌, ◌+◌, ◌^◌, ◌++◌, length, drop, List, ℕ, [], is_some, IsTrue, IfOk};
ghost use Rattle.std.specs.Prelude.{IsOk, vec_len};
ghost use Rattle.tk_outside.specs.Names.{are_distinct, has_name, rest_at, index_of_name};

use crate::failed::Failed;
use crate::schedule::Schedule;
use crate::shelf::Shelf;
use std::alloc::Global;
use tk_base::NoMemory;

/// Holds files under names. It can be told to give few bytes at a time, and to fail at certain
/// calls. A name that it does not hold is a fault.
#[derive(Drop)]
pub struct MemShelf {
    names: Vec<String>,
    files: Vec<Vec<u8>>,
    most: usize,
    place: usize,
    at: usize,
    schedule: Schedule,
    ghost gives_some: { 1 ≤ most },
    ghost as_many: { vec_len names ≡ vec_len files },
}

/// Whether no two of the names are equal.
pub fn are_distinct(names: &[String]) -> bool
    ensures { result ≡ are_distinct names.now }
{
    match names {
        [] => true,
        [first, rest @ ..] => !has_name(rest, first.as_str()) && are_distinct(rest),
    }
}

/// Whether a name is among names.
fn has_name(names: &[String], name: &str) -> bool
    ensures { result ≡ has_name names.now name.now }
{
    names.iter().any(|n| n.as_str() == name)
}

/// The place of a name among names.
fn place_of(names: &[String], name: &str) -> Option<usize>
    ensures { result ≡ index_of_name names.now name.now }
{
    names.iter().position(|n| n.as_str() == name)
}

/// What follows the first `at` bytes of the file at a place; nothing where there is no such file.
fn rest_at(files: &[Vec<u8>], place: usize, at: usize) -> &[u8]
    ensures rest { result.now ≡ rest_at files.now place at }
    ensures fits { length result.now + at < 2 ^ 64 }
{
    if place >= files.len() {
        return &[];
    }
    let file = files[place].as_slice();
    if at >= file.len() {
        return &[];
    }
    file.split_at(at).1
}

/// Writes the bytes over the front of the slice.
pub(crate) fn copy_front(into: &mut [u8], bytes: &[u8])
    requires { length bytes.now ≤ length into.old }
    ensures { into.new ≡ bytes.now ++ drop (length bytes.now) into.old }
{
    for i in 0..bytes.len() {
        into[i] = bytes[i];
    }
}

impl MemShelf {
    ghost use Rattle.tk_outside.specs.MemShelf.{held_by, IsSoundIn};
    ghost use Rattle.tk_outside.specs.Names.{file_of};

    /// A shelf that holds each file under the name at the same place. No name stands twice. One
    /// read gives at most `most` bytes. The calls whose numbers, from 1, are in `failing` fail;
    /// `begin` and `read` are counted together. No file is begun at first. The vectors are kept as
    /// they are, so no memory is taken.
    pub fn new(
        _alloc: Global,
        names: Vec<String>,
        files: Vec<Vec<u8>>,
        most: usize,
        failing: Vec<u64>,
    ) -> Result<MemShelf, NoMemory>
        requires distinct { IsTrue (are_distinct names.items) }
        requires as_many { vec_len names ≡ vec_len files }
        requires some { 1 ≤ most }
        ensures made { IsOk result }
        ensures bytes { IfOk result (λ s. (held_by s).bytes ≡ file_of names.items files.items) }
        ensures names { IfOk result (λ s. (name : List ℕ) →
            (held_by s).holds name ≡ is_some (index_of_name names.items name)) }
        ensures sound { IfOk result (λ s. (name : List ℕ) →
            IsSoundIn names.items failing.items (held_by s) name) }
        ensures rest { IfOk result (λ s. (held_by s).rest ≡ []) }
        ensures most { IfOk result (λ s. (held_by s).most ≡ most) }
        ensures calls { IfOk result (λ s. (held_by s).counts.calls ≡ 0) }
        ensures failing { IfOk result (λ s. (held_by s).counts.failing ≡ failing.items) }
        ensures faults { IfOk result (λ s. (held_by s).counts.faults ≡ 0) }
    {
        let place = files.len();
        Ok(MemShelf {
            names,
            files,
            most,
            place,
            at: 0,
            schedule: Schedule::new(failing),
        })
    }
}

impl Shelf for MemShelf {
    ghost use Rattle.std.specs.Prelude.{◌≡◌, ◌≤◌, ◌<◌, ◌&&◌, not, length, ℕ, List, is_ok, IfOk, IsOk, OnOk, OnErr};
    ghost use Rattle.std.specs.Prelude.{IsTrue, Some};
    ghost use Rattle.std.specs.Option.{ok_or};
    ghost use Rattle.std.specs.Io.KnownBytes.{Keeps, IsAtEnd};
    ghost use Rattle.tk_outside.specs.Count.{Rose, counted};
    ghost use Rattle.tk_outside.specs.Shelf.{Moves};
    ghost use Rattle.tk_outside.specs.MemShelf.{facts_of, held_by, IsSoundName, HasNoFaultToCome, fails_at_once};
    ghost use Rattle.tk_outside.specs.MemShelf.{given_of};

    ghost tells = { λ s. facts_of (held_by s) };

    ghost rest = { λ s. Some (held_by s).rest };

    ghost in_sound = { λ s. HasNoFaultToCome (held_by s) };

    /// Fails where the call is one of those that are to fail, and at a name that is not held.
    fn begin(&mut self, name: &str) -> Result<(), Failed>
        ensures ok { OnOk result (Keeps ((held_by self.old).bytes name.now)
            (Some (held_by self.new).rest)) }
        ensures err { OnErr result (IsAtEnd (Some (held_by self.new).rest)) }
        ensures failed { OnErr result
            (Rose (held_by self.old).counts.faults (held_by self.new).counts.faults) }
        ensures count { (held_by self.old).counts.faults ≤ (held_by self.new).counts.faults }
        ensures bytes { (held_by self.new).bytes ≡ (held_by self.old).bytes }
        ensures succeeds { IsSoundName (held_by self.old) name.now → IsOk result }
        ensures sound { IsSoundName (held_by self.old) name.now
            → HasNoFaultToCome (held_by self.new) }
        ensures sound_names { (n : List ℕ) →
            IsSoundName (held_by self.old) n → IsSoundName (held_by self.new) n }

        // What no trait says: when it fails, and that calls are counted.
        ensures answer { is_ok result
            ≡ (not (fails_at_once (held_by self.old)) && (held_by self.old).holds name.now) }
        ensures most { (held_by self.new).most ≡ (held_by self.old).most }
        ensures calls { (held_by self.new).counts.calls ≡ counted (held_by self.old).counts.calls }
        ensures failing { (held_by self.new).counts.failing ≡ (held_by self.old).counts.failing }
    {
        self.place = self.files.len();
        self.at = 0;
        if self.schedule.next_fails() {
            return Err(self.schedule.fault());
        }
        match place_of(&self.names, name) {
            Some(place) => {
                self.place = place;
                Ok(())
            }
            None => Err(self.schedule.fault()),
        }
    }

    /// Gives as many bytes as `most`, the rest and the slice allow. Fails where the call is one of
    /// those that are to fail.
    fn read(&mut self, into: &mut [u8]) -> Result<usize, Failed>
        ensures ok { IfOk result (λ n.
            Moves (Some (held_by self.old).rest) (Some (held_by self.new).rest) into.old into.new
            n) }
        ensures err { OnErr result
            (Keeps (Some (held_by self.old).rest) (Some (held_by self.new).rest)) }
        ensures failed { OnErr result
            (Rose (held_by self.old).counts.faults (held_by self.new).counts.faults) }
        ensures count { (held_by self.old).counts.faults ≤ (held_by self.new).counts.faults }
        ensures bytes { (held_by self.new).bytes ≡ (held_by self.old).bytes }
        ensures succeeds { HasNoFaultToCome (held_by self.old) → IsOk result }
        ensures sound { HasNoFaultToCome (held_by self.old) → HasNoFaultToCome (held_by self.new) }
        ensures sound_names { (n : List ℕ) →
            IsSoundName (held_by self.old) n → IsSoundName (held_by self.new) n }

        // What no trait says: how many bytes are given, and that calls are counted.
        ensures given { result ≡ ok_or (given_of (held_by self.old) (length into.old)) record {} }
        ensures most { (held_by self.new).most ≡ (held_by self.old).most }
        ensures calls { (held_by self.new).counts.calls ≡ counted (held_by self.old).counts.calls }
        ensures failing { (held_by self.new).counts.failing ≡ (held_by self.old).counts.failing }
    {
        if self.schedule.next_fails() {
            return Err(self.schedule.fault());
        }
        let rest = rest_at(&self.files, self.place, self.at);
        let given = into.len().min(self.most).min(rest.len());
        copy_front(into, rest.split_at(given).0);
        self.at += given;
        Ok(given)
    }
}
