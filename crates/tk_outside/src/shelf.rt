//! Named files, of which one at a time is read from its start to its end.
ghost use Rattle.std.specs.Prelude.{◌≡◌, ◌≤◌, List, ℕ, IfOk, IsOk, OnOk, OnErr};
ghost use Rattle.std.specs.Io.KnownBytes.{Keeps, IsAtEnd};
ghost use Rattle.tk_outside.specs.Shelf.{FaultsRose, Moves};

use crate::failed::Failed;

/// A shelf of named files. `begin` opens one, and reads then move its bytes out in order. A read
/// may give fewer bytes than were asked for.
pub trait Shelf {
    ghost use Rattle.std.specs.Prelude.{ℕ, List, Option};
    ghost use Rattle.tk_outside.specs.Shelf.{ShelfFacts};

    /// What the shelf tells: the bytes under each name, which names are sound (beginning and reading
    /// them does not fail), and how many faults there were.
    ghost tells: { Self → ShelfFacts };

    /// The unread rest of the file that was begun, where the shelf tells it.
    ghost rest: { Self → Option (List ℕ) };

    /// The rest is that of a sound name.
    ghost in_sound: { Self → Type 0 };

    /// Begins the file of that name: its bytes become the rest. After a [`Failed`] the rest is
    /// empty; it comes only where the count of faults rose, and not for a sound name.
    fn begin(&mut self, name: &str) -> Result<(), Failed>
        ensures ok { OnOk result (Keeps ((tells self.old).bytes name.now) (rest self.new)) }
        ensures err { OnErr result (IsAtEnd (rest self.new)) }
        ensures failed { OnErr result (FaultsRose tells self.old self.new) }
        ensures count { (tells self.old).faults ≤ (tells self.new).faults }
        ensures bytes { (tells self.new).bytes ≡ (tells self.old).bytes }
        ensures succeeds { (tells self.old).is_sound name.now → IsOk result }
        ensures sound { (tells self.old).is_sound name.now → in_sound self.new }
        ensures sound_names { (n : List ℕ) → (tells self.old).is_sound n
            → (tells self.new).is_sound n };

    /// Moves the first bytes of the rest into the front of the slice, and answers how many. It
    /// answers 0 for a slice that is not empty only at the rest's end. [`Failed`] comes only where
    /// the count of faults rose, and not while a sound name is read; it leaves the rest.
    fn read(&mut self, into: &mut [u8]) -> Result<usize, Failed>
        ensures ok { IfOk result (λ n. Moves (rest self.old) (rest self.new) into.old into.new n) }
        ensures err { OnErr result (Keeps (rest self.old) (rest self.new)) }
        ensures failed { OnErr result (FaultsRose tells self.old self.new) }
        ensures count { (tells self.old).faults ≤ (tells self.new).faults }
        ensures bytes { (tells self.new).bytes ≡ (tells self.old).bytes }
        ensures succeeds { in_sound self.old → IsOk result }
        ensures sound { in_sound self.old → in_sound self.new }
        ensures sound_names { (n : List ℕ) → (tells self.old).is_sound n
            → (tells self.new).is_sound n };
}
