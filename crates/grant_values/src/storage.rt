//! The storage's value.
ghost use Rattle.std.specs.Prelude.{◌≡◌, ◌≤◌};
ghost use Rattle.grant_values.specs.Storage.{kind_of, kind_word};

use crate::value::GrantValue;
use crate::words::{put_words, word_at};

/// What a storage request asks for.
#[derive(Clone, Copy, Debug, PartialEq, Eq)]
pub enum StorageKind {
    /// Bytes of the storage are to be read.
    Read,
    /// Bytes of the storage are to be written.
    Write,
}

impl StorageKind {
    /// The word that stands for the kind: 1 for a read, 2 for a write.
    fn word(self) -> u32
        ensures { result ≡ kind_word self }
    {
        match self {
            StorageKind::Read => 1,
            StorageKind::Write => 2,
        }
    }

    /// The kind for which a word stands that is not 0: any above 1 is a write.
    fn of(word: u32) -> StorageKind
        ensures { result ≡ kind_of word }
    {
        if word == 1 {
            StorageKind::Read
        } else {
            StorageKind::Write
        }
    }
}

/// A storage request that waits.
#[derive(Clone, Copy, Debug, PartialEq, Eq)]
pub struct StorageRequest {
    pub kind: StorageKind,
    /// The first byte of the slot's storage that is asked for.
    pub offset: u32,
    /// How many bytes.
    pub length: u32,
}

/// What the storage keeps of a process: its request, where one waits.
#[derive(Clone, Copy, Debug, PartialEq, Eq)]
pub struct Storage {
    pub request: Option<StorageRequest>,
}

impl GrantValue for Storage {
    ghost use Rattle.std.specs.Prelude.{refl};
    ghost use Rattle.grant_values.specs.declared.drivers.Driver.TheVariants as of;
    ghost use Rattle.grant_values.specs.Values.{StorageValue};
    ghost use Rattle.grant_values.specs.Kept.{storage_in};

    const SIZE: u32 = 24;

    ghost SIZE = { 24 };

    ghost count = { 6 };

    ghost driver = { of.Storage };

    ghost kept = { λ storage. StorageValue storage.request };

    ghost value_of = { storage_in };

    ghost tells = { λ value. refl };

    #[tactic(auto, unfolding(crate::specs::Words::words_of))]
    fn fresh() -> Self {
        Storage { request: None }
    }

    fn put(&self, into: &mut [u8]) {
        put_words(
            into,
            &[
                self.request.map_or(0, |request| request.kind.word()),
                self.request.map_or(0, |request| request.offset),
                self.request.map_or(0, |request| request.length),
                0,
                0,
                0,
            ],
        );
    }

    /// A request waits exactly where the first word is not 0: a read where it is 1, else a write.
    fn take(from: &[u8]) -> Self {
        let (words, _) = from.split_at(Self::SIZE as usize);
        let kind = word_at(words, 0);
        if kind == 0 {
            return Storage { request: None };
        }
        Storage {
            request: Some(StorageRequest {
                kind: StorageKind::of(kind),
                offset: word_at(words, 1),
                length: word_at(words, 2),
            }),
        }
    }

    ghost whole = { refl };
}
