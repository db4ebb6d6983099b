//! Laws of the definitions, each the contract of a function that does nothing.
ghost use Rattle.image_make.specs.Decoded.{WordsAreDecoded};
ghost use Rattle.image_make.specs.Edited.{EnabledIsWalked, GivenIsWalked};
ghost use Rattle.image_make.specs.Packs.{ObjectsMoveAlike, PackIsWalked, PackKeepsContents};
ghost use Rattle.image_make.specs.Laws.{ChecksumOfPut, FlagsAreRead, NamesAreRead, OneObjectChanges, PackedIsWalked};
ghost use Rattle.image_make.specs.Laws.{MovedVerdict};

use flash_walk::objects_are_found;
use tk_base::a_store_is_put;

/// Other flags leave the reading of an object as it was, but for the flags.
pub fn flags_are_read()
    ensures { FlagsAreRead }
{
    a_store_is_put();
}

/// Another package name leaves the reading of an object as it was, but for the name.
pub fn names_are_read()
    ensures { NamesAreRead }
{
    a_store_is_put();
}

/// Where an object gets other bytes of its size, the walk is as before but for its verdict.
pub fn one_object_changes()
    ensures { OneObjectChanges }
{}

/// The walk over packed files is the walk over one after another.
pub fn packed_is_walked()
    ensures { PackedIsWalked }
{}

/// A move by a multiple of 4 changes a verdict only to or from WrongFlash.
pub fn verdicts_move()
    ensures { MovedVerdict }
{}

/// What enabling or disabling an object leaves of an image.
pub fn enabled_is_walked()
    ensures { EnabledIsWalked }
{
    a_store_is_put();
}

/// What another name of an object leaves of an image.
pub fn given_is_walked()
    ensures { GivenIsWalked }
{
    a_store_is_put();
}

/// The walk over packed files is the walks over each of them, one after another.
pub fn pack_is_walked()
    ensures { PackIsWalked }
{}

/// The objects of what is packed have exactly the bytes of the files' objects, one file after another.
pub fn pack_keeps_contents()
    ensures { PackKeepsContents }
{}

/// The objects of a file keep their verdicts where the file is packed, but to or from WrongFlash.
pub fn objects_move_alike()
    ensures { ObjectsMoveAlike }
{
    objects_are_found();
}

/// The checksum of a header with another word, by the words that were and are there.
pub fn checksum_of_put()
    ensures { ChecksumOfPut }
{
    a_store_is_put();
}

/// The word of each instruction of the programs is decoded to what the instruction means.
#[tactic(auto, using(crate::proofs::Words::words_are_decoded))]
pub fn words_are_decoded()
    ensures { WordsAreDecoded }
{}
