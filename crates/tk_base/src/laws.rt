//! Laws of the definitions, each the contract of a function that does nothing.
ghost use Rattle.tk_base.specs.Bits.{EachFlagIsItsBit, OneBitIsSet, SetWithItsBit};
ghost use Rattle.tk_base.specs.Laws.{AStoreIsPut};

/// A store that lies in a list of bytes is the value put at its place.
pub fn a_store_is_put()
    ensures { AStoreIsPut }
{}

/// Each flag of a list is its bit of their number, and to set it is to set that bit.
#[tactic(auto, using(crate::proofs::Bits::flag_is, crate::proofs::Bits::set_with_its_bit))]
pub fn flags_are_bits()
    ensures told { EachFlagIsItsBit }
    ensures set { SetWithItsBit }
{}

/// Of the bits of a number with one set, that one is as it was set, and all others are as they
/// were.
#[tactic(auto, using(crate::proofs::Bits::one_bit_is_set))]
pub fn one_bit_is_set()
    ensures { OneBitIsSet }
{}
