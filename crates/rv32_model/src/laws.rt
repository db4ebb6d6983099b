//! What holds of the instruction tables and of every turn. The functions do nothing: each stands for
//! the law that it ensures.
ghost use Rattle.rv32_model.specs.Laws.{NoParcelFitsTwoRows};
ghost use Rattle.rv32_model.specs.Laws.{NoWordFitsTwoRows, AccessesArePermitted, CallsAreOfEcall, DataIsAligned};
ghost use Rattle.rv32_model.specs.Laws.{DenialsAreDue, DeniedTurnsChangeNothing, OnlyStoresWrite, SeesOnlyPermitted};
ghost use Rattle.rv32_model.specs.Laws.{WritesAreListed, WritesArePermitted};
ghost use Rattle.rv32_model.specs.Stretch.{NoneGoes, OneIsTheTurn, OneMoreGoes, StoppedTurnsChangeNothing};
ghost use Rattle.rv32_model.specs.Stretch.{StoppedTurnsStop};

/// No word fits two rows of the instruction table.
#[tactic(auto, using(crate::proofs::Rows::no_word_fits_two_rows))]
pub fn no_word_fits_two_rows()
    ensures { NoWordFitsTwoRows }
{}

/// No parcel fits two rows of the table of compressed instructions.
#[tactic(auto, using(crate::proofs::Parcels::no_parcel_fits_two_rows))]
pub fn no_parcel_fits_two_rows()
    ensures { NoParcelFitsTwoRows }
{}

/// Each access that a turn lists is permitted.
#[tactic(auto, using(crate::proofs::Turns::accesses_are_permitted))]
pub fn accesses_are_permitted()
    ensures { AccessesArePermitted }
{}

/// Each load and store that a turn lists is at a multiple of its width.
#[tactic(auto, using(crate::proofs::Turns::data_is_aligned))]
pub fn data_is_aligned()
    ensures { DataIsAligned }
{}

/// What a denied turn is denied for is so: a parcel at pc that may not be fetched, or the one after it where the first
/// is half an instruction; or the instruction at pc, where no row fits it, where it is EBREAK, or where it loads or
/// stores what it may not, of the width that it tries. A turn that ends in a system call is one of ECALL, leaves the
/// registers and writes nothing.
pub fn denials_are_due()
    ensures denials { DenialsAreDue }
    ensures calls { CallsAreOfEcall }
{}

/// A denied turn changes neither registers nor bytes, and lists no access.
#[tactic(auto, using(crate::proofs::Turns::denied_turns_change_nothing))]
pub fn denied_turns_change_nothing()
    ensures { DeniedTurnsChangeNothing }
{}

/// A byte that no store of the turn covers is as it was.
#[tactic(auto, using(crate::proofs::Turns::only_stores_write))]
pub fn only_stores_write()
    ensures { OnlyStoresWrite }
{}

/// What a turn writes it may store.
#[tactic(auto, using(crate::proofs::Turns::writes_are_permitted))]
pub fn writes_are_permitted()
    ensures { WritesArePermitted }
{}

/// A turn that writes goes, and what it writes is covered by a store that it lists.
pub fn writes_are_listed()
    ensures { WritesAreListed }
{}

/// A turn sees nothing but what it may access.
#[tactic(auto, using(crate::proofs::Sight::sees_only_permitted))]
pub fn sees_only_permitted()
    ensures { SeesOnlyPermitted }
{}

/// A turn that does not go, since it makes a system call or is denied, changes neither registers nor bytes.
#[tactic(auto, using(crate::proofs::Turns::stopped_turns_change_nothing))]
pub fn stopped_turns_change_nothing()
    ensures { StoppedTurnsChangeNothing }
{}

/// How turns that follow one another go on: none leads nowhere, one that goes is one more, and one that does not go is
/// where they stop.
#[tactic(auto, using(crate::proofs::Stretch::none_goes, crate::proofs::Stretch::one_more_goes, crate::proofs::Stretch::stopped_turns_stop))]
pub fn turns_follow()
    ensures none { NoneGoes }
    ensures more { OneMoreGoes }
    ensures stop { StoppedTurnsStop }
{}

/// At most one turn is the turn.
#[tactic(auto, using(crate::proofs::Stretch::one_is_the_turn))]
pub fn one_is_the_turn()
    ensures { OneIsTheTurn }
{}
