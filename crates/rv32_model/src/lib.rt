//! What an instruction means, and what the interpreter of instructions is generic in. The instructions
//! stand here as values, and in `specs/` the table of their bits, their effects and one whole turn of a
//! process in user mode, with the laws of both. The traits are the memory that is fetched from, and what
//! is done with an instruction once its bits are known.
#![tactic(auto)]

mod as_value;
mod fetch_ahead;
mod handler;
mod instr;
mod laws;
mod turn_end;

pub use as_value::ToInstr;
pub use fetch_ahead::Prefetch;
pub use handler::InstrVisitor;
pub use instr::{BranchTest, Instr, LoadKind, Op};
pub use laws::{
    accesses_are_permitted, data_is_aligned, denials_are_due, denied_turns_change_nothing,
    no_parcel_fits_two_rows, no_word_fits_two_rows, one_is_the_turn, only_stores_write,
    sees_only_permitted, stopped_turns_change_nothing, turns_follow, writes_are_listed,
    writes_are_permitted,
};
pub use turn_end::TurnEnd;
