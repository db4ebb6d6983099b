//! Boards that are kept, so that one may be returned to.
ghost use Rattle.std.specs.Prelude.{◌≡◌, [], ◌∷◌, ◌++◌, IfOk, OnErr, OnOk, is_some, slice_get};
ghost use Rattle.tk_outside.specs.Writes.{Writes};
ghost use Rattle.tock_look.specs.Keeping.{found_line, kept_with, kept_after, returned};

use board_core::Board;
use std::alloc::Global;
use tk_base::NoMemory;
use tk_outside::{Failed, Sink, put_all};

/// A board, and those that are kept, by their places.
#[derive(Drop)]
pub struct Boards {
    pub board: Board,
    pub kept: Vec<Board>,
}

/// Puts a board behind the last that is kept. Where there is no memory, nothing changes.
fn put_last(kept: &mut Vec<Board>, board: Board) -> Result<(), NoMemory>
    ensures kept { OnOk result (kept.new.items ≡ kept.old.items ++ board ∷ []) }
    ensures memory { OnErr result (kept.new.items ≡ kept.old.items) }
{
    match kept.push(board) {
        Ok(()) => Ok(()),
        Err(_) => Err(NoMemory),
    }
}

/// Puts a board at a place of those that are kept: in place of one, or behind the last. Answers
/// whether there is such a place. Where there is no memory, nothing changes.
fn put_at(kept: &mut Vec<Board>, place: usize, board: Board) -> Result<bool, NoMemory>
    ensures found { IfOk result (λ found. found ≡ is_some (kept_with place board kept.old.items)) }
    ensures kept { OnOk result (kept.new.items ≡ kept_after place board kept.old.items) }
    ensures memory { OnErr result (kept.new.items ≡ kept.old.items) }
{
    if place < kept.len() {
        kept[place] = board;
        return Ok(true);
    }
    if place > kept.len() {
        return Ok(false);
    }
    put_last(kept, board)?;
    Ok(true)
}

/// Keeps the board at a place: in place of the one that is kept there, or behind the last. Answers
/// whether there is such a place. Where there is no memory, nothing changes.
pub fn keep(alloc: Global, boards: &mut Boards, place: usize) -> Result<bool, NoMemory>
    ensures found { IfOk result (λ found.
        found ≡ is_some (kept_with place boards.old.board boards.old.kept.items)) }
    ensures board { boards.new.board ≡ boards.old.board }
    ensures kept { OnOk result
        (boards.new.kept.items ≡ kept_after place boards.old.board boards.old.kept.items) }
    ensures memory { OnErr result (boards.new.kept.items ≡ boards.old.kept.items) }
{
    let board = boards.board.copied(alloc)?;
    put_at(&mut boards.kept, place, board)
}

/// The board is as it was kept at a place, if one is. Answers whether one is. Where there is none, or
/// no memory, it is as it was.
pub fn return_to(alloc: Global, boards: &mut Boards, place: usize) -> Result<bool, NoMemory>
    ensures found { IfOk result (λ found. found ≡ is_some (slice_get boards.old.kept.items place)) }
    ensures board { OnOk result
        (boards.new.board ≡ returned place boards.old.kept.items boards.old.board) }
    ensures memory { OnErr result (boards.new.board ≡ boards.old.board) }
    ensures kept { boards.new.kept ≡ boards.old.kept }
{
    let Some(kept) = boards.kept.get(place) else {
        return Ok(false);
    };
    boards.board = kept.copied(alloc)?;
    Ok(true)
}

/// Writes whether a place was found.
pub fn write_found_place<K: Sink>(found: bool, out: &mut K) -> Result<(), Failed>
    ensures { Writes K.tells out.old out.new (found_line found) result }
{
    if found {
        put_all(out, b"= ok\n")
    } else {
        put_all(out, b"= none\n")
    }
}
