//! Laws of the definitions, each the contract of a function that does nothing.
ghost use Rattle.flash_walk.specs.Laws.{ObjectsAreFound};

/// Each object of a flash image of at most [`FLASH_LIMIT`](tk_base::FLASH_LIMIT) bytes lies in flash,
/// from a multiple of 4 on, has the size that its header says and the verdict on its own bytes; there
/// are at most [`tk_base::OBJECT_LIMIT`] of them.
pub fn objects_are_found()
    ensures { ObjectsAreFound }
{}
