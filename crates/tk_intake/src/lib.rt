//! Reading a whole file, up to a limit.
#![tactic(auto)]

ghost use Rattle.std.specs.Prelude.{◌≡◌, ◌≤◌, ◌<◌, ◌+◌, ◌↔◌, ℕ, List, vec_len, Err, IfOk, IsTrue, IsOkUnless};
ghost use Rattle.tk_outside.specs.Shelf.{FaultsRose};
ghost use Rattle.tk_intake.specs.Intake.{AreAllOf, IsLonger, IfSoundAndLonger, IfCalmAndLonger, IfSoundAndWithin};
ghost use Rattle.tk_intake.specs.Intake.{IsTooLong};

use std::alloc::Global;
use thiserror::Error;
use tk_outside::Shelf;

/// Why a file was not read.
#[derive(Clone, Copy, Debug, PartialEq, Eq, Error)]
pub enum IntakeError {
    /// Beginning the file or reading it failed.
    #[error("the file could not be read")]
    Failed,
    /// The file has more bytes than the limit.
    #[error("the file is too long")]
    TooLong,
    /// There was no memory for the file.
    #[error("out of memory")]
    Memory,
}

/// How many bytes are asked for at a time.
const BUFFER_LEN: usize = 4096;

/// Whether so many bytes more are past a limit that what is held is within.
fn is_past(limit: usize, held: usize, more: usize) -> bool
    requires { held ≤ limit }
    ensures { IsTrue result ↔ (limit < held + more) }
{
    more > limit - held
}

/// All bytes of the file of that name, of which there are at most `limit`. A read that gives few
/// bytes does not end the reading; only one that gives none does. No byte is handed out on a
/// refusal.
///
/// [`IntakeError::Failed`] where the shelf failed, [`IntakeError::TooLong`] where the file has more
/// than `limit` bytes, [`IntakeError::Memory`] where there was no memory.
pub fn read_whole<H: Shelf>(
    alloc: Global,
    shelf: &mut H,
    name: &str,
    limit: usize,
) -> Result<Vec<u8>, IntakeError>
    // What is read is the whole file, and within the limit.
    ensures whole { IfOk result (λ v. AreAllOf (H.tells shelf.old) name.now v.items) }
    ensures within { IfOk result (λ v. vec_len v ≤ limit) }

    // Each refusal has its cause.
    ensures failed { (result ≡ Err IntakeError.Failed) → FaultsRose H.tells shelf.old shelf.new }
    ensures failed_unsound { (result ≡ Err IntakeError.Failed)
        → ¬ (H.tells shelf.old).is_sound name.now }
    ensures too_long { (result ≡ Err IntakeError.TooLong)
        → IsLonger (H.tells shelf.old) name.now limit }

    // Want of memory aside, a longer file is refused as too long, and a file within the limit is read.
    ensures longer { IfSoundAndLonger (H.tells shelf.old) name.now limit (IsTooLong result) }
    ensures longer_unfailed { IfCalmAndLonger H.tells shelf.old shelf.new name.now limit
        (IsTooLong result) }
    ensures read { IfSoundAndWithin (H.tells shelf.old) name.now limit
        (IsOkUnless result IntakeError.Memory) }

    // What stays.
    ensures bytes { (H.tells shelf.new).bytes ≡ (H.tells shelf.old).bytes }
    ensures sound_names { (n : List ℕ) → (H.tells shelf.old).is_sound n
        → (H.tells shelf.new).is_sound n }
    ensures count { (H.tells shelf.old).faults ≤ (H.tells shelf.new).faults }
{
    if shelf.begin(name).is_err() {
        return Err(IntakeError::Failed);
    }
    let mut bytes = Vec::new(alloc);
    let mut buffer = [0u8; BUFFER_LEN];
    loop {
        let Ok(given) = shelf.read(&mut buffer) else {
            return Err(IntakeError::Failed);
        };
        if given == 0 {
            return Ok(bytes);
        }
        if is_past(limit, bytes.len(), given) {
            return Err(IntakeError::TooLong);
        }
        if bytes.extend_from_slice(buffer.split_at(given).0).is_err() {
            return Err(IntakeError::Memory);
        }
    }
}
