//! What the source does with the value that a process keeps for it.
ghost use Rattle.std.specs.Prelude.{◌≡◌, ◌+◌, ◌-◌, ◌<◌, ◌≤◌, ◌^◌};
ghost use Rattle.process_seat.specs.Seen.{Framed, IsLent, own_entered};
ghost use Rattle.grant_values.specs.declared.drivers.Driver.TheVariants.{Random as RandomDriver};
ghost use Rattle.grant_values.specs.Drivers.{counts_by};
ghost use Rattle.driver_model.specs.Random.{completing, drawing, progress, random, wanted};
ghost use Rattle.random_capsule.specs.Steps.{MayBeServed, Progresses};

use driver_requests::VisitRequest;
use grant_enter::{Entered, Grant, a_buffer_is_written, buffers_are_whole, frames_join};
use grant_values::{Driver, Random, RandomRequest};

/// Bytes of a word.
const WORD: u32 = 4;

/// How upcall 0 tells that all bytes that were wanted are written.
const WRITTEN: u32 = 0;

/// How it tells that no word was left.
const NO_WORD: u32 = 1;

/// The grants that processes keep for the source: one upcall, and one read-write buffer.
pub(crate) type Randoms = Grant<Random, 1, 0, 1, 0>;

/// Those that there are.
#[tactic(auto, unfolding(grant_values::specs::Drivers::counts_of, grant_values::specs::Drivers::drivers))]
pub(crate) fn randoms() -> Randoms
    ensures driver { result.driver ≡ random }
    ensures counts { result.counts ≡ counts_by RandomDriver }
{
    Randoms::of(Driver::Random.number())
}

/// What a step of a request came to.
#[derive(Clone, Copy)]
struct Step {
    /// What waits of it still; None where it completed.
    rest: Option<RandomRequest>,
    /// The word that was drawn for it, if one was.
    drawn: Option<u32>,
}

/// Takes a step of the request that waits, with the next word, where one is left. It answers the
/// word that was drawn, if one was.
#[derive(Drop)]
pub(crate) struct Advance {
    pub word: Option<u32>,
}

impl VisitRequest<RandomRequest> for Advance {
    ghost use Rattle.std.specs.Prelude.{◌≡◌, ◌+◌, ◌<◌, ◌^◌};
    ghost use Rattle.driver_model.specs.Random.{progress};

    type Answer = Option<u32>;

    ghost asks = { λ advance request seen. (seen.driver ≡ random) × (0 < seen.counts.upcalls)
        × (0 < seen.counts.rw) × (seen.own.inbox.dropped + 1 < 2 ^ 32) };

    ghost step = { λ advance request seen. (progress advance.word request seen.own).step };

    ghost rest = { λ advance request seen. (progress advance.word request seen.own).rest };

    ghost answers = { λ advance request seen drawn.
        drawn ≡ (progress advance.word request seen.own).drawn };

    fn run(
        self,
        request: &RandomRequest,
        entered: &mut Entered<'_>,
    ) -> (Option<u32>, Option<RandomRequest>) {
        let Step { rest, drawn } = take_step(entered, request, self.word);
        (drawn, rest)
    }
}

/// How many bytes a request gets.
fn wanted(entered: &mut Entered<'_>, request: &RandomRequest) -> u32
    requires { MayBeServed entered.old }
    ensures count { result ≡ wanted request.now (own_entered entered.old) }
    ensures own { own_entered entered.new ≡ own_entered entered.old }
    // what a visitor owes
    ensures lent { IsLent entered.new }
    ensures framed { Framed entered.old entered.new }
{
    a_buffer_is_written();
    buffers_are_whole();
    let length = entered.read_write(0).len();
    (request.count as usize).min(length) as u32
}

/// A request completes.
fn complete(entered: &mut Entered<'_>, drawn: Option<u32>, outcome: u32, bytes: u32) -> Step
    requires { MayBeServed entered.old }
    ensures step { Progresses (completing drawn outcome bytes (own_entered entered.old))
        result (own_entered entered.new) }
    // what a visitor owes
    ensures lent { IsLent entered.new }
    ensures framed { Framed entered.old entered.new }
{
    entered.schedule(0, [outcome, bytes, 0]);
    Step { rest: None, drawn }
}

/// A word is drawn for a request that wants so many bytes more.
fn draw(entered: &mut Entered<'_>, request: &RandomRequest, left: u32, word: u32) -> Step
    requires may { MayBeServed entered.old }
    requires left { request.now.written + left < 2 ^ 32 }
    ensures step { Progresses (drawing left request.now (own_entered entered.old) (Some word))
        result (own_entered entered.new) }
    // what a visitor owes
    ensures lent { IsLent entered.new }
    ensures framed { Framed entered.old entered.new }
{
    frames_join();
    let bytes = word.to_le_bytes();
    let (part, _) = bytes.split_at(WORD.min(left) as usize);
    entered.write(0, request.written, part);
    if left <= WORD {
        return complete(entered, Some(word), WRITTEN, request.written + left);
    }
    Step {
        rest: Some(RandomRequest {
            count: request.count,
            written: request.written + WORD,
        }),
        drawn: Some(word),
    }
}

/// One step of a request, with the next word, where one is left.
fn take_step(entered: &mut Entered<'_>, request: &RandomRequest, word: Option<u32>) -> Step
    requires { MayBeServed entered.old }
    ensures step { Progresses (progress word request.now (own_entered entered.old))
        result (own_entered entered.new) }
    // what a visitor owes
    ensures lent { IsLent entered.new }
    ensures framed { Framed entered.old entered.new }
{
    frames_join();
    let wanted = wanted(entered, request);
    if wanted <= request.written {
        return complete(entered, None, WRITTEN, request.written);
    }
    match word {
        Some(word) => draw(entered, request, wanted - request.written, word),
        None => complete(entered, None, NO_WORD, request.written),
    }
}
