//! The visit to a request that waits.
ghost use Rattle.std.specs.Prelude.{◌≡◌, Some};
ghost use Rattle.driver_model.specs.Requests.{request_in};
ghost use Rattle.grant_enter.specs.Homes.{own_of, ChangesOnly};
ghost use Rattle.process_seat.specs.Visits.{seen_by};
ghost use Rattle.driver_requests.specs.Asking.{waiting_of};
ghost use Rattle.driver_requests.specs.Visits.{VisitsRequest};

use crate::request::Request;
use grant_enter::{Entered, Grant, Home, Unvisited, Visit, frames_join};
use std::marker::PhantomData;
use tk_base::ProcessId;

/// What a driver does for a request that waits, with what its process has handed to it. A visitor
/// says itself what it asks, what it leaves, and what it answers.
pub trait VisitRequest<R: Request> {
    ghost use Rattle.std.specs.Prelude.{◌≡◌, Option};
    ghost use Rattle.driver_model.specs.Steps.{DriverStep, own_after};
    ghost use Rattle.process_seat.specs.Seen.{Framed, IsLent, Seen, own_entered, seen};

    /// What it answers.
    type Answer;

    /// What it asks of the request and of what it sees.
    ghost asks: { Self → R → Seen → Type 0 };

    /// What it leaves of the process, beside the request, and tells it.
    ghost step: { Self → R → Seen → DriverStep };

    /// What waits of the request still; none where it completes.
    ghost rest: { Self → R → Seen → Option R };

    /// What it says by its answer.
    ghost answers: { Self → R → Seen → Self.Answer → Type 0 };

    /// Visits a request. It answers also what waits of it still.
    fn run(self, request: &R, entered: &mut Entered<'_>) -> (Self::Answer, Option<R>)
        requires lent { IsLent entered.old }
        requires asks { asks self request.now (seen entered.old) }
        ensures answers { answers self request.now (seen entered.old) result.0 }
        ensures rest { result.1 ≡ rest self request.now (seen entered.old) }
        ensures own { own_entered entered.new
            ≡ own_after (step self request.now (seen entered.old)) }
        ensures framed { Framed entered.old entered.new };
}

/// What the visit to a request that waits came to.
#[derive(Drop)]
pub struct Attended<A> {
    /// What the visitor answers.
    pub answer: A,
    /// Whether the request completed: none of it waits still.
    pub completed: bool,
}

/// Visits the request that a process keeps; where it keeps none, the visitor is handed back.
#[derive(Drop)]
struct OfRequest<R, V> {
    visitor: V,
    requests: PhantomData<R>,
}

impl<R: Request, V: VisitRequest<R> + Drop> Visit<R::Value> for OfRequest<R, V> {
    ghost use Rattle.std.specs.Prelude.{IfSome};
    ghost use Rattle.driver_requests.specs.Visits.{ServesWaiting};

    type Answer = Result<Attended<V::Answer>, V>;

    ghost asks = { λ of value seen. IfSome (R.request_kind.told (R.Value.kept value))
        (λ request. V.asks of.visitor request seen) };

    ghost leaves = { λ of value seen answer value' own. ServesWaiting (record {
      kind = R.request_kind;
      visitor = of.visitor;
      step = V.step of.visitor;
      rest = V.rest of.visitor;
      answers = V.answers of.visitor;
    }) seen (R.request_kind.told (R.Value.kept value)) (R.Value.kept value) answer
        (R.Value.kept value') own };

    fn run(
        self,
        value: &mut R::Value,
        entered: &mut Entered<'_>,
    ) -> Result<Attended<V::Answer>, V> {
        frames_join();
        let OfRequest { visitor, .. } = self;
        let Some(request) = R::waiting_in(value) else {
            return Err(visitor);
        };
        let (answer, rest) = visitor.run(&request, entered);
        let completed = rest.is_none();
        match rest {
            Some(rest) => rest.wait_in(value),
            None => R::take_out(value),
        }
        Ok(Attended { answer, completed })
    }
}

/// Visits the request of the process of an id, if it is there and has one. What the visitor leaves
/// by its own contract is then the process's, and what waits of the request still waits there. The
/// visitor is handed back, as it was given, exactly where no request waits; then nothing changes.
/// Nothing of another slot changes.
pub fn visit_request<
    R: Request,
    V: VisitRequest<R> + Drop,
    const UP: usize,
    const RO: usize,
    const RW: usize,
    const UR: usize,
>(
    grants: &Grant<R::Value, UP, RO, RW, UR>,
    home: &mut Home,
    id: ProcessId,
    visitor: V,
) -> Result<Attended<V::Answer>, V>
    requires driver { grants.now.driver ≡ R.request_kind.driver }
    requires asks { let own = own_of home.old id.slot in
        (request : R) → request_in R.request_kind own ≡ Some request
        → V.asks visitor request (seen_by grants.now home.old.flash own) }
    ensures visits { let own = own_of home.old id.slot in
        VisitsRequest (record {
          kind = R.request_kind;
          visitor = visitor;
          step = V.step visitor;
          rest = V.rest visitor;
          answers = V.answers visitor;
        }) (seen_by grants.now home.old.flash own) (waiting_of R.request_kind id.life own) result
        (own_of home.new id.slot) }
    ensures rest { ChangesOnly id.slot home.old home.new }
{
    let of_request = OfRequest {
        visitor,
        requests: PhantomData,
    };
    match grants.visit(home, id, of_request) {
        Ok(answer) => answer,
        Err(Unvisited::NotEntered(OfRequest { visitor, .. })) => Err(visitor),
        Err(Unvisited::Gone(OfRequest { visitor, .. })) => Err(visitor),
    }
}
