//! The visit in which a request begins to wait.
use crate::request::Request;
use grant_enter::{Entered, Visit, frames_join};

/// Has a request begin to wait, where none waits already. It answers whether it does.
#[derive(Drop)]
pub(crate) struct Begin<R> {
    pub request: R,
}

impl<R: Request + Drop> Visit<R::Value> for Begin<R> {
    ghost use Rattle.std.specs.Prelude.{◌≡◌};
    ghost use Rattle.driver_requests.specs.Begins.{Begins};

    type Answer = bool;

    ghost asks = { λ begin value seen. Unit {0} };

    ghost leaves = { λ begin value seen answer value' own.
        Begins R.request_kind (R.request_kind.told (R.Value.kept value)) begin.request
        (R.Value.kept value) answer (R.Value.kept value') × (own ≡ seen.own) };

    fn run(self, value: &mut R::Value, _entered: &mut Entered<'_>) -> bool {
        frames_join();
        if R::waiting_in(value).is_some() {
            return false;
        }
        self.request.wait_in(value);
        true
    }
}
