//! The request of the process that waits longest.
ghost use Rattle.driver_model.specs.Lines.{IsWithin};
ghost use Rattle.grant_enter.specs.Homes.{own_of};
ghost use Rattle.driver_requests.specs.Answers.{IsAnswered};
ghost use Rattle.driver_requests.specs.Asking.{MayBeTold};
ghost use Rattle.storage_capsule.specs.Answers.{answer_to};

use crate::visits::{Transfer, storages};
use board_devices::{Kind, Stores};
use driver_requests::{Service, visit_request};
use grant_enter::Home;
use tk_base::ProcessId;

/// Serves the request of a process, if it is there and has one: whether bytes are moved, and
/// whether the request completed.
#[tactic(auto, unfolding(driver_model::specs::Storage::answered))]
pub(crate) fn serve(home: &mut Home, id: &ProcessId, stores: &mut Stores) -> Service
    requires told { MayBeTold home.old id.now }
    requires within { IsWithin stores.old.size (own_of home.old id.now.slot) }
    ensures { IsAnswered (answer_to stores.old home.old id.now) id.now home.old result stores.new
        home.new }
{
    let kind = Kind::Stored(!stores.fails_next(id.slot));
    let transfer = Transfer {
        stores,
        slot: id.slot,
    };
    match visit_request(&storages(), home, *id, transfer) {
        Ok(attended) => {
            let completed = attended.completed;
            let _stores = attended.answer;
            Service { kind, completed }
        }
        Err(
            Transfer {
                stores: _stores,
                ..
            },
        ) => Service {
            kind,
            completed: false,
        },
    }
}
