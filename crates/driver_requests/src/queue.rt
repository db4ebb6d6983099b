//! The processes that wait for a device.
ghost use Rattle.std.specs.Prelude.{◌≡◌, ◌==◌, [], is_some, None, Some, IfOk, OnErr};
ghost use Rattle.driver_requests.specs.Asking.{MayAskAt, Obeys};
ghost use Rattle.driver_model.specs.Requests.{asking};
ghost use Rattle.driver_requests.specs.Waiting.{first_of, waiting_still, without};

use crate::begin::Begin;
use crate::request::Request;
use crate::service::Service;
use crate::waiting::{Waiting, WaitingList};
use board_devices::Answer;
use grant_enter::{Grant, Home};
use std::marker::{Model, PhantomData};
use syscall_abi::Reply;
use tk_base::{CallRule, NotReady, ProcessId, Slot};

/// The processes whose request of one kind waits for its device, the one that waits longest first.
/// Contracts see the list of their ids.
#[derive(Drop)]
pub struct RequestQueue<R> {
    waiting: WaitingList,
    requests: PhantomData<R>,
}

impl<R> Model for RequestQueue<R> {
    ghost use Rattle.std.specs.Prelude.{List};
    ghost use Rattle.tk_base.specs.declared.process.ProcessId.{ProcessId};

    ghost Value = { List ProcessId };

    ghost view = { λ l. l.waiting };
}

impl<R> RequestQueue<R> {
    /// A line in which none waits.
    pub fn new() -> RequestQueue<R>
        ensures { result ≡ [] }
    {
        RequestQueue {
            waiting: WaitingList::new(),
            requests: PhantomData,
        }
    }

    /// The same again.
    pub fn copied(&self) -> RequestQueue<R>
        ensures { result ≡ self.now }
    {
        RequestQueue {
            waiting: self.waiting.copied(),
            requests: PhantomData,
        }
    }

    /// Those that wait, the one that waits longest first.
    pub fn as_slice(&self) -> &[Waiting]
        ensures { result.now ≡ self.now }
    {
        self.waiting.as_slice()
    }

    /// Whether one waits, or that of the one slot which is served.
    #[inline(always)]
    pub fn has_one(&self, only: Option<Slot>) -> bool
        ensures { result ≡ is_some (first_of only self.now) }
    {
        self.waiting.first(only).is_some()
    }

    /// The process of a slot waits no more. The others keep their order.
    #[inline(always)]
    pub fn leave(&mut self, slot: Slot)
        ensures { self.new ≡ without slot self.old }
    {
        self.waiting.remove(slot);
    }

    /// Whom the device serves: the process that waits longest, or that of the one slot which is
    /// served. [`NotReady`] comes exactly where none waits that is served.
    pub fn first(&self, only: Option<Slot>) -> Result<ProcessId, NotReady>
        ensures first { IfOk result (λ id. first_of only self.now ≡ Some id) }
        ensures none { OnErr result (first_of only self.now ≡ None) }
    {
        self.waiting.first(only).ok_or(NotReady)
    }

    /// The process of an id was served: it waits no more exactly where its request completed. The
    /// others keep their order. The answer is whom the device served, and what it told it.
    pub fn answered(&mut self, id: ProcessId, service: Service) -> Answer
        ensures answer { result ≡ record { to = id; kind = service.kind } }
        ensures waiting { self.new ≡ waiting_still service.completed id.slot self.old }
    {
        let Service { kind, completed } = service;
        if completed {
            self.leave(id.slot);
        }
        Answer { to: id, kind }
    }
}

impl<R: Request + Drop> RequestQueue<R> {
    /// A process makes a request of a driver, which begins to wait in its grant; the process is
    /// then the last in the line. It is refused with [`CallRule::Busy`] where one of its requests
    /// waits there already, else with [`CallRule::NoRoom`] where there is no room for the driver's
    /// grant; then nothing changes. Nothing of another process changes.
    ///
    /// It asks that the process is there, and that it is in the line only where it has a request.
    pub fn ask<const UP: usize, const RO: usize, const RW: usize, const UR: usize>(
        &mut self,
        grants: &Grant<R::Value, UP, RO, RW, UR>,
        home: &mut Home,
        id: ProcessId,
        request: R,
    ) -> Result<Reply, CallRule>
        requires driver { grants.now.driver ≡ R.request_kind.driver }
        requires may { MayAskAt R.request_kind self.old home.old id }
        ensures { Obeys R.request_kind.line id (asking R.request_kind request) self.old home.old
            result self.new home.new }
    {
        home.owns_lie_in_place();
        grants.are_counted();
        let last = id;
        let Ok(begins) = grants.enter(home, id, Begin { request }) else {
            return Err(CallRule::NoRoom);
        };
        if !begins {
            return Err(CallRule::Busy);
        }
        self.waiting.push(last);
        Ok(Reply::Success)
    }
}

impl<R> Default for RequestQueue<R> {
    ghost use Rattle.std.specs.Prelude.{◌≡◌, []};

    ghost is_default = { λ l. l ≡ [] };

    /// A line in which none waits.
    fn default() -> RequestQueue<R> {
        RequestQueue::new()
    }
}
