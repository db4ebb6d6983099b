//! The source of random bytes, and who waits for it.
ghost use Rattle.std.specs.Prelude.{◌≡◌, None, IfSome, OnErr};
ghost use Rattle.driver_model.specs.Commands.{by_number, Randoms};
ghost use Rattle.driver_model.specs.Random.{commands, randoms as request_kind};
ghost use Rattle.driver_requests.specs.Answers.{AnswersFirst};
ghost use Rattle.driver_requests.specs.Waiting.{first_of, without};
ghost use Rattle.driver_requests.specs.Asking.{MayAskAt, MayBeTold, Obeys, Replies};
ghost use Rattle.random_capsule.specs.Answers.{random_answer_to};

use crate::steps::serve;
use crate::visits::randoms;
use board_devices::{Answer, Words};
use driver_requests::RequestQueue;
use grant_enter::Home;
use grant_values::RandomRequest;
use syscall_abi::{Reply, reply_of};
use tk_base::{CallRule, NotReady, ProcessId, Slot};

/// The source of random bytes.
#[derive(Default, Drop)]
pub struct RandomCapsule {
    /// The processes that wait for it.
    pub waiting: RequestQueue<RandomRequest>,
}

impl RandomCapsule {
    /// The same again.
    pub fn copied(&self) -> RandomCapsule
        ensures { result ≡ self.now }
    {
        RandomCapsule {
            waiting: self.waiting.copied(),
        }
    }

    /// A command of the process of an id to the source: the reply, or the rule that refuses it.
    #[tactic(auto, unfolding(driver_model::specs::Random::commands))]
    fn obey(
        &mut self,
        home: &mut Home,
        id: ProcessId,
        number: u32,
        count: u32,
    ) -> Result<Reply, CallRule>
        requires { MayAskAt request_kind self.old.waiting home.old id }
        ensures { Obeys Randoms id (by_number (commands count) number) self.old.waiting home.old
            result self.new.waiting home.new }
    {
        match number {
            0 => Ok(Reply::Success),
            1 => {
                let request = RandomRequest { count, written: 0 };
                self.waiting.ask(&randoms(), home, id, request)
            }
            _ => Err(CallRule::NoCommand),
        }
    }

    /// Serves a command of the process of an id to the source: the reply, and the rule that refuses
    /// it, if one does. 0 asks whether the driver is there. 1 asks for `count` bytes; the process
    /// then waits, after all others; it is refused with [`CallRule::Busy`] where one of its
    /// requests waits already, else with [`CallRule::NoRoom`] where there is no room for its grant.
    /// Any other number is refused with [`CallRule::NoCommand`]. Nothing of another process
    /// changes, and nothing at all where it is refused.
    ///
    /// It asks that the process is there, and that it waits only where it has a request.
    pub fn command(
        &mut self,
        home: &mut Home,
        id: ProcessId,
        number: u32,
        count: u32,
    ) -> (Reply, Option<CallRule>)
        requires { MayAskAt request_kind self.old.waiting home.old id }
        ensures { Replies Randoms id (by_number (commands count) number) self.old.waiting home.old
            result self.new.waiting home.new }
    {
        reply_of(self.obey(home, id, number, count))
    }

    /// Answers the process that waits longest, or that of the one slot which is served: a step of its
    /// request, with the next word where it takes one. The process waits no more exactly where its
    /// request completed. Nothing of it changes where it is not there in that life, or has no request;
    /// and nothing of another slot. The answer is whom it served, and what it told it: the word that
    /// was drawn, or that none was. [`NotReady`] comes exactly where none waits that is served, and
    /// then nothing changes.
    ///
    /// It asks that the slot of whom it serves is one of the home's, and that its count of dropped
    /// upcalls has room for one more.
    pub fn answer(
        &mut self,
        home: &mut Home,
        words: &mut Words,
        only: Option<Slot>,
    ) -> Result<Answer, NotReady>
        requires { IfSome (first_of only self.old.waiting) (MayBeTold home.old) }
        ensures none { OnErr result (first_of only self.old.waiting ≡ None) }
        ensures answers { AnswersFirst only (random_answer_to words.old home.old) self.old.waiting words.old
            home.old result self.new.waiting words.new home.new }
    {
        let id = self.waiting.first(only)?;
        let service = serve(home, &id, words);
        Ok(self.waiting.answered(id, service))
    }

    /// The process of an id ended, or starts again: no request of it waits any more. The others
    /// keep their order.
    #[inline(always)]
    pub fn gone(&mut self, id: ProcessId)
        ensures { self.new.waiting ≡ without id.slot self.old.waiting }
    {
        self.waiting.leave(id.slot);
    }
}
