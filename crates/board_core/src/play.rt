//! Choices from outside, one after another.
ghost use Rattle.board_core.specs.Following.{ProcessesFollowTheirOwnEvents};
ghost use Rattle.board_core.specs.Plays.{Plays, playing};

use crate::board::Board;
use kernel_histories::each_edge_comes_once;
use kernel_model::a_record_is_the_replay_of_its_events;
use kernel_partitions::a_partition_sees_itself_alone;
use process_record::Emit;
use tk_base::Choice;
use tk_outside::{Sink, put_all, writes_compose};

/// Why a list of choices was not made to its end.
#[derive(Clone, Copy, Debug, PartialEq, Eq)]
pub enum PlayEnd {
    /// The choice at this place was not ready. Those before it were made, and what they printed was
    /// written.
    NotReady(usize),
    /// What the last choice made had printed could not be written whole: the sink failed.
    Failed,
}

impl Board {
    /// Makes the choices of a list, one after another, and writes what the processes print. Whoever
    /// calls it decides whose turn it is, and when devices act: the board's processes and devices
    /// may be interleaved in any way.
    ///
    /// `NotReady` comes exactly where a choice is not ready in its turn, with the place of the
    /// first such one: the board then shows the world after those before it, and all that they
    /// printed was written. `Failed` comes only where the sink's count of faults rose; what was
    /// written is a front of what the choices made print, and they are as few as print more than
    /// that. No memory is taken. Clause `each` says of each process by itself what the choices lead to
    /// ([`processes_follow_their_own_events`]).
    pub fn play<K: Sink>(&mut self, choices: &[Choice], out: &mut K) -> Result<(), PlayEnd>
        ensures plays { Plays K.tells choices.now (playing self.old out.old) (playing self.new out.new)
            result }
        ensures each { ProcessesFollowTheirOwnEvents }
    {
        writes_compose::<K>();
        processes_follow_their_own_events();
        let mut emit = Emit::new();
        for (place, choice) in choices.iter().enumerate() {
            let Ok(()) = self.step(*choice, &mut emit) else {
                return Err(PlayEnd::NotReady(place));
            };
            let Ok(()) = put_all(out, &emit.printed) else {
                return Err(PlayEnd::Failed);
            };
        }
        Ok(())
    }
}

/// Whatever choices lead from one world to another, as those do that [`Board::play`] makes: the record
/// of each process is the replay of its own turns and of the answers to it, and so the same as that of
/// any process that began with the same record and had the same turns and answers; from a boot it is a
/// function of its object, of its place and of these.
///
/// Each edge of a button that comes meanwhile, while a process lives, has that button enabled and knew
/// the other state of it, schedules upcall 0 of the buttons for it once, in the order of the script:
/// the wait for that upcall alone is given, null or not; else a null one does nothing, and another is
/// put last, or dropped and counted where as many are pending as may be. No other step schedules, gives
/// or drops one of them ([`each_edge_comes_once`]; TRD 104, "Subscribe", "Yield").
///
/// With time partitions and no operator who is to act, and where the choices are the board's own, what
/// a slot's process does, and when, is the same in a run of any other world that is alike in that slot,
/// up to each time that both have reached; and it has the same record where the two first reach a time
/// ([`a_partition_sees_itself_alone`]). The function does nothing.
pub fn processes_follow_their_own_events()
    ensures { ProcessesFollowTheirOwnEvents }
{
    a_record_is_the_replay_of_its_events();
    each_edge_comes_once();
    a_partition_sees_itself_alone();
}
