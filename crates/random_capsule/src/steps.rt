//! A step of the request of the process that waits longest.
ghost use Rattle.std.specs.Prelude.{◌≡◌, ◌<◌, true, length, is_some};
ghost use Rattle.driver_model.specs.Random.{words_after};
ghost use Rattle.driver_model.specs.Told.{drawn_told};
ghost use Rattle.driver_requests.specs.Answers.{IsAnswered, kinds};
ghost use Rattle.driver_requests.specs.Asking.{MayBeTold};
ghost use Rattle.random_capsule.specs.Answers.{random_answer_to};

use crate::visits::{Advance, randoms};
use board_devices::{Kind, Words};
use driver_requests::{Service, visit_request};
use grant_enter::Home;
use tk_base::ProcessId;

/// Takes the next word away, where one was drawn.
fn take_away(words: &mut Words, drawn: Option<u32>)
    requires { is_some drawn ≡ true → 0 < length words.old }
    ensures { words.new ≡ words_after drawn words.old }
{
    if drawn.is_some() {
        words.draw();
    }
}

/// What a process is told, by the word that was drawn for it, if one was.
fn told(drawn: Option<u32>) -> Kind
    ensures { result ≡ drawn_told kinds drawn }
{
    match drawn {
        Some(word) => Kind::Word(word),
        None => Kind::NoWord,
    }
}

/// A step of the request of a process, if it is there and has one: the word that was drawn, or that
/// none was, and whether the request completed.
#[tactic(auto, unfolding(driver_model::specs::Random::answered))]
pub(crate) fn serve(home: &mut Home, id: &ProcessId, words: &mut Words) -> Service
    requires { MayBeTold home.old id.now }
    ensures { IsAnswered (random_answer_to words.old home.old id.now) id.now home.old result
        words.new home.new }
{
    let advance = Advance { word: words.peek() };
    let Ok(attended) = visit_request(&randoms(), home, *id, advance) else {
        return Service {
            kind: Kind::NoWord,
            completed: false,
        };
    };
    take_away(words, attended.answer);
    Service {
        kind: told(attended.answer),
        completed: attended.completed,
    }
}
