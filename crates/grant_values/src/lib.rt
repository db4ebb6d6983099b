//! What drivers keep of each process: the drivers with their counts and costs, and the values of
//! their grants as words.
#![tactic(auto)]

mod alarm;
mod buttons;
mod console;
mod drivers;
mod laws;
mod random;
mod storage;
mod value;
mod words;

pub use alarm::{Alarm, Armed};
pub use buttons::Buttons;
pub use console::{Console, WaitingRead, WaitingWrite};
pub use drivers::{Driver, cost_of, counts};
pub use laws::words_in_bytes;
pub use random::{Random, RandomRequest};
pub use storage::{Storage, StorageKind, StorageRequest};
pub use value::GrantValue;
pub use words::{put_word, put_words, word_at};
