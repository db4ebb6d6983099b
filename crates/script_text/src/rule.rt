//! Why a script is refused.
ghost use Rattle.std.specs.Prelude.{◌≡◌};
ghost use Rattle.script_text.specs.Rules.{name_of_rule};

use thiserror::Error;

/// A rule that a line of a script may break, in the order in which they count.
#[derive(Clone, Copy, Debug, PartialEq, Eq)]
pub enum ScriptRule {
    /// The first word is not known, or that after `policy` or `filter`, or the third one after
    /// `at`, or the verb after `do`; or, after `partition`, a line of buttons or of an operator.
    UnknownWord,
    /// The number of words is wrong.
    Words,
    /// A number does not have 1 to 10 decimal digits.
    BadNumber,
    /// A word is not written in hex, or has too few or too many digits for what it is.
    BadHex,
    /// A number is outside its range, there is no such button, or a name has more than 32 bytes or
    /// one that is no visible character of ASCII.
    OutOfRange,
    /// A setting stands twice.
    Repeated,
    /// A line other than an event stands after an event, a time falls, or the number of a fault
    /// does not rise.
    Order,
    /// There are too many faults, words, events or bytes of an event.
    TooMany,
}

impl ScriptRule {
    /// The rule as the tool names it.
    pub fn word(self) -> &'static [u8]
        ensures { result.now ≡ name_of_rule self }
    {
        match self {
            ScriptRule::UnknownWord => b"unknown-word",
            ScriptRule::Words => b"words",
            ScriptRule::BadNumber => b"bad-number",
            ScriptRule::BadHex => b"bad-hex",
            ScriptRule::OutOfRange => b"out-of-range",
            ScriptRule::Repeated => b"repeated",
            ScriptRule::Order => b"order",
            ScriptRule::TooMany => b"too-many",
        }
    }
}

/// Why a script has no reading.
#[derive(Clone, Copy, Debug, PartialEq, Eq, Error)]
pub enum ScriptError {
    /// The first bad line, counted from 1, and the first rule that it breaks.
    #[error("line {line} of the script breaks a rule: {rule:?}")]
    Bad { line: u32, rule: ScriptRule },
    /// There was no memory for what the script says.
    #[error("out of memory")]
    Memory,
}
