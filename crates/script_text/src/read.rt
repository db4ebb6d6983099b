//! Reading a whole script.
ghost use Rattle.std.specs.Prelude.{◌≡◌, ◌≤◌, length};
ghost use Rattle.script_text.specs.declared.rule.ScriptError.TheVariants.{Bad};
ghost use Rattle.script_text.specs.Reading.{reading, Reads};

use crate::draft::{Draft, Trouble};
use crate::rule::{ScriptError, ScriptRule};
use crate::script::Script;
use crate::text::Lines;
use std::alloc::Global;
use tk_base::SCRIPT_LIMIT;

/// The error of a line that breaks a rule.
fn bad(line: u32, rule: ScriptRule) -> ScriptError
    ensures { result ≡ Bad line rule }
{
    ScriptError::Bad { line, rule }
}

/// What a script says, of at most [`SCRIPT_LIMIT`] bytes.
///
/// The lines end at line feeds, one carriage return at a line's end is dropped, and spaces and tabs
/// stand between words. A line without words, or whose first word begins with `#`, is skipped and
/// counts. The others have to be lines of the table:
///
/// | Line | Numbers | Where there is none |
/// |---|---|---|
/// | `ram N` | 4096 to 262144, multiples of 1024 | 65536 |
/// | `leds N` | 0 to 16 | 4 |
/// | `buttons N` | 0 to 16 | 0 |
/// | `slice N` | 1 to 1000000 | 100 |
/// | `partition N` | 1 to 1000000 | no partitions |
/// | `start N` | 0 to 4294967295 | 0 |
/// | `uart N` | 0 to 1000 | 1 |
/// | `storage N` | 0 to 4096 | 512 |
/// | `policy stop`, `policy restart`, `policy threshold N` | 0 to 4294967295 | `stop` |
/// | `filter open`, `filter strict` | | `open` |
/// | `storage-fault K`, at most 64, rising | 1 to 4294967295 | none |
/// | `random W ..`, at most 4096 words of 8 hex digits | | none |
/// | `at T input H`, with 1 to 64 bytes in hex | 0 to 4294967295 | none |
/// | `at T press B`, `at T release B`, B below the number of buttons | 0 to 4294967295 | none |
/// | `at T do VERB NAME`, VERB one of `list`, `stop`, `start`, `terminate`, `restart` | 0 to 4294967295 | none |
///
/// How many buttons there are, an earlier `buttons` line says. NAME has 1 to 32 bytes, each from
/// 0x21 to 0x7E. There are at most 4096 `at` lines, and T never falls from one to the next. They
/// may repeat, and so may `storage-fault` and `random`; nothing but `at` stands after an `at`.
/// After `partition` the lines of buttons and of an operator are not known: `buttons`, and `at`
/// with `press`, `release` or `do`.
///
/// [`ScriptError::Bad`] names the first line that breaks a rule, and the first rule that it breaks,
/// in the order of [`ScriptRule`](crate::ScriptRule)'s variants. [`ScriptError::Memory`] comes only
/// for want of memory.
#[tactic(auto, using(crate::proofs::Faults::going_on))]
pub fn read_script(alloc: Global, script: &[u8]) -> Result<Script, ScriptError>
    requires { length script.now ≤ SCRIPT_LIMIT }
    // What is read is the script's reading, an error its first bad line.
    ensures { Reads result (reading script.now) }
{
    let mut draft = Draft::new(alloc);
    let mut number = 0;
    for line in Lines::of(script) {
        number += 1;
        match draft.add(line) {
            Ok(()) => (),
            Err(Trouble::Breaks(rule)) => return Err(bad(number, rule)),
            Err(Trouble::Memory) => return Err(ScriptError::Memory),
        }
    }
    Ok(draft.script())
}
