//! The words of the command line.
ghost use Rattle.std.specs.Prelude.{◌≡◌, ◌≤◌, IfSome};
ghost use Rattle.tool_words.specs.declared.words.TheConstants.{MOST_TURNS};
ghost use Rattle.tool_words.specs.Words.{command_of, enable_of, mode_named};
ghost use Rattle.tool_words.specs.Parts.{list_command_of};
ghost use Rattle.tool_words.specs.Words.{of_few, pack_of, rename_of, run_of};
ghost use Rattle.tool_words.specs.Parts.{number_in, of_three};
ghost use Rattle.tool_words.specs.Words.{command_shown, soak_of, switch_named};
ghost use Rattle.tool_words.specs.Parts.{turns_given};
ghost use Rattle.tool_words.specs.Words.{HasTurnsWithin};
ghost use Rattle.tool_words.specs.Parts.{argument_bytes};

use decimal_number::number_up_to;
use run_text::Mode;

/// The words of `tock boot FLASH SCRIPT --turns N` or `tock trace FLASH SCRIPT --turns N`.
#[derive(Clone, Copy)]
pub struct RunCommand<'a> {
    /// What is written of the run.
    pub mode: Mode,
    pub flash: &'a str,
    pub script: &'a str,
    pub turns: u32,
}

/// What is done to an object of a flash image.
#[derive(Clone, Copy)]
pub enum Edit<'a> {
    /// It is enabled, or disabled.
    Enable { on: bool },
    /// It gets another package name.
    Rename { name: &'a str },
}

/// The words of `tock enable FLASH OFFSET`, `tock disable FLASH OFFSET` or `tock rename FLASH
/// OFFSET NAME`.
#[derive(Clone, Copy)]
pub struct EditCommand<'a> {
    pub flash: &'a str,
    /// Where the object stands, in bytes from the start of flash.
    pub offset: u32,
    pub edit: Edit<'a>,
}

/// A command.
#[derive(Clone, Copy)]
pub enum Command<'a> {
    /// `tock boot FLASH SCRIPT --turns N` or `tock trace FLASH SCRIPT --turns N`: a run of the
    /// applications of a flash file.
    Run(RunCommand<'a>),
    /// `tock list FLASH`: the list of the objects of a flash file.
    List { flash: &'a str },
    /// `tock soak NUMBER --turns N`: a run of the applications that are generated from a number.
    Soak { number: u32, turns: u32 },
    /// `tock pack FILE ..`: flash files, one behind another.
    Pack { files: &'a [String] },
    /// `tock enable FLASH OFFSET`, `tock disable FLASH OFFSET` or `tock rename FLASH OFFSET NAME`:
    /// a flash file in which one object is edited.
    Edit(EditCommand<'a>),
}

/// The greatest number of turns that is accepted.
pub const MOST_TURNS: u64 = 1_000_000_000;

/// The greatest number of a soak run, and the greatest offset of an object, that is accepted.
const MOST_NUMBER: u64 = 4_294_967_295;

/// The greatest number of files that is packed.
const MOST_FILES: usize = 64;

/// The number of turns that a word gives.
fn turns_in(word: &str) -> Option<u32>
    ensures value { result ≡ turns_given word.now }
    ensures within { IfSome result (λ turns. turns ≤ MOST_TURNS) }
{
    Some(number_up_to(word.as_bytes(), MOST_TURNS)? as u32)
}

/// The number of a soak run or the offset of an object that a word gives.
fn number_in(word: &str) -> Option<u32>
    ensures { result ≡ number_in word.now }
{
    Some(number_up_to(word.as_bytes(), MOST_NUMBER)? as u32)
}

/// What is written of the run of two files, by the name of the command.
fn mode_named(name: &str) -> Option<Mode>
    ensures { result ≡ mode_named name.now }
{
    match name {
        "boot" => Some(Mode::Boot),
        "trace" => Some(Mode::Trace),
        _ => None,
    }
}

/// The command `list` of a file.
fn list_of<'a>(name: &str, flash: &'a str) -> Option<Command<'a>>
    ensures words { command_shown result ≡ list_command_of name.now flash.entry.now }
    ensures turns { IfSome result HasTurnsWithin }
{
    if name != "list" {
        return None;
    }
    Some(Command::List { flash })
}

/// The command `soak` of a number.
#[tactic(auto, unfolding(crate::specs::Words::soak_of))]
fn soak_of<'a>(name: &str, number: &str, flag: &str, turns: &str) -> Option<Command<'a>>
    ensures words { command_shown result ≡ soak_of name.now number.now flag.now turns.now }
    ensures turns { IfSome result HasTurnsWithin }
{
    if name != "soak" || flag != "--turns" {
        return None;
    }
    let number = number_in(number)?;
    let turns = turns_in(turns)?;
    Some(Command::Soak { number, turns })
}

/// The command `boot` or `trace` of two files.
#[tactic(auto, unfolding(crate::specs::Words::run_of))]
fn run_of<'a>(
    name: &str,
    flash: &'a str,
    script: &'a str,
    flag: &str,
    turns: &str,
) -> Option<Command<'a>>
    ensures words { command_shown result
        ≡ run_of name.now flash.entry.now script.entry.now flag.now turns.now }
    ensures turns { IfSome result HasTurnsWithin }
{
    if flag != "--turns" {
        return None;
    }
    let mode = mode_named(name)?;
    let turns = turns_in(turns)?;
    Some(Command::Run(RunCommand {
        mode,
        flash,
        script,
        turns,
    }))
}

/// The command `pack` of files.
#[tactic(auto, unfolding(crate::specs::Words::pack_of))]
fn pack_of<'a>(files: &'a [String]) -> Option<Command<'a>>
    ensures words { command_shown result ≡ pack_of (argument_bytes files.entry.now) }
    ensures turns { IfSome result HasTurnsWithin }
{
    if files.is_empty() || files.len() > MOST_FILES {
        return None;
    }
    Some(Command::Pack { files })
}

/// Whether an object is to be enabled or disabled, by the name of the command.
fn switch_named(name: &str) -> Option<bool>
    ensures { result ≡ switch_named name.now }
{
    match name {
        "enable" => Some(true),
        "disable" => Some(false),
        _ => None,
    }
}

/// The command `enable` or `disable` of an object.
#[tactic(auto, unfolding(crate::specs::Words::enable_of))]
fn enable_of<'a>(name: &str, flash: &'a str, offset: &str) -> Option<Command<'a>>
    ensures words { command_shown result ≡ enable_of name.now flash.entry.now offset.now }
    ensures turns { IfSome result HasTurnsWithin }
{
    let on = switch_named(name)?;
    let offset = number_in(offset)?;
    Some(Command::Edit(EditCommand {
        flash,
        offset,
        edit: Edit::Enable { on },
    }))
}

/// The command `rename` of an object.
#[tactic(auto, unfolding(crate::specs::Words::rename_of))]
fn rename_of<'a>(flash: &'a str, offset: &str, name: &'a str) -> Option<Command<'a>>
    ensures words { command_shown result ≡ rename_of flash.entry.now offset.now name.entry.now }
    ensures turns { IfSome result HasTurnsWithin }
{
    let offset = number_in(offset)?;
    Some(Command::Edit(EditCommand {
        flash,
        offset,
        edit: Edit::Rename { name },
    }))
}

/// The command `rename` or `soak`, each of which has three words after its name.
fn of_three<'a>(name: &str, first: &'a str, second: &str, third: &'a str) -> Option<Command<'a>>
    ensures words { command_shown result
        ≡ of_three name.now first.entry.now second.now third.entry.now }
    ensures turns { IfSome result HasTurnsWithin }
{
    if name == "rename" {
        return rename_of(first, second, third);
    }
    soak_of(name, first, second, third)
}

/// The command that has so many words after its name.
fn of_few<'a>(name: &str, words: &'a [String]) -> Option<Command<'a>>
    ensures words { command_shown result ≡ of_few name.now (argument_bytes words.entry.now) }
    ensures turns { IfSome result HasTurnsWithin }
{
    match words {
        [flash] => list_of(name, flash.as_str()),
        [flash, offset] => enable_of(name, flash.as_str(), offset.as_str()),
        [first, second, third] => of_three(name, first.as_str(), second.as_str(), third.as_str()),
        [flash, script, flag, turns] => run_of(
            name,
            flash.as_str(),
            script.as_str(),
            flag.as_str(),
            turns.as_str(),
        ),
        _ => None,
    }
}

impl<'a> Command<'a> {
    /// The command that the words are; None where they are none. The first word is the program's
    /// name.
    pub fn of(words: &'a [String]) -> Option<Command<'a>>
        ensures words { command_shown result ≡ command_of words.now }
        ensures turns { IfSome result HasTurnsWithin }
    {
        let [_, name, rest @ ..] = words else {
            return None;
        };
        if name.as_str() == "pack" {
            return pack_of(rest);
        }
        of_few(name.as_str(), rest)
    }
}
