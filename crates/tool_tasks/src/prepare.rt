//! What is done before a board is made and any text is written: the words, the files, the script's
//! reading.
ghost use Rattle.std.specs.Prelude.{◌≡◌, ◌≤◌, length, Ok, IfOk, IfErr, OnOk};
ghost use Rattle.tk_base.specs.declared.limits.TheConstants.{FLASH_LIMIT, OBJECT_LIMIT};
ghost use Rattle.tk_base.specs.declared.limits.TheConstants.{SCRIPT_LIMIT};
ghost use Rattle.script_text.specs.Reading.{reading};
ghost use Rattle.image_make.specs.Outcomes.{Edits};
ghost use Rattle.tool_words.specs.declared.refusal.Refusal.TheVariants.{Memory};
ghost use Rattle.tool_words.specs.Refusals.{limit_of, pack_refused};
ghost use Rattle.tool_words.specs.declared.words.TheConstants.{MOST_TURNS};
ghost use Rattle.tool_words.specs.Words.{command_of, edit_given, edits_of, packs_of, runs_of};
ghost use Rattle.tool_words.specs.Words.{Lists};
ghost use Rattle.tool_tasks.specs.Comes.{edited_by};
ghost use Rattle.tool_tasks.specs.Parts.{IsText};
ghost use Rattle.tool_tasks.specs.Causes.{Cause, CauseOf, shelf_account};
ghost use Rattle.tool_tasks.specs.Ready.{HasNoReading, IsReady, IsReadyFor, IsSoak};
ghost use Rattle.tool_tasks.specs.Ready.{IsNotPacked, IsPackedFile, IsUnread, IsWithinLimits};
ghost use Rattle.tool_tasks.specs.Ready.{KeepsShelf, refusal_of};
ghost use Rattle.tool_tasks.specs.RunFiles.{AreFilesOf, AreWithinLimits};

use crate::generator::Generator;
use image_make::{EditFault, PackFault, pack_one, rename, set_enabled};
use run_text::Mode;
use script_text::{Script, ScriptError, read_script};
use std::alloc::Global;
use tk_intake::{IntakeError, read_whole};
use tk_outside::Shelf;
use tool_words::{Command, Edit, EditCommand, File, ImageFault, Refusal, RunCommand};

/// What is left to do once the files are read.
#[derive(Drop)]
pub enum Ready {
    /// A run of the applications of a flash image on the board of a script: what is written of it,
    /// and how many steps it is to make at most.
    Run {
        flash: Vec<u8>,
        script: Script,
        mode: Mode,
        turns: u32,
    },
    /// The list of the objects of a flash image.
    List {
        flash: Vec<u8>,
    },
    /// A flash image to write.
    Image {
        flash: Vec<u8>,
    },
}

/// The refusal for a file that was not read.
fn not_read(error: IntakeError, file: File) -> Refusal
    ensures { result ≡ refusal_of error file }
{
    match error {
        IntakeError::Failed => Refusal::Fault(file),
        IntakeError::TooLong => Refusal::TooLong(file),
        IntakeError::Memory => Refusal::Memory,
    }
}

/// Reads a file that the words name.
fn read_file<H: Shelf>(
    alloc: Global,
    shelf: &mut H,
    file: File,
    name: &str,
) -> Result<Vec<u8>, Refusal>
    ensures text { IfOk result (λ v. IsText (H.tells shelf.old).bytes name.now v.items) }
    ensures within { IfOk result (λ v. length v.items ≤ limit_of file) }
    ensures unread { IfErr result (IsUnread (shelf_account H.tells shelf.old shelf.new) file name.now) }
    ensures keeps { KeepsShelf H.tells shelf.old shelf.new }
{
    match read_whole(alloc, shelf, name, file.limit()) {
        Ok(bytes) => Ok(bytes),
        Err(error) => Err(not_read(error, file)),
    }
}

/// Reads what a script says.
pub fn said_in(alloc: Global, script: &[u8]) -> Result<Script, Refusal>
    requires { length script.now ≤ SCRIPT_LIMIT }
    ensures said { IfOk result (λ said. reading script.now ≡ Ok said) }
    ensures refused { IfErr result (HasNoReading script.now) }
{
    match read_script(alloc, script) {
        Ok(said) => Ok(said),
        Err(ScriptError::Bad { line, rule }) => Err(Refusal::Script { line, rule }),
        Err(ScriptError::Memory) => Err(Refusal::Memory),
    }
}

/// Reads the two files and the script.
fn load_run<H: Shelf>(alloc: Global, words: RunCommand<'_>, shelf: &mut H) -> Result<Ready, Refusal>
    requires { words.turns ≤ MOST_TURNS }
    ensures task { IfOk result (IsReadyFor (H.tells shelf.old) (runs_of words.entry)) }
    ensures within { IfOk result IsWithinLimits }
    ensures refused { IfErr result
        (CauseOf (shelf_account H.tells shelf.old shelf.new) (runs_of words.entry)) }
{
    let flash = read_file(alloc, shelf, File::Flash, words.flash)?;
    let script = read_file(alloc, shelf, File::Script, words.script)?;
    let said = said_in(alloc, &script)?;
    Ok(Ready::Run {
        flash,
        script: said,
        mode: words.mode,
        turns: words.turns,
    })
}

/// The two files of a run.
#[derive(Drop)]
pub struct RunFiles {
    pub flash: Vec<u8>,
    pub script: Vec<u8>,
}

/// Reads the two files of a run, and sees that the script has a reading. What refuses a run refuses
/// them.
pub fn load_files<H: Shelf>(
    alloc: Global,
    words: RunCommand<'_>,
    shelf: &mut H,
) -> Result<RunFiles, Refusal>
    ensures task { IfOk result (AreFilesOf (H.tells shelf.old) words.entry) }
    ensures within { IfOk result AreWithinLimits }
    ensures refused { IfErr result
        (CauseOf (shelf_account H.tells shelf.old shelf.new) (runs_of words.entry)) }
{
    let flash = read_file(alloc, shelf, File::Flash, words.flash)?;
    let script = read_file(alloc, shelf, File::Script, words.script)?;
    let _said = said_in(alloc, &script)?;
    Ok(RunFiles { flash, script })
}

/// Generates the two files of a soak run.
fn load_soak<G: Generator>(alloc: Global, number: u32, turns: u32) -> Result<Ready, Refusal>
    requires { turns ≤ MOST_TURNS }
    ensures task { IfOk result (IsSoak G.files number turns) }
    ensures within { IfOk result IsWithinLimits }
    ensures refused { IfErr result (λ refusal. refusal ≡ Memory) }
{
    let Ok(RunFiles { flash, script }) = G::generate(alloc, number) else {
        return Err(Refusal::Memory);
    };
    let said = said_in(alloc, &script)?;
    Ok(Ready::Run {
        flash,
        script: said,
        mode: Mode::Soak,
        turns,
    })
}

/// Reads the flash file alone.
fn load_list<H: Shelf>(alloc: Global, name: &str, shelf: &mut H) -> Result<Ready, Refusal>
    ensures task { IfOk result (IsReadyFor (H.tells shelf.old) (Lists name.now)) }
    ensures within { IfOk result IsWithinLimits }
    ensures refused { IfErr result
        (CauseOf (shelf_account H.tells shelf.old shelf.new) (Lists name.now)) }
{
    let flash = read_file(alloc, shelf, File::Flash, name)?;
    Ok(Ready::List { flash })
}

/// Edits the object of a flash image at an offset.
fn make_edit(flash: &mut [u8], offset: u32, edit: Edit<'_>) -> Result<(), EditFault>
    requires { length flash.old ≤ FLASH_LIMIT }
    ensures { Edits (edited_by (edit_given edit.entry) offset flash.old) flash.old flash.new
        result }
{
    match edit {
        Edit::Enable { on } => set_enabled(flash, offset, on),
        Edit::Rename { name } => rename(flash, offset, name.as_bytes()),
    }
}

/// Reads the flash file, and edits an object of it.
fn load_edit<H: Shelf>(
    alloc: Global,
    words: EditCommand<'_>,
    shelf: &mut H,
) -> Result<Ready, Refusal>
    ensures task { IfOk result (IsReadyFor (H.tells shelf.old) (edits_of words.entry)) }
    ensures within { IfOk result IsWithinLimits }
    ensures refused { IfErr result
        (CauseOf (shelf_account H.tells shelf.old shelf.new) (edits_of words.entry)) }
{
    let mut flash = read_file(alloc, shelf, File::Flash, words.flash)?;
    match make_edit(&mut flash, words.offset, words.edit) {
        Ok(()) => Ok(Ready::Image { flash }),
        Err(fault) => Err(Refusal::Image(ImageFault::of_edit(fault))),
    }
}

/// The refusal for a file that was not packed.
fn not_packed(fault: PackFault) -> Refusal
    ensures { result ≡ pack_refused fault }
{
    match fault {
        PackFault::Objects => Refusal::Image(ImageFault::TooMany),
        PackFault::Size => Refusal::Image(ImageFault::Size),
        PackFault::Memory => Refusal::Memory,
    }
}

/// Reads a flash file, and packs it behind an image.
fn pack_file<H: Shelf>(
    alloc: Global,
    name: &str,
    shelf: &mut H,
    image: &mut Vec<u8>,
    objects: &mut u32,
) -> Result<(), Refusal>
    requires few { objects.old ≤ OBJECT_LIMIT }
    requires short { length image.old.items ≤ FLASH_LIMIT }
    ensures packed { OnOk result (IsPackedFile (H.tells shelf.old) name.now
        objects.old image.old.items objects.new image.new.items) }
    ensures refused { IfErr result (IsNotPacked (shelf_account H.tells shelf.old shelf.new) name.now
        objects.old image.old.items) }
    ensures keeps { KeepsShelf H.tells shelf.old shelf.new }
{
    let file = read_file(alloc, shelf, File::Flash, name)?;
    match pack_one(image, &file, objects) {
        Ok(()) => Ok(()),
        Err(fault) => Err(not_packed(fault)),
    }
}

/// Reads flash files, and packs them one behind another.
fn load_pack<H: Shelf>(alloc: Global, files: &[String], shelf: &mut H) -> Result<Ready, Refusal>
    ensures task { IfOk result (IsReadyFor (H.tells shelf.old) (packs_of files.now)) }
    ensures within { IfOk result IsWithinLimits }
    ensures refused { IfErr result
        (CauseOf (shelf_account H.tells shelf.old shelf.new) (packs_of files.now)) }
{
    let mut flash = Vec::new(alloc);
    let mut objects = 0;
    for name in files {
        pack_file(alloc, name.as_str(), shelf, &mut flash, &mut objects)?;
    }
    Ok(Ready::Image { flash })
}

/// Does all that comes before any text, but for a run's board: the words, the flash file, and for a
/// run the script file and the script's reading; `soak` has the generator's files in place of those
/// that the words name, and `pack` packs each file before it reads the next one. A refusal names the
/// first cause in this order.
pub fn prepare<H: Shelf, G: Generator>(
    alloc: Global,
    words: &[String],
    shelf: &mut H,
) -> Result<Ready, Refusal>
    ensures task { IfOk result (IsReady G.files (H.tells shelf.old) (command_of words.now)) }
    ensures within { IfOk result IsWithinLimits }
    ensures refused { IfErr result
        (Cause (shelf_account H.tells shelf.old shelf.new) (command_of words.now)) }
{
    match Command::of(words) {
        Some(Command::Run(words)) => load_run(alloc, words, shelf),
        Some(Command::List { flash }) => load_list(alloc, flash, shelf),
        Some(Command::Pack { files }) => load_pack(alloc, files, shelf),
        Some(Command::Edit(words)) => load_edit(alloc, words, shelf),
        Some(Command::Soak { number, turns }) => load_soak::<G>(alloc, number, turns),
        None => Err(Refusal::Usage),
    }
}
