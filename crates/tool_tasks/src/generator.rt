//! What makes the two files of a soak run.
ghost use Rattle.std.specs.Prelude.{◌≡◌, ◌≤◌, length, IfOk, IsOk};
ghost use Rattle.tk_base.specs.declared.limits.TheConstants.{FLASH_LIMIT, SCRIPT_LIMIT};
ghost use Rattle.script_text.specs.Reading.{reading};

use crate::prepare::RunFiles;
use std::alloc::Global;
use tk_outside::NoMemory;

/// Makes a flash image and a script from a number, by which alone it is decided what they are.
pub trait Generator {
    ghost use Rattle.std.specs.Prelude.{ℕ};
    ghost use Rattle.tool_tasks.specs.Comes.{Generated};

    /// What it makes of each number.
    ghost files: { ℕ → Generated };

    /// Makes the two files of a number, each within its limit; the script has a reading. The one
    /// error is want of memory.
    fn generate(alloc: Global, number: u32) -> Result<RunFiles, NoMemory>
        ensures flash { IfOk result (λ made. made.flash.items ≡ (files number).flash) }
        ensures script { IfOk result (λ made. made.script.items ≡ (files number).script) }
        ensures flash_fits { IfOk result (λ made. length made.flash.items ≤ FLASH_LIMIT) }
        ensures script_fits { IfOk result (λ made. length made.script.items ≤ SCRIPT_LIMIT) }
        ensures reads { IfOk result (λ made. IsOk (reading made.script.items)) };
}
