//! The generator of the program's soak runs.
ghost use Rattle.tool_tasks.specs.Soak.{MakesSoakFiles};

use crate::generator::Generator;
use crate::prepare::RunFiles;
use image_make::image_of;
use std::alloc::Global;
use tk_outside::NoMemory;

/// Makes the applications and the script of [`image_of`].
pub struct SoakGenerator;

impl Generator for SoakGenerator {
    ghost use Rattle.image_make.specs.Generator.{soak_flash, soak_script};

    ghost files = { λ number. record {
      flash = soak_flash number;
      script = soak_script number;
    } };

    fn generate(alloc: Global, number: u32) -> Result<RunFiles, NoMemory> {
        let (flash, script) = image_of(alloc, number)?;
        Ok(RunFiles { flash, script })
    }
}

/// What the generator makes of a number is the flash image of eight applications, and the script, that
/// the definitions say. So they say which run the program makes for `soak`.
pub fn soak_files_are_generated()
    ensures { MakesSoakFiles ⟦<SoakGenerator as Generator>⟧.files }
{}
