//! The two files.
ghost use Rattle.std.specs.Prelude.{◌≡◌, ◌<◌, ◌≤◌, ◌++◌, IfOk, OnOk, length};
ghost use Rattle.image_make.specs.Program.{header_words};
ghost use Rattle.image_make.specs.Encoding.{code_bytes};
ghost use Rattle.image_make.specs.Generator.{message, assembled, object_of, soak_objects, soak_flash, soak_script};
ghost use Rattle.image_make.specs.Parts.{fourth, script_line};

use crate::assembler::Instruction::{self, Word};
use crate::draws::Draws;
use crate::program::program;
use itoa::Buffer;
use std::alloc::{AllocError, Global};
use tk_outside::{NoMemory, hex_text};

/// How many applications there are.
const APPLICATIONS: u8 = 8;

/// The bytes of an application: header, program and message.
const OBJECT_SIZE: usize = 172;

/// The line that an application writes.
#[tactic(auto, unfolding(crate::specs::Generator::message, tk_outside::specs::Text::hex_digits))]
fn message(k: u8, draw: u32) -> [u8; 8]
    requires { k < 8 }
    ensures { result ≡ message k draw }
{
    let digits = hex_text(draw >> 16);
    [
        b'p',
        b'0' + k,
        b' ',
        digits[4],
        digits[5],
        digits[6],
        digits[7],
        b'\n',
    ]
}

/// The header of an application of so many bytes (Tock Binary Format, "TBF Header Base" and "Main").
#[tactic(auto, unfolding(crate::specs::Program::header_words))]
pub fn header_of(size: u32) -> [Instruction; 8]
    ensures { code_bytes result ≡ assembled (header_words size) }
{
    [
        Word(0x0020_0002),
        Word(size),
        Word(1),
        Word(0x0020_0002 ^ size ^ 1 ^ 0x000C_0001 ^ 0x100),
        Word(0x000C_0001),
        Word(0),
        Word(0),
        Word(0x100),
    ]
}

/// Appends the words of instructions.
pub fn put_code(flash: &mut Vec<u8>, code: &[Instruction]) -> Result<(), AllocError>
    ensures { OnOk result (flash.new.items ≡ flash.old.items ++ code_bytes code.now) }
{
    for instruction in code {
        flash.extend_from_slice(&instruction.word().to_le_bytes())?;
    }
    Ok(())
}

/// Appends the object of an application, from the next four draws.
#[tactic(auto, unfolding(crate::specs::Generator::object_of))]
fn put_object(flash: &mut Vec<u8>, k: u8, draws: &mut Draws) -> Result<(), AllocError>
    requires { k < 8 }
    ensures object { OnOk result (flash.new.items ≡ flash.old.items ++ object_of k draws.old) }
    ensures draws { draws.new ≡ fourth draws.old }
{
    let rounds = 1 + draws.draw() / (1 << 22);
    let spins = 1 + draws.draw() / (1 << 22);
    let code = draws.draw() / (1 << 24);
    let line = message(k, draws.draw());
    put_code(flash, &header_of(OBJECT_SIZE as u32))?;
    put_code(flash, &program(rounds, spins, code))?;
    flash.extend_from_slice(&line)
}

/// The flash image, after the first draw.
fn flash_after(alloc: Global, draws: &mut Draws) -> Result<Vec<u8>, AllocError>
    ensures { IfOk result (λ flash. flash.items ≡ soak_objects 8 0 draws.old) }
{
    let mut flash = Vec::with_capacity(alloc, OBJECT_SIZE * APPLICATIONS as usize)?;
    for k in 0..APPLICATIONS {
        put_object(&mut flash, k, draws)?;
    }
    Ok(flash)
}

/// The script, from the first draw.
fn script_from(alloc: Global, draw: u32) -> Result<Vec<u8>, AllocError>
    ensures { IfOk result (λ script. script.items ≡ script_line draw) }
{
    let mut buffer = Buffer::new();
    let mut script = Vec::from_slice(alloc, b"slice ")?;
    script.extend_from_slice(buffer.format(1 + draw / (1 << 26)).as_bytes())?;
    script.extend_from_slice(b"\n")?;
    Ok(script)
}

/// Both files.
fn files(alloc: Global, number: u32) -> Result<(Vec<u8>, Vec<u8>), AllocError>
    ensures flash { IfOk result (λ files. files.0.items ≡ soak_flash number) }
    ensures script { IfOk result (λ files. files.1.items ≡ soak_script number) }
{
    let mut draws = Draws::after(number);
    let script = script_from(alloc, draws.draw())?;
    let flash = flash_after(alloc, &mut draws)?;
    Ok((flash, script))
}

/// The flash image and the script of a soak run, in this order, as the generator makes them from a number.
///
/// Each draw is the last one, at first the number, times 1664525 plus 1013904223, modulo `2^32`. The
/// script is one line, `slice V`, with V from 1 to 64 by the first draw. The image has eight applications
/// in the Tock Binary Format, of 172 bytes each. Application k has the next four draws: it writes its
/// message of eight bytes, `pK HHHH` and a line feed, to the console in 1 to 1024 rounds, spins 1 to 1024
/// times after each, and exits with a code from 0 to 255. The one error is want of memory.
pub fn image_of(alloc: Global, number: u32) -> Result<(Vec<u8>, Vec<u8>), NoMemory>
    ensures flash { IfOk result (λ files. files.0.items ≡ soak_flash number) }
    ensures script { IfOk result (λ files. files.1.items ≡ soak_script number) }
    ensures flash_size { IfOk result (λ files. length files.0.items ≡ 1376) }
    ensures script_size { IfOk result (λ files. length files.1.items ≤ 9) }
{
    match files(alloc, number) {
        Ok(files) => Ok(files),
        Err(_) => Err(NoMemory),
    }
}
