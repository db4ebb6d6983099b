//! Hostile applications.
ghost use Rattle.std.specs.Prelude.{◌≡◌, ◌≤◌, ◌<◌, ◌++◌, ◌↔◌, length, None, IfOk, IfSome, OnOk};
ghost use Rattle.std.specs.Option.{option_map};
ghost use Rattle.image_make.specs.Attacks.{application_object, attack, attack_files, attack_script};

use crate::assembler::Instruction::{self, Addi, Ecall, Jalr, Li, Mv, Sw, Word};
use crate::assembler::Register::{A0, A1, A2, A3, A4, S0, Zero};
use crate::image::{header_of, put_code};
use crate::program::MINUS_1;
use std::alloc::{AllocError, Global};
use tk_outside::NoMemory;

/// The program of the application that behaves: it exits with 7. Then come zeros.
const EXIT_7: [Instruction; 8] = [
    Li(A4, 6),
    Li(A0, 0),
    Li(A1, 7),
    Ecall,
    Word(0),
    Word(0),
    Word(0),
    Word(0),
];

/// The program of an attack. A program begins with the address after its header in a0 and the start of
/// its block of 1,024 bytes in a1.
#[tactic(auto, unfolding(crate::specs::Attacks::programs, crate::specs::Attacks::nth))]
fn program_of(number: u32) -> Option<&'static [Instruction]>
    ensures program { option_map (λ code. code.now) result ≡ attack number }
    ensures short { IfSome result (λ code. length code.now ≤ 9) }
    ensures none { (result ≡ None) ↔ (10 ≤ number) }
{
    match number {
        // A store just past its block.
        0 => Some(&[Sw(Zero, A1, 1024)]),
        // A store into its grant.
        1 => Some(&[
            Mv(S0, A1),
            Li(A4, 1),
            Li(A0, 1),
            Li(A1, 1),
            Li(A2, 0),
            Li(A3, 0),
            Ecall,
            Sw(Zero, S0, 928),
        ]),
        // A break at the last address of all.
        2 => Some(&[
            Li(A4, 5),
            Li(A0, 0),
            Li(A1, MINUS_1),
            Ecall,
            Li(A4, 6),
            Li(A0, 0),
            Ecall,
        ]),
        // A buffer of all addresses from the start of its block on.
        3 => Some(&[
            Mv(A2, A1),
            Li(A3, MINUS_1),
            Li(A4, 3),
            Li(A0, 1),
            Li(A1, 1),
            Ecall,
            Li(A4, 6),
            Li(A0, 0),
            Ecall,
        ]),
        // A buffer just past its block.
        4 => Some(&[
            Addi(A2, A1, 1024),
            Li(A3, 4),
            Li(A4, 3),
            Li(A0, 1),
            Li(A1, 1),
            Ecall,
            Li(A4, 6),
            Li(A0, 0),
            Ecall,
        ]),
        // A read that still waits at its exit.
        5 => Some(&[
            Li(A4, 2),
            Li(A0, 1),
            Li(A1, 2),
            Li(A2, 4),
            Ecall,
            Li(A4, 6),
            Li(A0, 0),
            Li(A1, 0),
            Ecall,
        ]),
        // A restart, again and again.
        6 => Some(&[Li(A4, 6), Li(A0, 1), Ecall]),
        // A jump into the next object.
        7 => Some(&[Jalr(Zero, A0, 64)]),
        // A yield whose flag is to lie just past its block.
        8 => Some(&[
            Li(A4, 0),
            Li(A0, 0),
            Addi(A1, A1, 1024),
            Ecall,
            Li(A4, 6),
            Li(A0, 0),
            Li(A1, 0),
            Ecall,
        ]),
        // A class that there is not.
        9 => Some(&[Li(A4, 9), Ecall]),
        _ => None,
    }
}

/// The script of an attack: of the read that still waits, a byte that comes in after the exit.
fn script_of(number: u32) -> &'static [u8]
    ensures { result.now ≡ attack_script number }
{
    if number == 5 { b"at 50 input 41" } else { b"" }
}

/// Appends the object of an application with this program.
fn put_application(flash: &mut Vec<u8>, code: &[Instruction]) -> Result<(), AllocError>
    requires { length code.now ≤ 9 }
    ensures { OnOk result (flash.new.items ≡ flash.old.items ++ application_object code.now) }
{
    put_code(flash, &header_of(32 + 4 * code.len() as u32))?;
    put_code(flash, code)
}

/// Both files, where there is such an attack.
fn files(alloc: Global, number: u32) -> Result<Option<(Vec<u8>, Vec<u8>)>, AllocError>
    ensures files { IfOk result (λ files. option_map (λ f. (f.0.items, f.1.items)) files
        ≡ attack_files number) }
    ensures none { IfOk result (λ files. (files ≡ None) ↔ (10 ≤ number)) }
{
    let Some(code) = program_of(number) else {
        return Ok(None);
    };
    let mut flash = Vec::new(alloc);
    put_application(&mut flash, code)?;
    put_application(&mut flash, &EXIT_7)?;
    let script = Vec::from_slice(alloc, script_of(number))?;
    Ok(Some((flash, script)))
}

/// The flash image and the script of an attack, in this order, by its number; none exactly from 10 on.
///
/// The image has two objects in the Tock Binary Format: that of a hostile program, which tries to reach
/// what is not its own, and that of an application which exits with 7 whatever the first one does. The
/// script is empty but for number 5. The one error is want of memory.
pub fn attack_of(alloc: Global, number: u32) -> Result<Option<(Vec<u8>, Vec<u8>)>, NoMemory>
    ensures files { IfOk result (λ files. option_map (λ f. (f.0.items, f.1.items)) files
        ≡ attack_files number) }
    ensures none { IfOk result (λ files. (files ≡ None) ↔ (10 ≤ number)) }
{
    match files(alloc, number) {
        Ok(files) => Ok(files),
        Err(_) => Err(NoMemory),
    }
}
