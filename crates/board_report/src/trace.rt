//! The trace of a run: the lines of one step.
ghost use Rattle.std.specs.Prelude.{◌++◌, Some};
ghost use Rattle.tk_outside.specs.Writes.{Writes};
ghost use Rattle.board_report.specs.Words.{newline};
ghost use Rattle.board_report.specs.Trace.{line_head, registers_text, reply_text};
ghost use Rattle.board_report.specs.Parts.{register_text};
ghost use Rattle.board_report.specs.Trace.{refusal_text};
ghost use Rattle.board_report.specs.Parts.{call_line, denial_line, bytes_text};
ghost use Rattle.board_report.specs.Trace.{act_text, call_text, denied_text};
ghost use Rattle.board_report.specs.Parts.{act_line, out_line};
ghost use Rattle.board_report.specs.Trace.{out_text};
ghost use Rattle.board_report.specs.Parts.{turn_text};
ghost use Rattle.tk_base.specs.Verbs.{verb_text};
ghost use Rattle.board_report.specs.Trace.{lines_of_step, trace_text};

use crate::report::write_denial;
use crate::words::call_rule_word;
use itoa::Buffer;
use process_record::{CallMade, Emit};
use tk_base::{CallRule, Denial, Slot, Verb};
use tk_outside::{
    Failed, Sink, hex_text, put_all, put_hex, put_number, put_pieces, writes_compose,
};

/// Writes what a line begins with: the time, the slot, and what the line tells.
fn write_head<K: Sink>(out: &mut K, time: u64, slot: Slot, kind: &[u8]) -> Result<(), Failed>
    ensures { Writes K.tells out.old out.new (line_head time slot kind.now) result }
{
    let mut time_digits = Buffer::new();
    let mut slot_digits = Buffer::new();
    put_pieces(
        out,
        &[
            b"@",
            time_digits.format(time).as_bytes(),
            b" ",
            slot_digits.format(slot.index()).as_bytes(),
            kind,
        ],
    )
}

/// Writes a register after a blank.
fn write_register<K: Sink>(out: &mut K, register: u32) -> Result<(), Failed>
    ensures { Writes K.tells out.old out.new (register_text register) result }
{
    put_pieces(out, &[b" ", &hex_text(register)])
}

/// Writes registers, each after a blank.
fn write_registers<K: Sink>(out: &mut K, registers: &[u32]) -> Result<(), Failed>
    ensures { Writes K.tells out.old out.new (registers_text registers.now) result }
{
    writes_compose::<K>();
    for register in registers {
        write_register(out, *register)?;
    }
    Ok(())
}

/// Writes the reply of a call, where one was put into the registers.
fn write_reply<K: Sink>(out: &mut K, reply: &Option<[u32; 4]>) -> Result<(), Failed>
    ensures { Writes K.tells out.old out.new (reply_text reply.now) result }
{
    writes_compose::<K>();
    match reply {
        Some(registers) => {
            put_all(out, b" =")?;
            write_registers(out, registers)
        }
        None => Ok(()),
    }
}

/// Writes the rule that a call broke, where it was refused, and ends the line.
fn write_refusal<K: Sink>(out: &mut K, rule: Option<CallRule>) -> Result<(), Failed>
    ensures { Writes K.tells out.old out.new (refusal_text rule ++ newline) result }
{
    match rule {
        Some(rule) => put_pieces(out, &[b" ", call_rule_word(rule), b"\n"]),
        None => put_all(out, b"\n"),
    }
}

/// Writes the line of a system call.
fn write_call_line<K: Sink>(
    out: &mut K,
    time: u64,
    slot: Slot,
    call: &CallMade,
) -> Result<(), Failed>
    ensures { Writes K.tells out.old out.new (call_line time slot call.now) result }
{
    writes_compose::<K>();
    write_head(out, time, slot, b" call ")?;
    put_number(out, u64::from(call.class))?;
    write_registers(out, &call.args)?;
    write_reply(out, &call.reply)?;
    write_refusal(out, call.rule)
}

/// Writes the line of a denial.
fn write_denial_line<K: Sink>(
    out: &mut K,
    time: u64,
    slot: Slot,
    denial: Denial,
) -> Result<(), Failed>
    ensures { Writes K.tells out.old out.new (denial_line time slot denial) result }
{
    writes_compose::<K>();
    write_head(out, time, slot, b" denied")?;
    write_denial(out, &Some(denial))?;
    put_all(out, b"\n")
}

/// Writes bytes, each in two digits of base 16.
fn write_bytes<K: Sink>(out: &mut K, bytes: &[u8]) -> Result<(), Failed>
    ensures { Writes K.tells out.old out.new (bytes_text bytes.now) result }
{
    writes_compose::<K>();
    for byte in bytes {
        put_hex(out, u32::from(*byte), 2)?;
    }
    Ok(())
}

/// Writes the line of what was printed.
fn write_out_line<K: Sink>(out: &mut K, time: u64, slot: Slot, bytes: &[u8]) -> Result<(), Failed>
    ensures { Writes K.tells out.old out.new (out_line time slot bytes.now) result }
{
    writes_compose::<K>();
    write_head(out, time, slot, b" out ")?;
    write_bytes(out, bytes)?;
    put_all(out, b"\n")
}

/// Writes the line of the system call in a step, where one was made.
#[tactic(auto, unfolding(crate::specs::Parts::call_line))]
fn write_call<K: Sink>(out: &mut K, time: u64, slot: Slot, step: &Emit) -> Result<(), Failed>
    ensures { Writes K.tells out.old out.new (call_text time slot step.now.made) result }
{
    match &step.made {
        Some(call) => write_call_line(out, time, slot, call),
        None => Ok(()),
    }
}

/// Writes the line of the denial in a step, where there was one.
#[tactic(auto, unfolding(crate::specs::Parts::denial_line))]
fn write_denied<K: Sink>(out: &mut K, time: u64, slot: Slot, step: &Emit) -> Result<(), Failed>
    ensures { Writes K.tells out.old out.new (denied_text time slot step.now.denial) result }
{
    match step.denial {
        Some(denial) => write_denial_line(out, time, slot, denial),
        None => Ok(()),
    }
}

/// Writes the word of a verb, and ends the line.
fn write_verb<K: Sink>(out: &mut K, verb: Verb) -> Result<(), Failed>
    ensures { Writes K.tells out.old out.new (verb_text verb ++ newline) result }
{
    put_pieces(out, &[verb.word(), b"\n"])
}

/// Writes the line of an operator's act.
fn write_act_line<K: Sink>(out: &mut K, time: u64, slot: Slot, verb: Verb) -> Result<(), Failed>
    ensures { Writes K.tells out.old out.new (act_line time slot verb) result }
{
    writes_compose::<K>();
    write_head(out, time, slot, b" act ")?;
    write_verb(out, verb)
}

/// Writes the line of an operator's act in a step, where there was one.
#[tactic(auto, unfolding(crate::specs::Parts::act_line))]
fn write_act<K: Sink>(out: &mut K, time: u64, step: &Emit) -> Result<(), Failed>
    ensures { Writes K.tells out.old out.new (act_text time step.now.act) result }
{
    match step.act {
        Some((slot, verb)) => write_act_line(out, time, slot, verb),
        None => Ok(()),
    }
}

/// Writes the line of what a step printed, where it printed anything.
#[tactic(auto, unfolding(crate::specs::Parts::out_line))]
fn write_out<K: Sink>(out: &mut K, time: u64, slot: Slot, step: &Emit) -> Result<(), Failed>
    ensures { Writes K.tells out.old out.new (out_text time slot step.now.printed.items) result }
{
    if step.printed.is_empty() {
        return Ok(());
    }
    write_out_line(out, time, slot, &step.printed)
}

/// Writes the lines of a turn: the system call and the denial in a step.
fn write_turn<K: Sink>(out: &mut K, time: u64, slot: Slot, step: &Emit) -> Result<(), Failed>
    ensures { Writes K.tells out.old out.new
        (turn_text time slot step.now.made step.now.denial) result }
{
    writes_compose::<K>();
    write_call(out, time, slot, step)?;
    write_denied(out, time, slot, step)
}

/// Writes the lines of a step of a slot.
fn write_lines<K: Sink>(out: &mut K, time: u64, slot: Slot, step: &Emit) -> Result<(), Failed>
    ensures { Writes K.tells out.old out.new (lines_of_step time (Some slot) step.now) result }
{
    writes_compose::<K>();
    write_turn(out, time, slot, step)?;
    write_act(out, time, step)?;
    write_out(out, time, slot, step)
}

/// Writes the lines of the trace that tell a step which began at a time, in ticks: for each system
/// call `@TIME SLOT call CLASS A0 A1 A2 A3`, where a reply was put into the registers ` = R0 R1 R2
/// R3` after it, and where it was refused the word of the rule that it broke (TRD 104, "System Call
/// API"); for a denial `@TIME SLOT denied ACCESS ADDRESS RULE`; for an operator's act `@TIME SLOT
/// act VERB`; for bytes that were printed `@TIME SLOT out HEX`. Class, time and slot are decimal;
/// registers and addresses have eight digits of base 16, a byte has two. A step that shows none of
/// these, or that was no slot's, has no line.
///
/// [`Failed`] comes only where the sink's count of faults rose; a part of the lines was written
/// then that lacks at least one byte. No memory is taken.
#[tactic(auto, unfolding(crate::specs::Trace::trace_text))]
pub fn write_trace<K: Sink>(time: u64, step: &Emit, out: &mut K) -> Result<(), Failed>
    ensures { Writes K.tells out.old out.new (trace_text time step.now) result }
{
    match step.slot {
        Some(slot) => write_lines(out, time, slot, step),
        None => Ok(()),
    }
}
