//! The report of a board: a line for each slot, for each application that was not placed, for the
//! LEDs and for the end of the run.
ghost use Rattle.std.specs.Prelude.{◌≡◌, ◌++◌, codes, decimal};
ghost use Rattle.tk_base.specs.declared.upcall.Wait.TheVariants.{For};
ghost use Rattle.tk_outside.specs.Writes.{Writes};
ghost use Rattle.board_report.specs.Words.{newline};
ghost use Rattle.board_report.specs.Report.{denial_text, wait_text, state_text};
ghost use Rattle.board_report.specs.Parts.{dropped_text};
ghost use Rattle.board_report.specs.Parts.{slot_head};
ghost use Rattle.board_report.specs.Report.{slot_text, slot_texts, unplaced_text};
ghost use Rattle.board_report.specs.Parts.{turns_text};
ghost use Rattle.board_report.specs.Report.{led_text};
ghost use Rattle.board_report.specs.Parts.{unplaced_texts, led_texts, led_list};
ghost use Rattle.board_report.specs.Report.{leds_text, end_words, end_line, report_text};

use crate::words::{access_word, fault_word, rule_word};
use itoa::Buffer;
use process_record::{SlotLine, State, Summary, shown_name};
use tk_base::{Denial, PlaceFault, Wait};
use tk_outside::{Failed, Sink, hex_text, put_all, put_number, put_pieces, writes_compose};

/// How a run ended.
#[derive(Clone, Copy, Debug, PartialEq, Eq)]
pub enum End {
    /// No choice was left.
    Done,
    /// The given number of steps was made, and a choice was left.
    Turns,
}

/// Writes a denial: its access, its address and its rule.
pub fn write_denial<K: Sink>(out: &mut K, denial: &Option<Denial>) -> Result<(), Failed>
    ensures { Writes K.tells out.old out.new (denial_text denial.now) result }
{
    match denial {
        Some(denial) => put_pieces(
            out,
            &[
                b" ",
                access_word(denial.access),
                b" ",
                &hex_text(denial.address),
                b" ",
                rule_word(denial.rule),
            ],
        ),
        None => Ok(()),
    }
}

/// Writes that a process ended, and its completion code.
fn write_terminated<K: Sink>(out: &mut K, code: u32) -> Result<(), Failed>
    ensures { Writes K.tells out.old out.new (codes "terminated " ++ decimal code) result }
{
    writes_compose::<K>();
    put_all(out, b"terminated ")?;
    put_number(out, u64::from(code))
}

/// Writes that a process was stopped, and at which denial.
fn write_faulted<K: Sink>(out: &mut K, denial: &Option<Denial>) -> Result<(), Failed>
    ensures { Writes K.tells out.old out.new (codes "faulted" ++ denial_text denial.now) result }
{
    writes_compose::<K>();
    put_all(out, b"faulted")?;
    write_denial(out, denial)
}

/// Writes that a process waits for the upcall of a driver and a number alone.
fn write_waiting<K: Sink>(out: &mut K, driver: u32, number: u32) -> Result<(), Failed>
    ensures { Writes K.tells out.old out.new (wait_text (For driver number)) result }
{
    let mut digits = Buffer::new();
    put_pieces(
        out,
        &[
            b"waiting ",
            &hex_text(driver),
            b" ",
            digits.format(number).as_bytes(),
        ],
    )
}

/// Writes what a process waits for that has yielded.
fn write_wait<K: Sink>(out: &mut K, wait: &Wait) -> Result<(), Failed>
    ensures { Writes K.tells out.old out.new (wait_text wait.now) result }
{
    match *wait {
        Wait::No => put_all(out, b"yielded"),
        Wait::For(driver, number) => write_waiting(out, driver, number),
        Wait::Given(_) => put_all(out, b"awaited"),
    }
}

/// Writes the state of a process.
fn write_state<K: Sink>(out: &mut K, line: &SlotLine) -> Result<(), Failed>
    ensures { Writes K.tells out.old out.new
        (state_text line.now.held line.now.state line.now.wait line.now.denial) result }
{
    if line.held {
        return put_all(out, b"stopped");
    }
    match line.state {
        State::Running => put_all(out, b"running"),
        State::Yielded => write_wait(out, &line.wait),
        State::Terminated(code) => write_terminated(out, code),
        State::Faulted => write_faulted(out, &line.denial),
    }
}

/// Writes what comes before the state in the line of a slot.
fn write_head<K: Sink>(out: &mut K, slot: usize, line: &SlotLine) -> Result<(), Failed>
    ensures { Writes K.tells out.old out.new (slot_head slot line.now) result }
{
    let mut buffer = Buffer::new();
    let name = shown_name(&line.name);
    put_pieces(
        out,
        &[b"slot ", buffer.format(slot).as_bytes(), b" ", &name, b" "],
    )
}

/// Writes how many upcalls were dropped, where any was.
fn write_dropped<K: Sink>(out: &mut K, dropped: u32) -> Result<(), Failed>
    ensures { Writes K.tells out.old out.new (dropped_text dropped ++ newline) result }
{
    if dropped == 0 {
        return put_all(out, b"\n");
    }
    let mut buffer = Buffer::new();
    put_pieces(
        out,
        &[b" dropped ", buffer.format(dropped).as_bytes(), b"\n"],
    )
}

/// Writes how many turns and restarts there were.
fn write_turns<K: Sink>(out: &mut K, line: &SlotLine) -> Result<(), Failed>
    ensures { Writes K.tells out.old out.new (turns_text line.now) result }
{
    let mut turns = Buffer::new();
    let mut restarts = Buffer::new();
    put_pieces(
        out,
        &[
            b" turns ",
            turns.format(line.turns).as_bytes(),
            b" restarts ",
            restarts.format(line.restarts).as_bytes(),
        ],
    )
}

/// Writes the line of a slot.
#[tactic(auto, unfolding(crate::specs::Report::slot_text))]
fn write_slot<K: Sink>(out: &mut K, slot: usize, line: &SlotLine) -> Result<(), Failed>
    ensures { Writes K.tells out.old out.new (slot_text slot line.now) result }
{
    writes_compose::<K>();
    write_head(out, slot, line)?;
    write_state(out, line)?;
    write_turns(out, line)?;
    write_dropped(out, line.dropped)
}

/// Writes the lines of the slots, slot 0 first.
fn write_slots<K: Sink>(out: &mut K, lines: &[SlotLine]) -> Result<(), Failed>
    ensures { Writes K.tells out.old out.new (slot_texts 0 lines.now) result }
{
    writes_compose::<K>();
    for (slot, line) in lines.iter().enumerate() {
        write_slot(out, slot, line)?;
    }
    Ok(())
}

/// Writes the line of an application that was not placed.
#[tactic(auto, unfolding(crate::specs::Report::unplaced_text))]
fn write_unplaced<K: Sink>(out: &mut K, app: &(u32, PlaceFault)) -> Result<(), Failed>
    ensures { Writes K.tells out.old out.new (unplaced_text app.now) result }
{
    let (offset, fault) = *app;
    let mut buffer = Buffer::new();
    put_pieces(
        out,
        &[
            b"unplaced ",
            buffer.format(offset).as_bytes(),
            b" ",
            fault_word(fault),
            b"\n",
        ],
    )
}

/// Writes the lines of the applications that were not placed.
fn write_all_unplaced<K: Sink>(out: &mut K, apps: &[(u32, PlaceFault)]) -> Result<(), Failed>
    ensures { Writes K.tells out.old out.new (unplaced_texts apps.now) result }
{
    writes_compose::<K>();
    for app in apps {
        write_unplaced(out, app)?;
    }
    Ok(())
}

/// Writes whether each LED is on.
fn write_led_states<K: Sink>(out: &mut K, leds: u32, count: u32) -> Result<(), Failed>
    ensures { Writes K.tells out.old out.new (led_texts leds count) result }
{
    writes_compose::<K>();
    for led in 0..count {
        put_all(out, &[led_glyph(leds, led)])?;
    }
    Ok(())
}

/// Whether an LED is on, as 0 or 1.
fn led_glyph(leds: u32, led: u32) -> u8
    ensures { result ≡ led_text leds led }
{
    if led >= 32 {
        return b'0';
    }
    if (leds >> led) % 2 == 1 { b'1' } else { b'0' }
}

/// Writes the LEDs, or `-` where there is none.
#[tactic(auto, unfolding(crate::specs::Parts::led_list))]
fn write_led_list<K: Sink>(out: &mut K, leds: u32, count: u32) -> Result<(), Failed>
    ensures { Writes K.tells out.old out.new (led_list leds count) result }
{
    if count == 0 {
        return put_all(out, b"-");
    }
    write_led_states(out, leds, count)
}

/// Writes the line of the LEDs.
fn write_leds<K: Sink>(out: &mut K, leds: u32, count: u32) -> Result<(), Failed>
    ensures { Writes K.tells out.old out.new (leds_text leds count) result }
{
    writes_compose::<K>();
    put_all(out, b"leds ")?;
    write_led_list(out, leds, count)?;
    put_all(out, b"\n")
}

/// The word of an end.
fn end_word(end: End) -> &'static [u8]
    ensures { result.now ≡ end_words end }
{
    match end {
        End::Done => b"done",
        End::Turns => b"turns",
    }
}

/// Writes the line of the end.
#[tactic(auto, unfolding(crate::specs::Report::end_line))]
fn write_end<K: Sink>(out: &mut K, end: End, steps: u64, time: u64) -> Result<(), Failed>
    ensures { Writes K.tells out.old out.new (end_line end steps time) result }
{
    let mut step_digits = Buffer::new();
    let mut time_digits = Buffer::new();
    put_pieces(
        out,
        &[
            b"end ",
            end_word(end),
            b" steps ",
            step_digits.format(steps).as_bytes(),
            b" time ",
            time_digits.format(time).as_bytes(),
            b"\n",
        ],
    )
}

/// Writes the report: a line for each slot that has a process, slot 0 first; one for each
/// application that was not placed, in flash order; the LEDs; and the end. After a [`Failed`],
/// which comes only where the sink's count of faults rose, a part of it was written.
#[tactic(auto, unfolding(crate::specs::Report::report_text))]
pub fn write_report<K: Sink>(summary: &Summary, end: End, out: &mut K) -> Result<(), Failed>
    ensures { Writes K.tells out.old out.new (report_text summary.now end) result }
{
    writes_compose::<K>();
    write_slots(out, &summary.slots)?;
    write_all_unplaced(out, &summary.unplaced)?;
    write_leds(out, summary.leds, summary.led_count)?;
    write_end(out, end, summary.steps, summary.time)
}
