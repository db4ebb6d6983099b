//! The program over a shelf and a sink in memory: each call of them that fails in turn, each room of the sink, and
//! hostile applications. The texts follow from the rules of the board; none was taken from the program.
use image_make::attack_of;
use std::alloc::Global;
use std::process::Abort;
use std::test::Fail;
use tk_outside::{MemShelf, MemSink, are_distinct, put_pieces};
use tock_cli::serve::serve;

/// An application that exits with the completion code 7: `li a4, 6`, `li a0, 0`, `li a1, 7`, `ecall`.
const EXIT_7: [u8; 64] = [
    0x02, 0x00, 0x20, 0x00, 0x40, 0x00, 0x00, 0x00, 0x01, 0x00, 0x00, 0x00, 0x42, 0x01, 0x2c, 0x00,
    0x01, 0x00, 0x0c, 0x00, 0x00, 0x00, 0x00, 0x00, 0x00, 0x00, 0x00, 0x00, 0x00, 0x01, 0x00, 0x00,
    0x13, 0x07, 0x60, 0x00, 0x13, 0x05, 0x00, 0x00, 0x93, 0x05, 0x70, 0x00, 0x73, 0x00, 0x00, 0x00,
    0x00, 0x00, 0x00, 0x00, 0x00, 0x00, 0x00, 0x00, 0x00, 0x00, 0x00, 0x00, 0x00, 0x00, 0x00, 0x00,
];

/// The text of its run.
const TEXT: &[u8] =
    b"==\nslot 0 - terminated 7 turns 4 restarts 0\nleds 0000\nend done steps 4 time 4\n";

/// More bytes than any text here has.
const ROOM: usize = 200;

/// What stands outside of the program: the two files; the numbers of the calls of the shelf and of the sink that
/// fail, none for 0; and the sink's room.
#[derive(Clone, Copy)]
struct Outside<'a> {
    flash: &'a [u8],
    script: &'a [u8],
    shelf: u64,
    sink: u64,
    room: usize,
}

/// The application above with an empty script, and no call fails.
const EXITS: Outside<'static> = Outside {
    flash: &EXIT_7,
    script: b"",
    shelf: 0,
    sink: 0,
    room: ROOM,
};

/// A shelf with the two files under `flash` and `script`.
fn shelf_of(rt: &impl Abort, alloc: Global, outside: &Outside<'_>) -> Result<MemShelf, Fail> {
    let names = vec![in alloc;
        String::from_str(alloc, "flash")?,
        String::from_str(alloc, "script")?,
    ]?;
    let files = vec![in alloc;
        Vec::from_slice(alloc, outside.flash)?,
        Vec::from_slice(alloc, outside.script)?,
    ]?;
    assert!(rt; are_distinct(&names) && names.len() == files.len());
    Ok(MemShelf::new(alloc, names, files, 4096, vec![in alloc; outside.shelf]?)?)
}

/// What the program answers to `tock boot flash script --turns 1000`, and the sink after it, which takes one byte at a
/// time. A board is left exactly at answer 0.
fn served(rt: &impl Abort, alloc: Global, outside: &Outside<'_>) -> Result<(u8, MemSink), Fail> {
    let mut words = Vec::new(alloc);
    for word in ["tock", "boot", "flash", "script", "--turns", "1000"] {
        words.push(String::from_str(alloc, word)?)?;
    }
    let mut shelf = shelf_of(rt, alloc, outside)?;
    let mut sink = MemSink::new(alloc, 1, outside.room, vec![in alloc; outside.sink]?)?;
    let mut last = None;
    let status = serve(alloc, &words, &mut shelf, &mut sink, &mut last);
    assert_eq!(rt; last.is_some(), status == 0);
    Ok((status, sink))
}

/// Call 1 is for the flash file; those for the script file come after it, and then there are no more.
#[test]
fn a_shelf_that_fails_is_answered_by_3_and_the_file(rt: HostRuntime) -> Result<(), Fail> {
    let (flash, script) = ("file flash fault\n", "file script fault\n");
    let mut line = flash;
    for call in 1..100 {
        let outside = Outside {
            shelf: call,
            ..EXITS
        };
        let (status, sink) = served(&rt, rt.alloc(), &outside)?;
        if line == script && status == 0 {
            assert!(rt; sink.written() == TEXT);
            return Ok(());
        }
        if call > 1 && sink.written() == script.as_bytes() {
            line = script;
        }
        assert!(rt;
            status == 3 && sink.written() == line.as_bytes(),
            "at call {call}"
        );
    }
    Err(Fail::from("each call failed"))
}

/// Each write takes one byte, so before call k + 1 the sink has k bytes.
#[test]
fn a_sink_that_fails_or_is_full_is_answered_by_6_and_a_front(rt: HostRuntime) -> Result<(), Fail> {
    for k in 0..=TEXT.len() {
        let failing = Outside {
            sink: k as u64 + 1,
            ..EXITS
        };
        let full = Outside { room: k, ..EXITS };
        let want = if k < TEXT.len() { 6 } else { 0 };
        for outside in [failing, full] {
            let (status, sink) = served(&rt, rt.alloc(), &outside)?;
            assert!(rt;
                status == want && sink.written() == TEXT.split_at(k).0,
                "at {k}"
            );
        }
    }
    Ok(())
}

/// How each attack ends: what the report says of the attacker, and of the run's end.
const ATTACKS: [(&[u8], &[u8]); 10] = [
    (
        b"faulted store 80000400 no-region turns 1 restarts 0",
        b"done steps 5 time 5",
    ),
    (
        b"faulted store 800003a0 no-region turns 8 restarts 0",
        b"done steps 12 time 12",
    ),
    (b"terminated 9 turns 7 restarts 0", b"done steps 11 time 11"),
    (b"terminated 6 turns 9 restarts 0", b"done steps 13 time 13"),
    (b"terminated 6 turns 9 restarts 0", b"done steps 13 time 13"),
    (b"terminated 0 turns 9 restarts 0", b"done steps 15 time 50"),
    (
        b"running turns 996 restarts 332",
        b"turns steps 1000 time 1000",
    ),
    (
        b"faulted fetch 20000060 no-region turns 2 restarts 0",
        b"done steps 6 time 6",
    ),
    (b"terminated 0 turns 8 restarts 0", b"done steps 12 time 12"),
    (
        b"faulted fetch 20000024 unknown-class turns 2 restarts 0",
        b"done steps 6 time 6",
    ),
];

/// The text of a run of an attack.
fn text_of(alloc: Global, attacker: &[u8], end: &[u8]) -> Result<MemSink, Fail> {
    let mut text = MemSink::new(alloc, ROOM, ROOM, Vec::new(alloc))?;
    let other = b"\nslot 1 - terminated 7 turns 4 restarts 0\nleds 0000\nend ";
    put_pieces(&mut text, &[b"==\nslot 0 - ", attacker, other, end, b"\n"])?;
    Ok(text)
}

#[test]
fn each_attack_has_its_end_and_the_other_application_its_own(rt: HostRuntime) -> Result<(), Fail> {
    let alloc = rt.alloc();
    for (number, (attacker, end)) in ATTACKS.iter().enumerate() {
        let Some((flash, script)) = attack_of(alloc, number as u32)? else {
            return Err(Fail::from("there is no such attack"));
        };
        let outside = Outside {
            flash: &flash,
            script: &script,
            ..EXITS
        };
        let (status, sink) = served(&rt, alloc, &outside)?;
        let text = text_of(alloc, attacker, end)?;
        assert!(rt;
            status == 0 && sink.written() == text.written(),
            "attack {number}"
        );
    }
    Ok(())
}
