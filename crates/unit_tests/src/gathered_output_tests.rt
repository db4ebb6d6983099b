use gathered_output::*;
use std::test::Fail;
use tk_outside::{Failed, MemSink, Sink, put_pieces};

#[derive(Clone, Copy)]
struct Pieces<'a> {
    pieces: &'a [&'a [u8]],
}

impl Text for Pieces<'_> {
    ghost use Rattle.tk_outside.specs.Text.{text_of};

    ghost bytes = { λ text. text_of text.pieces.now };

    fn write_to<K: Sink>(&self, out: &mut K) -> Result<(), Failed> {
        put_pieces(out, self.pieces)
    }
}

#[test]
fn texts_are_gathered_until_they_are_flushed(rt: HostRuntime) -> Result<(), Fail> {
    let mut sink = MemSink::new(rt.alloc(), 100, 100, vec![in rt.alloc()]?)?;
    let mut buffer = OutputBuffer::new();
    for number in [b"1", b"2", b"3"] {
        let pieces: [&[u8]; 3] = [b"line ", number, b"\n"];
        buffer.put(&Pieces { pieces: &pieces }, &mut sink)?;
        assert!(rt; sink.written().is_empty());
    }
    buffer.flush(&mut sink)?;
    assert!(rt; sink.written() == b"line 1\nline 2\nline 3\n".as_slice());
    Ok(())
}

#[test]
fn a_text_that_is_longer_than_the_buffer_is_not_gathered(rt: HostRuntime) -> Result<(), Fail> {
    let mut sink = MemSink::new(rt.alloc(), 50_000, 50_000, vec![in rt.alloc()]?)?;
    let mut buffer = OutputBuffer::new();
    let long = [b'x'; BUFFER_LEN];
    buffer.put(&Pieces { pieces: &[b"a"] }, &mut sink)?;
    buffer.put(
        &Pieces {
            pieces: &[&long, &long],
        },
        &mut sink,
    )?;
    assert!(rt; sink.written().len() == 1 + 2 * BUFFER_LEN);
    Ok(())
}
