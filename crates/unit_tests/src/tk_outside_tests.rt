use std::fs;
use std::test::Fail;
use tk_outside::*;

fn put_samples<K: Sink>(out: &mut K) -> Result<(), Failed> {
    put_number(out, 18446744073709551615)?;
    put_all(out, b" ")?;
    put_hex(out, 0x20000020, 8)?;
    put_all(out, &hex_text(0xfffffff0))?;
    put_hex(out, 0xfa, 3)
}

#[test]
fn numbers_are_written_in_their_digits(rt: HostRuntime) -> Result<(), Fail> {
    let mut sink = MemSink::new(rt.alloc(), 100, 100, vec![in rt.alloc()]?)?;
    put_samples(&mut sink)?;
    let want = "18446744073709551615 20000020fffffff00fa";
    assert!(rt; sink.written() == want.as_bytes());
    Ok(())
}

fn read_three<H: Shelf>(shelf: &mut H) -> Result<usize, Failed> {
    shelf.read(&mut [0; 3])
}

#[test]
fn a_shelf_in_memory_fails_at_the_call_that_is_named(rt: HostRuntime) -> Result<(), Fail> {
    let alloc = rt.alloc();
    let names = vec![in alloc; String::from_str(alloc, "greeting")?]?;
    let files = vec![in alloc; Vec::from_slice(alloc, b"hello")?]?;
    assert!(rt; are_distinct(&names) && names.len() == files.len());
    let mut shelf = MemShelf::new(alloc, names, files, 2, vec![in alloc; 3]?)?;
    shelf.begin("greeting")?;
    assert!(rt; read_three(&mut shelf)? == 2);
    assert!(rt; read_three(&mut shelf).is_err());
    assert!(rt; read_three(&mut shelf)? == 2);
    assert!(rt; read_three(&mut shelf)? == 1);
    Ok(())
}

#[test]
fn the_system_gives_a_file_in_parts(rt: HostRuntime) -> Result<(), Fail> {
    let path = "tk_outside-greeting.txt";
    fs::write(&rt, path, "hello")?;
    let mut buffer = [0u8; 3];
    let mut shelf = FileShelf::new(&rt);
    shelf.begin(path)?;
    assert!(rt; shelf.read(&mut buffer)? == 3 && &buffer == b"hel");
    assert!(rt; shelf.read(&mut buffer)? == 2 && &buffer == b"lol");
    assert!(rt; shelf.read(&mut buffer)? == 0);
    fs::remove_file(&rt, path)?;
    assert!(rt; shelf.begin(path).is_err());
    Ok(())
}

#[test]
fn the_system_gives_no_directory(rt: HostRuntime) {
    let mut shelf = FileShelf::new(&rt);
    let begun = shelf.begin(".");
    assert!(rt; begun.is_err() || shelf.read(&mut [0; 3]).is_err());
}

#[test]
fn the_standard_output_takes_a_text(rt: HostRuntime) {
    assert!(rt; put_all(&mut OutSink::new(&rt), b"taken\n").is_ok());
}
