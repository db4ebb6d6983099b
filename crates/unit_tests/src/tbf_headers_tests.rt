use std::test::Fail;
use tbf_headers::*;
use test_objects::{Tlv, object};

const MAIN: Tlv<'_> = Tlv::Main {
    init: 0,
    protected: 0,
    minimum_ram: 256,
};

/// Asks to exit with 7.
const CODE: [u32; 4] = [0x0060_0713, 0x0000_0513, 0x0070_0593, 0x0000_0073];

/// An object of 96 bytes as elf2tab orders its header: Main, Program, and the name `blink`. These
/// bytes were written by hand from the format.
const BLINK: [u8; 96] = [
    0x02, 0x00, 0x44, 0x00, 0x60, 0x00, 0x00, 0x00, 0x01, 0x00, 0x00, 0x00, 0x34, 0x6c, 0x30, 0x6e,
    0x01, 0x00, 0x0c, 0x00, 0x00, 0x00, 0x00, 0x00, 0x00, 0x00, 0x00, 0x00, 0x00, 0x01, 0x00, 0x00,
    0x09, 0x00, 0x14, 0x00, 0x00, 0x00, 0x00, 0x00, 0x00, 0x00, 0x00, 0x00, 0x00, 0x01, 0x00, 0x00,
    0x54, 0x00, 0x00, 0x00, 0x01, 0x00, 0x00, 0x00, 0x03, 0x00, 0x05, 0x00, 0x62, 0x6c, 0x69, 0x6e,
    0x6b, 0x00, 0x00, 0x00, 0x13, 0x07, 0x60, 0x00, 0x13, 0x05, 0x00, 0x00, 0x93, 0x05, 0x70, 0x00,
    0x73, 0x00, 0x00, 0x00, 0x00, 0x00, 0x00, 0x00, 0x00, 0x00, 0x00, 0x00, 0x00, 0x00, 0x00, 0x00,
];

#[test]
fn built_as_written_by_hand(rt: HostRuntime) {
    let program = Tlv::Program {
        init: 0,
        protected: 0,
        minimum_ram: 256,
        binary_end: 0x54,
    };
    let built: [u8; 96] = object(1, &[MAIN, program, Tlv::Name(b"blink")], &CODE);
    assert_eq!(rt; built.as_slice(), BLINK.as_slice());
}

#[test]
fn program_before_main_and_name(rt: HostRuntime) -> Result<(), Fail> {
    let header = read_header(&BLINK).ok().ok_or("the header has no fault")?;
    let main = header.main.ok_or("there is a Program TLV")?;
    assert_eq!(rt; main.binary_end, Some(0x54));
    assert_eq!(rt;
        header.name().ok_or("there is a name")?,
        b"blink".as_slice()
    );
    Ok(())
}

#[test]
fn one_command_permitted(rt: HostRuntime) -> Result<(), Fail> {
    // Command 1 of driver 1 alone.
    let permitted: [u8; 128] = object(1, &[MAIN, Tlv::Permission(1, 0, 2, 0)], &[]);
    let header = read_header(&permitted)
        .ok()
        .ok_or("the header has no fault")?;
    let perms = header.perms().ok_or("there are permissions")?;
    assert!(rt; perms.allows(1, 1));
    assert!(rt; !perms.allows(1, 0));
    assert!(rt; !perms.allows(1, 65));
    assert!(rt; !perms.allows(2, 1));
    assert!(rt; perms.lists(1));
    assert!(rt; !perms.lists(0x50001));
    Ok(())
}

#[test]
fn two_regions_and_fixed_addresses(rt: HostRuntime) -> Result<(), Fail> {
    let regions = Tlv::Regions(&[0x1000, 0x200, 0x2000, 0x400]);
    let fixed = Tlv::Fixed(0x8000_0400, 0x2000_0038);
    let object: [u8; 52] = object(1, &[regions, fixed, Tlv::Regions(&[])], &[]);
    let header = read_header(&object).ok().ok_or("the header has no fault")?;
    assert_eq!(rt; header.region(0), Some((0x1000, 0x200)));
    assert_eq!(rt; header.region(1), Some((0x2000, 0x400)));
    assert_eq!(rt; header.region(2), None);
    assert_eq!(rt; header.region_count(), 2);
    assert_eq!(rt; header.fixed, Some((0x8000_0400, 0x2000_0038)));
    Ok(())
}
