use pmp_regions::*;
use tk_base::{Access, Addr, Rule, Width};

/// Flash from 0x2000002C to 0x20000044, to be executed and read, and RAM from 0x80000000 to
/// 0x80000100, to be read and written.
fn two_regions() -> Pmp {
    let mut pmp = Pmp::new();
    pmp.set_off(0, 0x2000002C);
    pmp.set_tor(1, 0x20000044, true, false, true);
    pmp.set_off(2, 0x80000000);
    pmp.set_tor(3, 0x80000100, true, true, false);
    pmp
}

#[test]
fn a_range_begins_at_the_entry_below_and_ends_before_its_own_address(rt: HostRuntime) {
    let pmp = two_regions();
    for (access, at, width, answer) in [
        (Access::Fetch, 0x2000002C, Width::Half, Ok(())),
        (Access::Load, 0x20000040, Width::Word, Ok(())),
        (Access::Store, 0x20000040, Width::Byte, Err(Rule::NoWrite)),
        (Access::Load, 0x2000002B, Width::Byte, Err(Rule::NoRegion)),
        (Access::Load, 0x20000044, Width::Byte, Err(Rule::NoRegion)),
        (Access::Fetch, 0x80000000, Width::Half, Err(Rule::NoExecute)),
        (Access::Store, 0x800000FC, Width::Word, Ok(())),
        (Access::Store, 0x80000100, Width::Word, Err(Rule::NoRegion)),
        (Access::Load, 0x800000FE, Width::Word, Err(Rule::NoRegion)),
        (Access::Load, 0xFFFFFFFE, Width::Word, Err(Rule::NoRegion)),
    ] {
        assert_eq!(rt; pmp.check(access, at, width), answer, "at {at}");
    }
}

#[test]
fn the_lowest_entry_that_matches_decides(rt: HostRuntime) {
    let mut pmp = Pmp::new();
    pmp.set_tor(0, 0x1000, false, true, false);
    pmp.set_tor(2, 0x2000, true, true, true);
    assert_eq!(rt;
        pmp.check(Access::Load, 0x800, Width::Word),
        Err(Rule::NoRead)
    );
    assert_eq!(rt;
        pmp.check(Access::Load, 0xFFE, Width::Word),
        Err(Rule::NoRegion)
    );
    assert_eq!(rt; pmp.check(Access::Load, 0x1000, Width::Word), Ok(()));
    pmp.clear(0);
    assert_eq!(rt; pmp.check(Access::Load, 0x800, Width::Word), Ok(()));
    assert_eq!(rt; pmp.check(Access::Load, 0xFFE, Width::Word), Ok(()));
}

/// Whether both registers answer the same to every kind and width of access at an address.
fn answer_alike(left: &Pmp, right: &Pmp, at: Addr) -> bool {
    for (access, width) in [
        (Access::Fetch, Width::Byte),
        (Access::Fetch, Width::Half),
        (Access::Fetch, Width::Word),
        (Access::Load, Width::Byte),
        (Access::Load, Width::Half),
        (Access::Load, Width::Word),
        (Access::Store, Width::Byte),
        (Access::Store, Width::Half),
        (Access::Store, Width::Word),
    ] {
        if left.check(access, at, width) != right.check(access, at, width) {
            return false;
        }
    }
    true
}

#[test]
fn settling_changes_no_answer_at_the_edges_of_both_ranges(rt: HostRuntime) {
    let searched = two_regions();
    let mut settled = two_regions();
    settled.settle();
    let flash = (0x20000028..0x20000030).chain(0x20000040..0x20000048);
    let ram = (0x7FFFFFFC..0x80000004).chain(0x800000FC..0x80000104);
    for at in flash.chain(ram) {
        assert!(rt; answer_alike(&settled, &searched, at), "at {at}");
    }
    assert_eq!(rt;
        settled.check(Access::Fetch, 0x20000042, Width::Half),
        Ok(())
    );
    assert_eq!(rt;
        settled.check(Access::Store, 0x80000000, Width::Word),
        Ok(())
    );
}

#[test]
fn a_lower_entry_decides_in_a_settled_range(rt: HostRuntime) {
    let mut pmp = two_regions();
    pmp.set_off(0, 0x80000010);
    pmp.set_tor(1, 0x80000020, true, false, true);
    pmp.settle();
    for (access, at, answer) in [
        (Access::Store, 0x8000000C, Ok(())),
        (Access::Store, 0x80000010, Err(Rule::NoWrite)),
        (Access::Fetch, 0x80000010, Ok(())),
        (Access::Store, 0x8000001E, Err(Rule::NoRegion)),
        (Access::Store, 0x80000020, Ok(())),
    ] {
        assert_eq!(rt; pmp.check(access, at, Width::Word), answer, "at {at}");
    }
}

#[test]
fn an_entry_that_is_set_after_settling_decides(rt: HostRuntime) {
    let mut pmp = two_regions();
    pmp.settle();
    pmp.set_tor(3, 0x80000080, true, false, false);
    assert_eq!(rt;
        pmp.check(Access::Store, 0x80000000, Width::Word),
        Err(Rule::NoWrite)
    );
    assert_eq!(rt;
        pmp.check(Access::Load, 0x80000080, Width::Word),
        Err(Rule::NoRegion)
    );
    pmp.settle();
    pmp.clear(1);
    assert_eq!(rt;
        pmp.check(Access::Fetch, 0x2000002C, Width::Half),
        Err(Rule::NoRegion)
    );
    assert_eq!(rt; pmp.check(Access::Load, 0x8000007C, Width::Word), Ok(()));
}
