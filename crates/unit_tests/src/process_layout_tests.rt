ghost use Rattle.std.specs.Prelude.{◌≡◌};
ghost use Rattle.process_layout.specs.LayoutView.{extents_at_start};

use process_layout::*;

/// A process with 256 bytes of RAM in a block of 1024, and 24 bytes of code after a header of 44.
fn first_layout() -> Layout
    ensures { result ≡ extents_at_start 0x2000002C 0x20000044 0x80000000 0x80000400 253 }
{
    Layout::for_start(0x2000002C, 0x20000044, 0x80000000, 0x80000400, 253)
}

#[test]
fn a_break_is_rounded_up_before_it_is_compared(rt: HostRuntime) {
    let mut layout = first_layout();
    assert!(rt; layout.set_break(0x7FFFFFFD));
    assert_eq!(rt; layout.brk, 0x80000000);
    assert!(rt; layout.set_break(0x800003FD));
    assert_eq!(rt; layout.brk, 0x80000400);
    layout.mark = 0x80000100;
    for refused in [0x80000401, 0xFFFFFFFD, 0xFFFFFFFF, 0x800000FC, 0] {
        assert!(rt; !layout.set_break(refused), "at {refused}");
        assert_eq!(rt; layout.brk, 0x80000400);
    }
    assert!(rt; layout.set_break(0x800000FD));
    assert_eq!(rt; layout.brk, 0x80000100);
}

#[test]
fn grants_grow_down_to_the_break(rt: HostRuntime) {
    let mut layout = first_layout();
    assert_eq!(rt; layout.take_grant(40), Some(0x800003D8));
    assert_eq!(rt; layout.take_grant(96), Some(0x80000378));
    assert_eq!(rt; layout.take_grant(636), None);
    assert_eq!(rt; layout.kernel_break, 0x80000378);
    assert_eq!(rt; layout.take_grant(632), Some(0x80000100));
}

#[test]
fn a_restart_forgets_grants_and_buffers(rt: HostRuntime) {
    let mut layout = first_layout();
    layout.brk = 0x80000200;
    layout.kernel_break = 0x80000378;
    layout.mark = 0x80000180;
    layout.restart(layout.first_break(253));
    assert_eq!(rt; layout, first_layout());
}

#[test]
fn an_interval_ends_before_its_end(rt: HostRuntime) {
    let layout = first_layout();
    assert!(rt; layout.in_ram(0x80000000, 256));
    assert!(rt; !layout.in_ram(0x80000000, 257));
    assert!(rt; layout.in_ram(0x80000100, 0));
    assert!(rt; !layout.in_ram(0x80000004, 0xFFFFFFFF));
    assert!(rt; layout.in_flash(0x20000040, 4));
    assert!(rt; !layout.in_flash(0x20000028, 4));
    assert!(rt; !layout.in_flash(0x20000040, 0xE0000000));
}
