use arrayvec::ArrayVec;
use board_devices::*;
use std::test::Fail;
use tk_base::Slot;

#[test]
fn a_uart_is_made_where_there_is_memory(rt: HostRuntime) -> Result<(), Fail> {
    let uart = Uart::new(rt.alloc(), 3)?;
    assert_eq!(rt; uart.ticks(), 3);
    assert_eq!(rt; uart.free(), 0);
    assert_eq!(rt; uart.held(), 0);
    Ok(())
}

#[test]
fn storage_is_made_where_there_is_memory(rt: HostRuntime) -> Result<(), Fail> {
    let mut faults = ArrayVec::new();
    faults.push(1);
    let mut stores = Stores::new(rt.alloc(), 1, 16, faults)?;
    assert_eq!(rt; stores.size(), 16);
    let mut last = [0; 4];
    stores.read(Slot::new(15), 12, &mut last);
    assert_eq!(rt; last, [0xFF; 4]);
    assert!(rt; stores.count(Slot::new(3)));
    assert!(rt; !stores.count(Slot::new(3)));
    Ok(())
}
