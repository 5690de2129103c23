use cops_handles::{Handle, Kind, Table};
use cops_types::{Fault, RequestError};
use std::process::Abort;

struct Numbers;

impl Kind for Numbers {
    type Row = u8;

    const TAG: u8 = 0x43;

    ghost TAG = { 67 };
}

struct Others;

impl Kind for Others {
    type Row = u8;

    const TAG: u8 = 0x52;

    ghost TAG = { 82 };
}

#[test]
fn numbers_are_issued_once(rt: HostRuntime) {
    let mut table: Table<Numbers> = Table::starting_at(rt.alloc(), 1, 1);
    match table.open(7) {
        Ok(first) => {
            assert_eq!(rt; first.number(), 1);
            assert!(rt;
                matches!(table.open(8), Err(back) if back.row == 8 && matches!(back.error, RequestError::Refused(Fault::TooManyContexts)))
            );
            assert!(rt; matches!(table.get(first), Ok(7)));
            assert!(rt; matches!(table.replace(first, 9), Ok(7)));
            assert!(rt; matches!(table.close(first), Ok(9)));
            assert!(rt; matches!(table.get(first), Err(Fault::NoContext)));
            assert!(rt; matches!(table.open(3), Ok(second) if second.number() == 2));
        }
        Err(_) => assert!(rt; false),
    }
}

#[test]
fn the_last_number(rt: HostRuntime) {
    let mut table: Table<Numbers> = Table::starting_at(rt.alloc(), 18446744073709551614, 4);
    assert!(rt; matches!(table.open(7), Ok(last) if last.number() == 18446744073709551614));
    assert!(rt;
        matches!(table.open(8), Err(back) if back.row == 8 && matches!(back.error, RequestError::Refused(Fault::IdsSpent)))
    );
}

#[test]
fn on_the_wire(rt: HostRuntime) {
    let bytes = [0x43, 0, 0, 0, 0, 0, 0, 0, 1];
    let read: Result<Handle<Numbers>, Fault> = Handle::from_wire(bytes);
    match read {
        Ok(handle) => assert_eq!(rt; handle.to_wire(), bytes),
        Err(_) => assert!(rt; false),
    }
    let other: Result<Handle<Others>, Fault> = Handle::from_wire(bytes);
    assert!(rt; matches!(other, Err(Fault::NoContext)));
}

/// Opens a row, again if memory ran out: the row was then returned, and the table was as before.
fn insist(rt: &impl Abort, table: &mut Table<Numbers>, row: u8, number: u64) {
    let before = table.len();
    let opened = match table.open(row) {
        Err(back) => {
            assert_eq!(rt; back.error, RequestError::OutOfMemory);
            assert_eq!(rt; back.row, row);
            assert_eq!(rt; table.len(), before);
            table.open(row)
        }
        opened => opened,
    };
    match opened {
        Ok(handle) => {
            assert_eq!(rt; handle.number(), number);
            assert!(rt; matches!(table.get(handle), Ok(kept) if *kept == row));
        }
        Err(_) => panic!(rt; "a second try"),
    }
}

/// Each allocation may fail: run with the Nth allocation failing, for each N.
#[test]
fn refused_memory_hands_the_row_back(rt: HostRuntime) {
    let mut table: Table<Numbers> = Table::starting_at(rt.alloc(), 1, 40);
    for row in 1..=40 {
        insist(&rt, &mut table, row, u64::from(row));
    }
    assert_eq!(rt; table.len(), 40);
    assert!(rt; matches!(table.open(41), Err(back) if back.row == 41));
}
