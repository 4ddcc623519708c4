// Slip books with few places.
use crate::answers::number_of;
use crate::call_tables::{check_empty, check_one_place};
use book::LoadBook;
use slips::{Slip, SlipBook};
use std::test::Fail;

/// What a list may hold before it is lent.
pub const OLD: Slip = Slip {
    segment: 0,
    quarter_hour: 0,
    reading: 7,
};

// The same as on one place among the tables of calls: it stays by its name.
#[test]
fn one_place(rt: HostRuntime) {
    check_one_place(&rt, &mut SlipBook::new(&mut [OLD]), 0);
}

#[test]
fn no_place(rt: HostRuntime) {
    let mut list = [OLD; 0];
    let mut book = SlipBook::new(&mut list);
    assert_eq!(rt; book.free(), 0);
    assert_eq!(rt; number_of(book.post(0, 0, 1)), 15);
    check_empty(&rt, &mut book, 0);
}

#[test]
fn more_slips_than_cells(rt: HostRuntime) -> Result<(), Fail> {
    let mut list = [OLD; 6_401];
    let mut book = SlipBook::new(&mut list);
    assert_eq!(rt; book.free(), 6_400);
    book.post(0, 0, 1)?;
    assert_eq!(rt; book.free(), 6_399);
    book.clear();
    assert_eq!(rt; book.free(), 6_400);
    Ok(())
}

#[test]
fn withdrawn_from_the_middle(rt: HostRuntime) -> Result<(), Fail> {
    let mut list = [OLD; 3];
    let mut book = SlipBook::new(&mut list);
    for segment in 1..4u8 {
        book.post(segment, 0, u32::from(segment) * 10)?;
    }
    assert_eq!(rt; book.withdraw(1, 0)?, 10);
    assert_eq!(rt; book.read(1, 0)?, None);
    assert_eq!(rt; book.read(2, 0)?, Some(20));
    assert_eq!(rt; book.read(3, 0)?, Some(30));
    assert_eq!(rt; book.free(), 1);
    Ok(())
}
