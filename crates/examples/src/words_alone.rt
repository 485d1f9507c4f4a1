use std::test::Fail;
use words::leaf::{Leaf, LeafFault};
use words::number::{Number, TooLarge};
use words::sheet::{Sheet, SheetFault};
use words::spelling::is_name;

#[test]
fn numbers_in_range(rt: HostRuntime) {
    assert_eq!(rt; Number::of(b"32767"), Some(Ok(Number::Whole(327_670))));
    assert_eq!(rt; Number::of(b"-32768"), Some(Ok(Number::Whole(-327_680))));
    assert_eq!(rt; Number::of(b"-3276.8"), Some(Ok(Number::Tenths(-32_768))));
    assert_eq!(rt; Number::of(b"-0.4"), Some(Ok(Number::Tenths(-4))));
    assert_eq!(rt; Number::of(b"-0.0"), Some(Ok(Number::Tenths(0))));
    assert_eq!(rt;
        Number::of(b"000000000000000000000007"),
        Some(Ok(Number::Whole(70)))
    );
}

#[test]
fn numbers_out_of_range(rt: HostRuntime) {
    assert_eq!(rt; Number::of(b"32768"), Some(Err(TooLarge)));
    assert_eq!(rt; Number::of(b"3276.8"), Some(Err(TooLarge)));
    assert_eq!(rt; Number::of(b"99999999999999999999"), Some(Err(TooLarge)));
}

#[test]
fn no_numbers(rt: HostRuntime) {
    assert_eq!(rt; Number::of(b"1."), None);
    assert_eq!(rt; Number::of(b".5"), None);
    assert_eq!(rt; Number::of(b"1.25"), None);
    assert_eq!(rt; Number::of(b"--1"), None);
    assert_eq!(rt; Number::of(b"+1"), None);
}

#[test]
fn names(rt: HostRuntime) {
    assert!(rt; is_name(b"abcdefghijk2"));
    assert!(rt; !is_name(b"abcdefghijkl3"));
    assert!(rt; !is_name(b"record"));
    assert_eq!(rt; Leaf::of(b"no"), Ok(Leaf::Truth(false)));
    assert_eq!(rt; Leaf::of(b"2x"), Err(LeafFault::Stray));
}

#[test]
fn sheets(rt: HostRuntime) -> Result<(), Fail> {
    let sheet = Sheet::read(rt.alloc(), b"name age")?;
    assert_eq!(rt; sheet.position(b"age"), Some(1));
    assert_eq!(rt; sheet.position(b"size"), None);
    let none = Sheet::read(rt.alloc(), b"")?;
    assert!(rt; none.labels().is_empty());
    assert_eq!(rt;
        Sheet::read(rt.alloc(), b"name  age").err(),
        Some(SheetFault::Bad)
    );
    assert_eq!(rt;
        Sheet::read(rt.alloc(), b"age age").err(),
        Some(SheetFault::Bad)
    );
    Ok(())
}
