use crate::{Class, CodedMark, Height, Mark, Order, Refusal, Spelled, UnknownLetter, higher};
use std::test::Fail;

// Decimetres as a height, which the test writes only where they are one. No crate can use another's helpers of tests.
fn height(dm: i16) -> Result<Height, Fail> {
    Ok(Height::new(dm).ok_or("no height")?)
}

#[test]
fn codes(rt: HostRuntime) -> Result<(), Fail> {
    assert_eq!(rt; height(300)?.code(), 0x012c);
    assert_eq!(rt; height(-1)?.code(), 0xffff);
    assert_eq!(rt; Height::void().code(), 0x8000);
    assert_eq!(rt; Height::from_code(0x8001), Height::new(-32767));
    assert_eq!(rt; Class::Kept.code(), 6);
    assert_eq!(rt; Class::from_code(6), Some(Class::Kept));
    assert_eq!(rt; Class::from_code(7), None);
    Ok(())
}

#[test]
fn heights_are_spelled(rt: HostRuntime) -> Result<(), Fail> {
    assert!(rt; height(-32767)?.spelling().as_bytes() == b"-32767".as_slice());
    assert!(rt; height(0)?.spelling().as_bytes() == b"0".as_slice());
    assert!(rt; Height::void().spelling().as_bytes() == b".".as_slice());
    assert_eq!(rt; Height::from_spelling(b"32767"), Height::new(32767));
    assert_eq!(rt; Height::from_spelling(b"32768"), None);
    assert_eq!(rt; Height::from_spelling(b"."), Some(Height::void()));
    assert_eq!(rt; Height::from_spelling(b"-0"), None);
    assert_eq!(rt; Height::from_spelling(b"+1"), None);
    assert_eq!(rt; Height::from_spelling(b"01"), None);
    assert_eq!(rt; Height::from_spelling(b""), None);
    assert_eq!(rt; Height::from_spelling(b"-327670"), None);
    Ok(())
}

#[test]
fn beginnings_are_shared(rt: HostRuntime) {
    assert_eq!(rt; Height::shared_beginning(b"32768"), 4);
    assert_eq!(rt; Height::shared_beginning(b"-0"), 1);
    assert_eq!(rt; Height::shared_beginning(b"x"), 0);
    assert_eq!(rt; Class::shared_beginning(b"ok"), 1);
    assert_eq!(rt; Class::shared_beginning(b"x"), 0);
}

#[test]
fn classes_are_spelled(rt: HostRuntime) {
    assert!(rt; Class::Moist.spelling().as_bytes() == b"m".as_slice());
    assert_eq!(rt; Class::from_spelling(b"."), Some(Class::Void));
    assert_eq!(rt; Class::from_spelling(b"x"), None);
    assert_eq!(rt; Class::from_spelling(b"ok"), None);
    assert_eq!(rt; char::from(Class::Void), '.');
    assert_eq!(rt; Class::try_from('k'), Ok(Class::Kept));
    assert_eq!(rt; Class::try_from('K'), Err(UnknownLetter('K')));
}

#[test]
fn marks_are_ordered(rt: HostRuntime) -> Result<(), Fail> {
    assert!(rt; Height::void().at_most(&height(-32767)?));
    assert!(rt; !height(-32767)?.at_most(&Height::void()));
    assert_eq!(rt; higher(Class::Wet, Class::Strip), Class::Wet);
    assert_eq!(rt; height(-5)?.decimetres(), Some(-5));
    assert_eq!(rt; Height::new(i16::MIN), None);
    Ok(())
}

#[test]
fn refusals_are_numbered(rt: HostRuntime) {
    assert_eq!(rt; Refusal::Text(27).number(), 8);
    assert_eq!(rt; Refusal::Text(27).place(), 27);
    assert_eq!(rt; Refusal::NoLowering.number(), 26);
    assert_eq!(rt; Refusal::NoLowering.place(), 0);
}

#[test]
fn refusals_are_printed(rt: HostRuntime) -> Result<(), Fail> {
    let text = format!(in rt.alloc(); "{}", Refusal::Text(27))?;
    assert_eq!(rt; text.as_str(), "(refused 8 27)");
    Ok(())
}
