//! Compiling with a fault at each place, and where nothing can fail.
use super::{ANY_TCP, call};
use crate::setting::{Setting, calm};
use razor_base::{CalmDesk, CountSink, MemDesk, MemSink};
use razor_core::{Words, razor};
use std::test::Fail;

/// The list has 58 bytes, so the 59th read finds its end.
#[test]
fn each_failed_read_ends_a_compilation(rt: HostRuntime) -> Result<(), Fail> {
    for failing in 1..=60 {
        let setting = Setting {
            most: 1,
            failing_read: failing,
            ..calm(ANY_TCP)
        };
        let outcome = call(rt.alloc(), &["compile", "in"], setting)?;
        assert_eq!(rt; outcome.status, if failing < 60 { 5 } else { 0 });
        assert_eq!(rt; outcome.out.bytes().is_empty(), failing < 60);
    }
    Ok(())
}

/// The table has 107 bytes.
#[test]
fn a_compilation_is_cut_off(rt: HostRuntime) -> Result<(), Fail> {
    let whole = call(rt.alloc(), &["compile", "in"], calm(ANY_TCP))?;
    let mut words = Words::new(rt.alloc());
    words.push("compile")?;
    words.push("in")?;
    for room in 0..=107 {
        let mut desk = MemDesk::new(rt.alloc());
        let _added = desk.add("in", ANY_TCP)?;
        let mut out = MemSink::new(rt.alloc(), room)?;
        let mut err = CountSink::new();
        let status = razor(rt.alloc(), &words, &mut desk, &mut out, &mut err);
        assert_eq!(rt; status, if room < 107 { 6 } else { 0 });
        assert_eq!(rt; out.bytes().len(), room);
        assert!(rt; whole.out.bytes().starts_with(out.bytes()));
    }
    Ok(())
}

#[test]
fn a_compilation_is_counted(rt: HostRuntime) -> Result<(), Fail> {
    let mut words = Words::new(rt.alloc());
    words.push("compile")?;
    words.push("in")?;
    let mut desk = CalmDesk::new(rt.alloc());
    let _added = desk.add("in", ANY_TCP)?;
    let mut out = CountSink::new();
    let mut err = CountSink::new();
    assert_eq!(rt; razor(rt.alloc(), &words, &mut desk, &mut out, &mut err), 0);
    assert_eq!(rt; out.written(), 107);
    Ok(())
}
