//! The files of the system, one after another.
use razor_base::{Desk, HostDesk, read_all};
use std::fs;
use std::test::Fail;

/// A read of another name closes the file; it is opened anew, at its start.
#[test]
fn a_file_is_read_again_from_its_start(rt: HostRuntime) -> Result<(), Fail> {
    let path = "/tmp/razor_real_file";
    fs::write(&rt, path, "real bytes")?;
    let mut desk = HostDesk::new(&rt, rt.alloc());
    let mut into = Vec::new(rt.alloc());
    assert!(rt; read_all(&mut desk, path, 10, &mut into).is_ok());
    assert!(rt; into.as_slice() == b"real bytes".as_slice());
    let mut piece = [0; 4];
    assert!(rt; desk.read(path, &mut piece) == Ok(0));
    assert!(rt; desk.read("/no such file", &mut []).is_ok());
    assert!(rt; desk.read("/dev/null", &mut piece) == Ok(0));
    assert!(rt; desk.read(path, &mut piece) == Ok(4));
    assert!(rt; piece.as_slice() == b"real".as_slice());
    fs::remove_file(&rt, path)?;
    Ok(())
}
