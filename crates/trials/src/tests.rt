use bench::shown_bytes;
use port::{BoardPort, Port};
use std::test::Fail;

// The bytes that a port shows come out in order, and the memory for them is there.
#[test]
fn shown_in_order(rt: HostRuntime) -> Result<(), Fail> {
    let mut port = BoardPort::new();
    assert!(rt; port.show(b'o').is_ok());
    assert!(rt; port.show(b'k').is_ok());
    let bytes = shown_bytes(rt.alloc(), &port)?;
    assert!(rt; bytes.as_slice() == b"ok".as_slice());
    Ok(())
}
