use crate::board::BoardPort;
use crate::ports::Port;
use crate::reading::Reading;
use crate::service::ServicePort;

fn value(reading: Option<Reading>) -> Option<i32> {
    reading.map(|reading| reading.value)
}

// Sixteen readings wait, and no more; a taken one frees its place.
#[test]
fn board_readings(rt: HostRuntime) {
    let mut port = BoardPort::new();
    assert_eq!(rt; value(port.take()), None);
    for value in 0..16 {
        assert!(rt; port.offer(Reading { value }).is_ok());
    }
    assert_eq!(rt; port.openings(), 0);
    assert!(rt; port.offer(Reading { value: 16 }).is_err());
    assert_eq!(rt; value(port.take()), Some(0));
    assert!(rt; port.offer(Reading { value: 17 }).is_ok());
    for left in 1..16 {
        assert_eq!(rt; value(port.take()), Some(left));
    }
    assert_eq!(rt; value(port.take()), Some(17));
    assert_eq!(rt; value(port.take()), None);
}

// Sixty-four bytes are shown, and no more, until they are cleared.
#[test]
fn board_bytes(rt: HostRuntime) {
    let mut port = BoardPort::new();
    for byte in 0..64 {
        assert!(rt; port.show(byte).is_ok());
    }
    assert!(rt; port.show(64).is_err());
    assert_eq!(rt; port.shown(), 64);
    assert_eq!(rt; port.shown_at(63), Some(63));
    assert_eq!(rt; port.shown_at(64), None);
    port.clear();
    assert_eq!(rt; port.space(), 64);
}

// Two places and a byte that belongs to none; the first place serves twice.
#[test]
fn service_readings(rt: HostRuntime) {
    let mut places = [1u8; 25];
    let mut bytes = [1u8; 2];
    let mut port = ServicePort::new(&mut places, &mut bytes);
    assert_eq!(rt; value(port.take()), None);
    assert!(rt; port.offer(Reading { value: i32::MIN }).is_ok());
    assert!(rt; port.offer(Reading { value: i32::MAX }).is_ok());
    assert!(rt; port.offer(Reading { value: 1 }).is_err());
    assert_eq!(rt; value(port.take()), Some(i32::MIN));
    assert!(rt; port.offer(Reading { value: 0 }).is_ok());
    assert_eq!(rt; value(port.take()), Some(i32::MAX));
    assert_eq!(rt; value(port.take()), Some(0));
    assert_eq!(rt; value(port.take()), None);
    assert!(rt; places == *b"0           2147483647  \x01");
}

// Two bytes, and none over an empty memory.
#[test]
fn service_bytes(rt: HostRuntime) {
    let mut places = [1u8; 11];
    let mut bytes = [1u8; 2];
    let mut port = ServicePort::new(&mut places, &mut bytes);
    assert!(rt; port.offer(Reading { value: 0 }).is_err());
    assert!(rt; port.show(b'a').is_ok());
    assert!(rt; port.show(b'b').is_ok());
    assert!(rt; port.show(b'c').is_err());
    assert_eq!(rt; port.shown_at(1), Some(b'b'));
    port.clear();
    assert_eq!(rt; port.shown_at(0), None);
    assert!(rt; port.show(b'd').is_ok());
    assert!(rt; bytes == *b"db");
}
