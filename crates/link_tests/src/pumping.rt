// What pump hands out of the bytes at a port.
use line::{Fault, Message};
use link::{Kind, Link, Pumped, message};
use port::Port;
use serial::Serial;

#[test]
fn tells_kinds_in_order(rt: HostRuntime) {
    let mut serial = Serial::new();
    assert_eq!(rt; serial.arrive(b"01/!/000:POWER_STATE:1:/15\r\n"), 28);
    assert_eq!(rt; serial.arrive(b"01/?/001:/04\n\r??/3/000:/20\r01/!/0"), 33);
    let mut link = Link::new(serial, 7);
    let mut buffer = [b'.'; 1024];
    let event = Pumped::Line {
        kind: Kind::Event,
        length: 26,
    };
    assert_eq!(rt; link.pump(&mut buffer), Ok(event));
    assert!(rt; buffer.starts_with(b"01/!/000:POWER_STATE:1:/15."));
    assert!(rt; matches!(message(&buffer, 26), Some(Message::Event { .. })));
    for kind in [Kind::Notice, Kind::Stray] {
        assert_eq!(rt;
            link.pump(&mut buffer),
            Ok(Pumped::Line { kind, length: 12 })
        );
    }
    assert_eq!(rt; link.pump(&mut buffer), Ok(Pumped::Dry));
    assert_eq!(rt; link.number(), 7);
}

// 1,100 bytes before the end: 1,024 of them stand in the buffer.
#[test]
fn cuts_a_long_line(rt: HostRuntime) {
    let mut serial = Serial::new();
    assert_eq!(rt; serial.arrive(&[b'/'; 1100]), 1100);
    assert_eq!(rt; serial.arrive(b"\r\\\n"), 3);
    let mut link = Link::new(serial, 0);
    let mut buffer = [b'.'; 1025];
    assert_eq!(rt; link.pump(&mut buffer[..1023]), Err(Fault::PumpBuffer));
    let too_long = Pumped::Line {
        kind: Kind::Fault(Fault::TooLong),
        length: 1024,
    };
    assert_eq!(rt; link.pump(&mut buffer), Ok(too_long));
    assert!(rt; buffer.ends_with(b"/."));
    let broken = Pumped::Line {
        kind: Kind::Fault(Fault::BadEscape(0)),
        length: 1,
    };
    assert_eq!(rt; link.pump(&mut buffer), Ok(broken));
    assert!(rt; message(&buffer, 1).is_none());
}
