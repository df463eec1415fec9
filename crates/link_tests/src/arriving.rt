// Lines that arrive through the link, in pieces and around a reset.
use link::{Kind, Link, Pumped};
use port::Port;
use serial::Serial;

// Half of the line waits at the port as the link is made.
#[test]
fn reads_a_line_in_two_pieces(rt: HostRuntime) {
    let mut serial = Serial::new();
    assert_eq!(rt; serial.arrive(b"01/!/000:POWER_"), 15);
    let mut link = Link::new(serial, 7);
    let mut buffer = [b'.'; 1024];
    assert_eq!(rt; link.pump(&mut buffer), Ok(Pumped::Dry));
    assert_eq!(rt; link.arrive(b"STATE:1:/15\r"), 12);
    let event = Pumped::Line {
        kind: Kind::Event,
        length: 26,
    };
    assert_eq!(rt; link.pump(&mut buffer), Ok(event));
    assert!(rt; buffer.starts_with(b"01/!/000:POWER_STATE:1:/15."));
}

// A reset in the middle of a line drops what came of it; no number was open.
#[test]
fn drops_half_a_line_at_a_reset(rt: HostRuntime) {
    let mut link = Link::new(Serial::new(), 7);
    let mut buffer = [b'.'; 1024];
    assert_eq!(rt; link.arrive(b"01/?/001"), 8);
    assert_eq!(rt; link.pump(&mut buffer), Ok(Pumped::Dry));
    assert_eq!(rt; link.reset(), 0);
    assert_eq!(rt; link.arrive(b"??/3/000:/20\r"), 13);
    let stray = Pumped::Line {
        kind: Kind::Stray,
        length: 12,
    };
    assert_eq!(rt; link.pump(&mut buffer), Ok(stray));
    link.clear(true);
    assert_eq!(rt; link.depart(&mut buffer), 0);
}
