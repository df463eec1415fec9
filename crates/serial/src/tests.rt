// A serial port alone and under line control.
use crate::Serial;
use port::{LineControl, Port};

// Each turn moves the ring's head on by 1,600 of its 2,048 places.
#[test]
fn wraps(rt: HostRuntime) {
    let mut serial = Serial::new();
    for turn in 0..7u8 {
        assert!(rt; serial.arrive(&[turn; 700]) == 700);
        assert!(rt; serial.arrive(&[100; 900]) == 900);
        let mut first = [0; 700];
        assert_eq!(rt; serial.read(&mut first), (700, 900));
        assert!(rt; first == [turn; 700]);
        let mut second = [0; 901];
        assert_eq!(rt; serial.read(&mut second), (900, 0));
        assert!(rt; second[899] == 100 && second[900] == 0);
    }
}

#[test]
fn fills(rt: HostRuntime) {
    let mut serial = Serial::new();
    assert!(rt; serial.write(&[1; 2000]) == 2000);
    assert!(rt; serial.write(&[2; 100]) == 48);
    assert!(rt; serial.write(&[3]) == 0);
    assert_eq!(rt; serial.room(), (0, true));
    let mut sink = [0; 2048];
    assert!(rt; serial.depart(&mut sink) == 2048);
    assert!(rt; sink[1999] == 1 && sink[2000] == 2);
    assert_eq!(rt; serial.room(), (2048, true));
}

#[test]
fn moves_nothing(rt: HostRuntime) {
    let mut serial = Serial::new();
    assert!(rt; serial.arrive(b"in") == 2 && serial.write(b"out") == 3);
    assert!(rt; serial.arrive(&[]) == 0 && serial.write(&[]) == 0);
    assert!(rt; serial.depart(&mut []) == 0);
    assert_eq!(rt; serial.read(&mut []), (0, 2));
    serial.hangup();
    let mut sink = *b"..";
    assert!(rt; serial.depart(&mut sink) == 0);
    assert_eq!(rt; serial.read(&mut sink), (0, 0));
    assert!(rt; sink == *b"..");
}

#[test]
fn holds_back(rt: HostRuntime) {
    let mut line = LineControl::new(LineControl::new(Serial::new()));
    assert!(rt; line.write(b"abc") == 3);
    line.clear(false);
    let mut sink = *b"....";
    assert!(rt; line.depart(&mut sink) == 0);
    assert_eq!(rt; line.room(), (2045, false));
    line.clear(true);
    assert!(rt; line.depart(&mut sink) == 3);
    assert!(rt; sink == *b"abc.");
}
