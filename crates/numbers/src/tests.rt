// A listing line by line, and the ten numbers going round.
use crate::{Match, Numbers, Outcome, Pending, number_of};
use line::{Side, read};

#[test]
fn numbers_in_fields(rt: HostRuntime) {
    assert_eq!(rt; number_of(b"00002"), Some(2));
    assert_eq!(rt; number_of(b"65535"), Some(65535));
    assert_eq!(rt; number_of(b"65536"), None);
    assert_eq!(rt; number_of(b"000002"), None);
    assert_eq!(rt; number_of(b""), None);
    assert_eq!(rt; number_of(b"1x"), None);
    assert_eq!(rt; number_of(b"1\\d0507"), Some(127));
}

fn told(numbers: &mut Numbers, line: &[u8]) -> Option<Match> {
    let message = read(Side::Answer, line).ok()?;
    Some(numbers.told(3, &message))
}

fn begun(line: &[u8]) -> Option<Pending> {
    Pending::begun(&read(Side::Command, line).ok()?)
}

fn opened(numbers: &mut Numbers, n: u8, line: &[u8]) -> Option<()> {
    numbers.open(n, begun(line)?);
    Some(())
}

#[test]
fn a_listing(rt: HostRuntime) {
    let mut numbers = Numbers::new();
    assert!(rt; opened(&mut numbers, 3, b"01.01/3/BROWSE:x:").is_some());
    assert_eq!(rt;
        told(
            &mut numbers,
            b"01.01/3/000:BROWSE_RESULTS_OVERVIEW:7:Acts:2:9:/30",
        ),
        Some(Match::More)
    );
    assert_eq!(rt;
        told(&mut numbers, b"01.01/3/000:BROWSE_RESULT:2:5:Beta:/89"),
        Some(Match::Misplaced)
    );
    assert_eq!(rt;
        told(&mut numbers, b"01.01/3/000:BROWSE_RESULT:1:4:Alpha:/93"),
        Some(Match::More)
    );
    assert_eq!(rt; numbers.settle(3), Outcome::GivenUp);
    assert_eq!(rt;
        told(&mut numbers, b"01.01/3/000:BROWSE_RESULT:2:5:Beta:/89"),
        Some(Match::LateLast)
    );
    assert_eq!(rt;
        told(&mut numbers, b"01.01/3/000:BROWSE_RESULT:2:5:Beta:/89"),
        Some(Match::Stray)
    );
    assert_eq!(rt; numbers.settle(3), Outcome::Foreign);
}

// A number given up is not given again before its answer ends or a reset.
#[test]
fn goes_round(rt: HostRuntime) {
    let mut numbers = Numbers::new();
    for n in 0..10u8 {
        assert_eq!(rt; numbers.next_free(), Some(n));
        assert!(rt; opened(&mut numbers, n, b"01/0/PAUSE:").is_some());
    }
    assert_eq!(rt; told(&mut numbers, b"01/3/000:/91"), Some(Match::Last));
    assert_eq!(rt; numbers.settle(4), Outcome::GivenUp);
    assert_eq!(rt; numbers.next_free(), None);
    assert_eq!(rt; numbers.settle(3), Outcome::Answered);
    assert_eq!(rt; numbers.next_free(), Some(3));
    assert_eq!(rt; numbers.reset(), 8);
    assert_eq!(rt; numbers.settle(4), Outcome::Foreign);
    assert_eq!(rt; numbers.settle(0), Outcome::Lost);
    assert_eq!(rt; numbers.next_free(), Some(0));
}
