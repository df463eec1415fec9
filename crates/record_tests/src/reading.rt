// Examples as a player sends them, each field wrong in turn, and escapes inside names and numbers.
use line::{Fault, Side, read};
use record::{BrowseResultsOverview, PlayMode, PlayStatus, Span, TitleName, UnknownMode};

// The play status of a line, or why it is not one.
fn status_of(line: &[u8]) -> Result<PlayStatus, Fault> {
    PlayStatus::read(&read(Side::Answer, line)?)
}

fn title_of(line: &[u8], out: &mut [u8]) -> Result<TitleName, Fault> {
    TitleName::read(&read(Side::Answer, line)?, out)
}

fn overview_of(line: &[u8], out: &mut [u8]) -> Result<BrowseResultsOverview, Fault> {
    BrowseResultsOverview::read(&read(Side::Answer, line)?, out)
}

#[test]
fn play_status(rt: HostRuntime) {
    let status = PlayStatus {
        mode: PlayMode::Playing,
        speed: 0,
        title_number: 1,
        title_length: 5343,
        title_location: 1175,
        chapter_number: 4,
        chapter_length: 600,
        chapter_location: 34,
    };
    assert!(rt;
        status_of(b"01/!/000:PLAY_STATUS:2:0:01:05343:01175:004:00600:00034:/29") == Ok(status)
    );
    assert!(rt;
        status_of(b"01/!/000:PLAY\\d095STATUS:\\d050:0:0\\d049:05343:01175:004:00600:00034:/75")
            == Ok(status)
    );
}

// Of ten digits, five are modes.
#[test]
fn modes(rt: HostRuntime) {
    for n in 0..10u32 {
        let known = PlayMode::try_from(n).map(u32::from);
        let mode = matches!(n, 0 | 1 | 2 | 4 | 6);
        assert!(rt; known == if mode { Ok(n) } else { Err(UnknownMode(n)) });
    }
}

// Each field wrong in turn.
#[test]
fn wrong_fields(rt: HostRuntime) {
    let cases: [(&[u8], usize); 8] = [
        (
            b"01/!/000:PLAY_STATUS:3:0:01:05343:01175:004:00600:00034:/30",
            1,
        ),
        (
            b"01/!/000:PLAY_STATUS:2:4:01:05343:01175:004:00600:00034:/33",
            2,
        ),
        (
            b"01/!/000:PLAY_STATUS:2:0:001:05343:01175:004:00600:00034:/77",
            3,
        ),
        (
            b"01/!/000:PLAY_STATUS:2:0:01:5343:01175:004:00600:00034:/81",
            4,
        ),
        (
            b"01/!/000:PLAY_STATUS:2:0:01:05343:011750:004:00600:00034:/77",
            5,
        ),
        (
            b"01/!/000:PLAY_STATUS:2:0:01:05343:01175:4:00600:00034:/33",
            6,
        ),
        (
            b"01/!/000:PLAY_STATUS:2:0:01:05343:01175:004:0060a:00034:/78",
            7,
        ),
        (
            b"01/!/000:PLAY_STATUS:2:0:01:05343:01175:004:00600:00034 :/61",
            8,
        ),
    ];
    for (line, place) in cases {
        assert!(rt; status_of(line) == Err(Fault::RecordForm(place)));
    }
}

// Another name, fewer and more fields, and a command.
#[test]
fn other_kinds(rt: HostRuntime) {
    let answers: [&[u8]; 3] = [
        b"01/!/000:PLAY_STATES:2:0:01:05343:01175:004:00600:00034:/13",
        b"01/!/000:PLAY_STATUS:2:0:01:05343:01175:004:00600:/24",
        b"01/!/000:PLAY_STATUS:2:0:01:05343:01175:004:00600:00034:1:/36",
    ];
    for line in answers {
        assert!(rt; status_of(line) == Err(Fault::RecordForm(0)));
    }
    let command = read(
        Side::Command,
        b"01/1/PLAY_STATUS:2:0:01:05343:01175:004:00600:00034:",
    );
    assert!(rt; command.and_then(|m| PlayStatus::read(&m)) == Err(Fault::RecordForm(0)));
}

// A title with an escape, in a buffer with room and in one that is a byte too short.
#[test]
fn titles(rt: HostRuntime) {
    let mut out = [b'.'; 8];
    assert!(rt;
        title_of(b"01/0/000:TITLE_NAME:Serenity:/25", &mut out)
            == Ok(TitleName {
                title: Span { start: 0, end: 8 },
            })
    );
    assert!(rt; out == *b"Serenity");
    assert!(rt;
        title_of(b"01/!/000:TITLE_NAME:A\\:B:/40", &mut out)
            == Ok(TitleName {
                title: Span { start: 0, end: 3 },
            })
    );
    assert!(rt; out == *b"A:Benity");
    let mut short = [b'.'; 2];
    assert!(rt;
        title_of(b"01/!/000:TITLE\\d095NAME:A\\:B:/95", &mut short) == Err(Fault::ShortBuffer)
    );
    assert!(rt; short == *b"..");
}

// An overview, with and without leading zeros; then others that are none, which leave the buffer as it was.
#[test]
fn overviews(rt: HostRuntime) {
    let found = BrowseResultsOverview {
        handle: Span { start: 0, end: 5 },
        title: Span { start: 5, end: 10 },
        lines: 5,
        total: 8,
    };
    let cases: [(&[u8], Result<BrowseResultsOverview, Fault>); 5] = [
        (
            b"01.01/1/000:BROWSE_RESULTS_OVERVIEW:music:Music:5:8:/38",
            Ok(found),
        ),
        (
            b"01.01/1/000:BROWSE_RESULTS_OVERVIEW:music:Music:00005:08:/78",
            Ok(found),
        ),
        (
            b"01.01/1/000:BROWSE_RESULTS_OVERVIEW:now_playing:Now Playing:5:15:9:11:/52",
            Err(Fault::RecordForm(0)),
        ),
        (
            b"01.01/1/000:BROWSE_RESULTS_OVERVIEW:music:Music::8:/85",
            Err(Fault::RecordForm(3)),
        ),
        (
            b"01.01/1/000:BROWSE_RESULTS_OVERVIEW:music:Music:65535:65536:/58",
            Err(Fault::RecordForm(4)),
        ),
    ];
    let mut out = [b'.'; 12];
    for (line, overview) in cases {
        assert!(rt; overview_of(line, &mut out) == overview);
        assert!(rt; out == *b"musicMusic..");
    }
    let mut short = [b'.'; 9];
    assert!(rt;
        overview_of(
            b"01.01/1/000:BROWSE_RESULTS_OVERVIEW:music:Music:5:8:/38",
            &mut short,
        ) == Err(Fault::ShortBuffer)
    );
    assert!(rt; short == *b".........");
}

// One with six fields is none, though it is good in a listing; then counts that are none.
#[test]
fn wrong_overviews(rt: HostRuntime) {
    let cases: [(&[u8], usize); 5] = [
        (
            b"01.01/1/000:BROWSE_RESULTS_OVERVIEW:now_playing:Now Playing:5:15:9:11:/52",
            0,
        ),
        (b"01.01/1/000:BROWSE_RESULTS_OVERVIEW:music:Music::8:/85", 3),
        (
            b"01.01/1/000:BROWSE_RESULTS_OVERVIEW:music:Music:65535:65536:/58",
            4,
        ),
        (
            b"01.01/1/000:BROWSE_RESULTS_OVERVIEW:music:Music:5:000008:/78",
            4,
        ),
        (
            b"01.01/1/000:BROWSE_RESULTS_OVERVIEW:music:Music:x:y:/70",
            3,
        ),
    ];
    for (line, place) in cases {
        let mut out = [b'.'; 22];
        assert!(rt; overview_of(line, &mut out) == Err(Fault::RecordForm(place)));
        assert!(rt; out == [b'.'; 22]);
    }
}
