use ocr_run_command::{Options, Reports, Wanted, WordsStop, command};
use std::alloc::Global;
use std::test::Fail;

// What the words of a line ask for, which stand between single spaces.
fn asked(alloc: Global, line: &str) -> Result<Wanted, WordsStop> {
    let mut words = Vec::new(alloc);
    for word in line.split(' ') {
        words.push(String::from_str(alloc, word)?)?;
    }
    command(alloc, &words)
}

// The letters of the reports, in their order, and `-` for each that is not wanted.
fn letters(reports: Reports) -> [char; 7] {
    let wanted = [
        (reports.summary, 's'),
        (reports.left, 'l'),
        (reports.stale, 't'),
        (reports.refused, 'r'),
        (reports.races, 'c'),
        (reports.blocks, 'b'),
        (reports.journal, 'j'),
    ];
    let mut letters = ['-'; 7];
    for (place, (is_wanted, letter)) in wanted.iter().enumerate() {
        if *is_wanted && place < 7 {
            letters[place] = *letter;
        }
    }
    letters
}

struct Row {
    line: &'static str,
    workers: u32,
    objects: u64,
    events: u64,
    reports: [char; 7],
    args: &'static [u64],
}

const NONE: [char; 7] = ['-', '-', '-', '-', '-', '-', '-'];

static RUNS: [Row; 22] = [
    Row {
        line: "run",
        workers: 4,
        objects: 4096,
        events: 200_000,
        reports: NONE,
        args: &[],
    },
    Row {
        line: "run --",
        workers: 4,
        objects: 4096,
        events: 200_000,
        reports: NONE,
        args: &[],
    },
    Row {
        line: "run 5",
        workers: 4,
        objects: 4096,
        events: 200_000,
        reports: NONE,
        args: &[5],
    },
    Row {
        line: "run 3 0 3",
        workers: 4,
        objects: 4096,
        events: 200_000,
        reports: NONE,
        args: &[3, 0, 3],
    },
    Row {
        line: "run -- 1 2",
        workers: 4,
        objects: 4096,
        events: 200_000,
        reports: NONE,
        args: &[1, 2],
    },
    Row {
        line: "run 1 -- 2",
        workers: 4,
        objects: 4096,
        events: 200_000,
        reports: NONE,
        args: &[1, 2],
    },
    Row {
        line: "run --workers 1",
        workers: 1,
        objects: 4096,
        events: 200_000,
        reports: NONE,
        args: &[],
    },
    Row {
        line: "run --workers=01 7",
        workers: 1,
        objects: 4096,
        events: 200_000,
        reports: NONE,
        args: &[7],
    },
    Row {
        line: "run --workers 64 --events 250000",
        workers: 64,
        objects: 4096,
        events: 250_000,
        reports: NONE,
        args: &[],
    },
    Row {
        line: "run 7 --workers=2",
        workers: 2,
        objects: 4096,
        events: 200_000,
        reports: NONE,
        args: &[7],
    },
    Row {
        line: "run --events 4000000",
        workers: 4,
        objects: 4096,
        events: 4_000_000,
        reports: NONE,
        args: &[],
    },
    Row {
        line: "run --objects 2",
        workers: 4,
        objects: 2,
        events: 200_000,
        reports: NONE,
        args: &[],
    },
    Row {
        line: "run --objects=65536",
        workers: 4,
        objects: 65_536,
        events: 200_000,
        reports: NONE,
        args: &[],
    },
    Row {
        line: "run --events 1",
        workers: 4,
        objects: 4096,
        events: 1,
        reports: NONE,
        args: &[],
    },
    Row {
        line: "run --workers=1 --events=16000000",
        workers: 1,
        objects: 4096,
        events: 16_000_000,
        reports: NONE,
        args: &[],
    },
    Row {
        line: "run --events 00000000000000000005",
        workers: 4,
        objects: 4096,
        events: 5,
        reports: NONE,
        args: &[],
    },
    Row {
        line: "run 18446744073709551615",
        workers: 4,
        objects: 4096,
        events: 200_000,
        reports: NONE,
        args: &[18_446_744_073_709_551_615],
    },
    Row {
        line: "run 007 --objects=10 --summary 8 --events 20 -- 9",
        workers: 4,
        objects: 10,
        events: 20,
        reports: ['s', '-', '-', '-', '-', '-', '-'],
        args: &[7, 8, 9],
    },
    Row {
        line: "run --journal 1 --left --stale 2",
        workers: 4,
        objects: 4096,
        events: 200_000,
        reports: ['-', 'l', 't', '-', '-', '-', 'j'],
        args: &[1, 2],
    },
    Row {
        line: "run --blocks --refused",
        workers: 4,
        objects: 4096,
        events: 200_000,
        reports: ['-', '-', '-', 'r', '-', 'b', '-'],
        args: &[],
    },
    Row {
        line: "run --races",
        workers: 4,
        objects: 4096,
        events: 200_000,
        reports: ['-', '-', '-', '-', 'c', '-', '-'],
        args: &[],
    },
    Row {
        line: "run --summary --left --stale --refused --races --blocks --journal",
        workers: 4,
        objects: 4096,
        events: 200_000,
        reports: ['s', 'l', 't', 'r', 'c', 'b', 'j'],
        args: &[],
    },
];

#[test]
fn words_of_a_run_give_its_options_and_numbers(rt: HostRuntime) -> Result<(), Fail> {
    for row in &RUNS {
        let Ok(Wanted::Run { options, args }) = asked(rt.alloc(), row.line) else {
            assert!(rt; false, "{}", row.line);
            return Ok(())
        };
        let Options {
            workers,
            objects,
            events,
            reports,
        } = options;
        assert_eq!(rt; workers, row.workers);
        assert_eq!(rt; objects, row.objects);
        assert_eq!(rt; events, row.events);
        assert_eq!(rt; letters(reports), row.reports);
        assert_eq!(rt; args.as_slice(), row.args);
    }
    Ok(())
}

#[test]
fn check_takes_nothing_more(rt: HostRuntime) -> Result<(), Fail> {
    assert!(rt; matches!(asked(rt.alloc(), "check"), Ok(Wanted::Check)));
    assert!(rt; matches!(asked(rt.alloc(), "check --"), Ok(Wanted::Check)));
    Ok(())
}

// A line, its number, its workers and its reports.
const LOADS: [(&str, u64, u32, [char; 7]); 6] = [
    ("load 1", 1, 4, ['s', '-', '-', '-', '-', '-', '-']),
    ("load 500 --", 500, 4, ['s', '-', '-', '-', '-', '-', '-']),
    ("load -- 007", 7, 4, ['s', '-', '-', '-', '-', '-', '-']),
    (
        "load --workers 64 2",
        2,
        64,
        ['s', '-', '-', '-', '-', '-', '-'],
    ),
    (
        "load 2 --summary",
        2,
        4,
        ['s', '-', '-', '-', '-', '-', '-'],
    ),
    (
        "load --journal 2 --left --workers=1",
        2,
        1,
        ['s', 'l', '-', '-', '-', '-', 'j'],
    ),
];

#[test]
fn words_of_a_load_give_its_number_and_options(rt: HostRuntime) -> Result<(), Fail> {
    for (line, size, workers, reports) in LOADS {
        let Ok(Wanted::Load { number, options }) = asked(rt.alloc(), line) else {
            assert!(rt; false, "{line}");
            return Ok(())
        };
        assert_eq!(rt; number, size);
        assert_eq!(rt; options.workers, workers);
        assert_eq!(rt; options.objects, 65_536);
        assert_eq!(rt; options.events, 200_000);
        assert_eq!(rt; letters(options.reports), reports);
    }
    Ok(())
}

static REFUSED: [&str; 40] = [
    // no command, or another one
    "",
    "walk",
    "--workers=1 run",
    // help and version
    "help",
    "run -h",
    "run --version",
    // numbers that are none, are too long, or do not fit
    "run -5",
    "run -",
    "run +5",
    "run 5a",
    "run ",
    "run 000000000000000000005",
    "run 18446744073709551616",
    // options and flags
    "run --worker 1",
    "run --workers 65",
    "run --workers 0",
    "run --workers 2 --workers 3",
    "run --workers 64 --events 250001",
    "run --workers 1 --workers 1",
    "run --objects 65537",
    "run --events 4000001",
    "run --workers 1 --events 16000001",
    "run --summary --summary",
    "run --summary=true",
    "run --races --races",
    "run --workers=",
    "run --workers -- 1",
    // `--`, and what follows it
    "run -- --",
    "run -- --summary",
    // the other commands
    "check -- 5",
    "check --journal",
    "load",
    "load 0",
    "load 501",
    "load 5 5",
    "load --objects 4096 5",
    "load 5 --events=200000",
    "load --workers 65 5",
    "load five",
    "load --summary --summary 5",
];

#[test]
fn words_that_are_in_no_form_are_refused(rt: HostRuntime) -> Result<(), Fail> {
    for line in &REFUSED {
        assert!(rt;
            matches!(asked(rt.alloc(), line), Err(WordsStop::Refused)),
            "{line}"
        );
    }
    let none: Vec<String> = Vec::new(rt.alloc());
    assert!(rt; matches!(command(rt.alloc(), &none), Err(WordsStop::Refused)));
    Ok(())
}

#[test]
fn run_takes_32_numbers(rt: HostRuntime) -> Result<(), Fail> {
    let most = "run 1 2 3 4 5 6 7 8 9 10 11 12 13 14 15 16 --stale 17 18 19 20 21 22 23 24 25 26 \
        27 28 29 30 -- 31 32";
    let more = "run 1 2 3 4 5 6 7 8 9 10 11 12 13 14 15 16 --stale 17 18 19 20 21 22 23 24 25 26 \
        27 28 29 30 -- 31 32 33";
    assert!(rt; matches!(asked(rt.alloc(), most), Ok(Wanted::Run { .. })));
    assert!(rt; matches!(asked(rt.alloc(), more), Err(WordsStop::Refused)));
    Ok(())
}
