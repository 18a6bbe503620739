//! Files at their limits and above them.

use super::*;

/// How a run ends where the file under a name has this length, and what it prints.
fn written_at<'x>(alloc: Global, words: &[&str], name: &'x str, length: u64) -> (Status, Vec<u8>) {
    let files = &[
        ("m.csv", MANIFEST),
        ("top.gbr", LAYER),
        ("pth.drl", DRILL),
        ("w.csv", ""),
    ];
    let mut shelf = LongShelf {
        shelf: Shelf::new(files),
        name,
        length,
    };
    let mut to = streams(alloc);
    let status = run(alloc, words, &mut shelf, &mut to);
    (status, to.out)
}

const LONG_MANIFEST: &str = "refused manifest place=0 reason=TooLong\n";

const LONG_LAYER: &str = "refused file=1 place=0 byte=0 reason=TooLong name=top\n";

const LONG_DRILL: &str = "refused file=2 place=0 byte=0 reason=TooLong name=pth\n";

/// The words of a measure as JSON, of which a refusal has no page.
const MEASURE_AS_JSON: [&str; 4] = ["measure", "--format", "json", "m.csv"];

const LONG_MANIFEST_AS_JSON: &str =
    "{\"format\":\"ringcheck\",\"version\":3,\"result\":\"refused\",\"place\":0,\"reason\":\"TooLong\"}\n";

const LONG_DRILL_AS_JSON: &str =
    "{\"format\":\"ringcheck\",\"version\":3,\"result\":\"refused\",\"file\":2,\"name\":\"pth\",\"place\":0,\"byte\":0,\"reason\":\"TooLong\"}\n";

/// The words of a run, a file, its length, the status of the run and what it prints.
type LengthRow<'x> = (&'x [&'x str], &'x str, u64, Status, &'x str);

const LENGTHS: &[LengthRow] = &[
    (&WORDS, "m.csv", 1_048_576, Status::Pass, REPORT),
    (&WORDS, "m.csv", 1_048_577, Status::Refused, LONG_MANIFEST),
    (&WORDS, "top.gbr", 268_435_456, Status::Pass, REPORT),
    (&WORDS, "top.gbr", 268_435_457, Status::Refused, LONG_LAYER),
    (&WORDS, "pth.drl", 268_435_456, Status::Pass, REPORT),
    (&WORDS, "pth.drl", 268_435_457, Status::Refused, LONG_DRILL),
    (&MEASURE, "m.csv", 1_048_576, Status::Pass, MEASURED),
    (
        &MEASURE_AS_JSON,
        "m.csv",
        1_048_577,
        Status::Refused,
        LONG_MANIFEST_AS_JSON,
    ),
    (&MEASURE, "pth.drl", 268_435_456, Status::Pass, MEASURED),
    (
        &MEASURE_AS_JSON,
        "pth.drl",
        268_435_457,
        Status::Refused,
        LONG_DRILL_AS_JSON,
    ),
    (
        &["manifest", "--why", "top.gbr"],
        "top.gbr",
        268_435_457,
        Status::Pass,
        "file,role,because\ntop.gbr,?,it is too long\n",
    ),
];

#[test]
fn files_above_their_limit_are_told(rt: HostRuntime) {
    for &(words, name, length, status, text) in LENGTHS {
        let (ended, out) = written_at(rt.alloc(), words, name, length);
        assert!(rt;
            ended == status && out.as_slice() == text.as_bytes(),
            "{name} {length}"
        );
    }
}

/// Words that ask for a single file, which this loader does not have.
pub(super) const SINGLE_FILES: [[&str; 4]; 4] = [
    ["show", "--kind", "layer", "file"],
    ["show", "--kind", "drill", "file"],
    ["rewrite", "--kind", "layer", "file"],
    ["rewrite", "--kind", "drill", "file"],
];

/// Whether a run prints just this where a single file is within its limit, but not there, and where it is above the limit.
fn is_limited(alloc: Global, words: &[&str]) -> bool {
    let (within, missing) = written_at(alloc, words, "file", 268_435_456);
    let (above, refused) = written_at(alloc, words, "file", 268_435_457);
    within == Status::Device
        && missing.as_slice() == b"device\n".as_slice()
        && above == Status::Refused
        && refused.as_slice() == b"refused place=0 byte=0 reason=TooLong\n".as_slice()
}

/// A single file is loaded only up to its limit.
#[test]
fn single_files_above_their_limit_are_told(rt: HostRuntime) {
    for words in &SINGLE_FILES {
        assert!(rt; is_limited(rt.alloc(), words), "{words:?}");
    }
}

const WAIVED: [&str; 8] = [
    "report", "--ring", "0.125", "--gap", "0.25", "--waive", "w.csv", "m.csv",
];

/// The length of a file of waivers, and the first line of what is printed.
const WAIVERS: [(u64, &str); 2] = [
    (1_048_576, "refused waivers place=1 reason=BadManifest\n"),
    (1_048_577, "refused waivers place=0 reason=TooLong\n"),
];

/// A file of waivers of 1,048,576 bytes is read, and one of a byte more is refused.
#[test]
fn files_of_waivers_have_a_limit(rt: HostRuntime) {
    for &(length, line) in &WAIVERS {
        let (ended, out) = written_at(rt.alloc(), &WAIVED, "w.csv", length);
        assert!(rt;
            ended == Status::Refused && out.as_slice().starts_with(line.as_bytes()),
            "{line}"
        );
    }
}
