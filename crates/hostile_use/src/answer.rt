//! Answers of calls, in a form that can be compared and printed without taking memory.

use crate::digest::Digest;
use drill_text::{Drill, DrillCommand};
use gerber_text::{Command, Placed};
use grid_units::{Fail, Hole};
use layer_image::{Flash, Layer, What};
use manifest::{Entry, Role};
use package_check::Report;
use pad_shapes::Pad;
use ring_rules::Finding;
use std::fmt;
use std::fmt::Write;

/// An answer: two counts and a digest of what was returned, or the failure.
#[derive(Clone, Copy, Debug, PartialEq, Eq)]
pub(crate) enum Answer {
    Given {
        first: usize,
        second: usize,
        digest: u64,
    },
    Failed(Fail),
    /// A reader that had failed later answered something else.
    Changed,
}

impl fmt::Display for Answer {
    fn fmt<W: fmt::Write>(&self, f: &mut fmt::Formatter<W>) -> fmt::Result {
        match self {
            Answer::Given {
                first,
                second,
                digest,
            } => write!(f, "{first} {second} {digest:016x}"),
            Answer::Failed(Fail::Memory) => write!(f, "memory"),
            Answer::Failed(Fail::Refused(fault)) => {
                let (reason, place, byte) = (fault.reason.name(), fault.place, fault.byte);
                write!(f, "{reason} at {place}, {byte}")
            }
            Answer::Changed => write!(f, "changed after a failure"),
        }
    }
}

impl Answer {
    /// Whether these two counts were returned.
    pub(crate) fn has_counts(&self, wanted: (usize, usize)) -> bool {
        match self {
            Answer::Given { first, second, .. } => (*first, *second) == wanted,
            _ => false,
        }
    }

    pub(crate) fn of_bytes(outcome: Result<Vec<u8>, Fail>) -> Answer {
        match outcome {
            Ok(bytes) => Answer::of_text(&bytes),
            Err(fail) => Answer::Failed(fail),
        }
    }

    pub(crate) fn of_text(bytes: &[u8]) -> Answer {
        let mut digest = Digest::new();
        digest.take(bytes);
        Answer::Given {
            first: bytes.len(),
            second: 0,
            digest: digest.value(),
        }
    }

    /// The answer of a reader of words: its first count is that of the commands.
    pub(crate) fn of_words(outcome: Result<Vec<Placed<Command>>, Fail>) -> Answer {
        match outcome {
            Ok(commands) => {
                let mut digest = Digest::new();
                digest_words(&mut digest, &commands);
                Answer::Given {
                    first: commands.len(),
                    second: 0,
                    digest: digest.value(),
                }
            }
            Err(fail) => Answer::Failed(fail),
        }
    }

    /// The answer of a reader of a layer: the numbers of commands and of pads.
    pub(crate) fn of_layer(outcome: Result<Layer, Fail>) -> Answer {
        match outcome {
            Ok(layer) => {
                let mut digest = Digest::new();
                digest_words(&mut digest, layer.commands());
                digest_flashes(&mut digest, layer.flashes());
                digest_pads(&mut digest, layer.pads());
                digest_function(&mut digest, layer.file_function());
                Answer::Given {
                    first: layer.commands().len(),
                    second: layer.pads().len(),
                    digest: digest.value(),
                }
            }
            Err(fail) => Answer::Failed(fail),
        }
    }

    /// The numbers of pads and of other flashes.
    pub(crate) fn of_sum(outcome: Result<Layer, Fail>) -> Answer {
        match outcome {
            Ok(layer) => sum_answer(layer.pads(), layer.counts().other, layer.file_function()),
            Err(fail) => Answer::Failed(fail),
        }
    }

    /// The same numbers from a whole layer.
    pub(crate) fn of_layer_sum(outcome: Result<Layer, Fail>) -> Answer {
        match outcome {
            Ok(layer) => sum_answer(layer.pads(), others(layer.flashes()), layer.file_function()),
            Err(fail) => Answer::Failed(fail),
        }
    }

    /// The numbers of commands and of holes.
    pub(crate) fn of_drill(outcome: Result<Drill, Fail>) -> Answer {
        match outcome {
            Ok(drill) => {
                let mut digest = Digest::new();
                digest_lines(&mut digest, drill.commands());
                digest_holes(&mut digest, drill.holes());
                digest_tools(&mut digest, &drill);
                Answer::Given {
                    first: drill.commands().len(),
                    second: drill.holes().len(),
                    digest: digest.value(),
                }
            }
            Err(fail) => Answer::Failed(fail),
        }
    }

    /// The number of files.
    pub(crate) fn of_manifest(outcome: Result<Vec<Entry>, Fail>) -> Answer {
        match outcome {
            Ok(entries) => {
                let mut digest = Digest::new();
                for entry in entries.iter() {
                    digest_entry(&mut digest, entry);
                }
                Answer::Given {
                    first: entries.len(),
                    second: 0,
                    digest: digest.value(),
                }
            }
            Err(fail) => Answer::Failed(fail),
        }
    }

    /// The numbers of holes and of findings.
    pub(crate) fn of_report(report: &Report) -> Answer {
        let mut digest = Digest::new();
        let (files, layers) = (report.files(), report.layers());
        let findings = report.findings();
        let _ = write!(digest, "{files:?} {layers:?} {findings:?}");
        let first = digest_numbered(&mut digest, report);
        Answer::Given {
            first,
            second: findings.len(),
            digest: digest.value(),
        }
    }

    /// The number of findings.
    pub(crate) fn of_findings(findings: &[Finding]) -> Answer {
        let mut digest = Digest::new();
        let _ = write!(digest, "{findings:?}");
        Answer::Given {
            first: findings.len(),
            second: 0,
            digest: digest.value(),
        }
    }

    /// The number of holes.
    pub(crate) fn of_holes(outcome: Result<Vec<Hole>, Fail>) -> Answer {
        match outcome {
            Ok(holes) => {
                let mut digest = Digest::new();
                digest_holes(&mut digest, &holes);
                Answer::Given {
                    first: holes.len(),
                    second: 0,
                    digest: digest.value(),
                }
            }
            Err(fail) => Answer::Failed(fail),
        }
    }
}

/// Digests the holes of a report with their places, and counts them.
fn digest_numbered(digest: &mut Digest, report: &Report) -> usize {
    for place in 0..usize::MAX {
        let Some(hole) = report.hole(place) else {
            return place;
        };
        let _ = write!(digest, "{hole:?}");
    }
    usize::MAX
}

/// The number of flashes that are no pads.
fn others(flashes: &[Flash]) -> usize {
    flashes
        .iter()
        .filter(|flash| matches!(flash.what, What::Other(_)))
        .count()
}

fn sum_answer(pads: &[Pad], other: usize, function: Option<&[u8]>) -> Answer {
    let mut digest = Digest::new();
    digest_pads(&mut digest, pads);
    digest_function(&mut digest, function);
    Answer::Given {
        first: pads.len(),
        second: other,
        digest: digest.value(),
    }
}

/// The most elements of a list that are in a digest: a longer list is digested only up to here.
const LONGEST: usize = 2000;

fn digest_words(digest: &mut Digest, commands: &[Placed<Command>]) {
    for command in commands.iter().take(LONGEST) {
        digest_word(digest, command);
    }
}

/// A comment may be long, so its bytes are digested as they are.
fn digest_word(digest: &mut Digest, command: &Placed<Command>) {
    let (place, byte, what) = (command.place, command.byte, &command.what);
    let _ = write!(digest, "{place} {byte} ");
    match what {
        Command::Comment(text) => digest.take(text.bytes()),
        _ => {
            let _ = write!(digest, "{what:?}");
        }
    }
}

fn digest_lines(digest: &mut Digest, commands: &[DrillCommand]) {
    for command in commands.iter().take(LONGEST) {
        digest_line(digest, command);
    }
}

fn digest_line(digest: &mut Digest, command: &DrillCommand) {
    match command {
        DrillCommand::Comment(text) => digest.take(text.bytes()),
        _ => {
            let _ = write!(digest, "{command:?}");
        }
    }
}

fn digest_tools(digest: &mut Digest, drill: &Drill) {
    for (number, tool) in drill.tools().iter() {
        let units = tool.diameter.units();
        let _ = write!(digest, "{number} {units} ");
    }
}

fn digest_flashes(digest: &mut Digest, flashes: &[Flash]) {
    for flash in flashes.iter().take(LONGEST) {
        let _ = write!(digest, "{flash:?}");
    }
}

fn digest_pads(digest: &mut Digest, pads: &[Pad]) {
    for pad in pads.iter().take(LONGEST) {
        let _ = write!(digest, "{pad:?}");
    }
}

fn digest_holes(digest: &mut Digest, holes: &[Hole]) {
    for hole in holes.iter().take(LONGEST) {
        let _ = write!(digest, "{hole:?}");
    }
}

fn digest_function(digest: &mut Digest, function: Option<&[u8]>) {
    match function {
        Some(text) => {
            digest.take(b"function");
            digest.take(text);
        }
        None => digest.take(b"none"),
    }
}

fn digest_entry(digest: &mut Digest, entry: &Entry) {
    digest.take(match entry.role {
        Role::Copper => b"copper".as_slice(),
        Role::Plated => b"plated".as_slice(),
        Role::Unplated => b"unplated".as_slice(),
        Role::Mixed => b"mixed".as_slice(),
    });
    digest.take(entry.name.as_str().as_bytes());
    digest.take(entry.file.as_str().as_bytes());
    if let Some(span) = entry.said.span {
        let (first, last) = (span.first(), span.last());
        let _ = write!(digest, "{first} {last}");
    }
}
