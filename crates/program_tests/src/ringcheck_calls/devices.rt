//! Loaders and writers that fail, and running out of memory.

use super::*;
use std::fmt::Write as FmtWrite;
use std::io::{self, Write};
use std::test::Fail as Failure;

/// A call of the loader that fails, the line that is printed, and what cannot be read: a measure says so below the line, and a check
/// beside it. The drill file is loaded before the copper files.
const CALLS: [(u64, &str, &str); 4] = [
    (1, "device\n", "the manifest m.csv"),
    (2, "device file=3 name=pth\n", "pth.drl, the file of pth"),
    (3, "device file=1 name=top\n", "top.gbr, the file of top"),
    (4, "device file=2 name=bot\n", "bot.gbr, the file of bot"),
];

/// Whether a run prints just this text, and says just this beside it, where the call of the loader with this number fails.
fn fails_at(alloc: Global, words: &[&str], call: u64, text: &str, said: &str) -> bool {
    let files = &[
        ("m.csv", THREE),
        ("top.gbr", LAYER),
        ("bot.gbr", LAYER),
        ("pth.drl", DRILL),
    ];
    let mut shelf = Shelf::new(files);
    shelf.fails_at = call;
    prints(alloc, &mut shelf, words, Status::Device, text, said) && shelf.failures() == 1
}

/// A line, and below it that this cannot be read.
fn with_sentence(alloc: Global, line: &str, what: &str) -> Result<String, AllocError> {
    format!(in alloc;
        "{line}  cannot read {what}: file names are taken from the working directory\n"
    )
}

#[test]
fn a_loader_that_fails_is_told_at_each_call(rt: HostRuntime) -> Result<(), Failure> {
    for &(call, line, what) in &CALLS {
        let said = with_sentence(rt.alloc(), "", what)?;
        let text = with_sentence(rt.alloc(), line, what)?;
        let is_told = fails_at(rt.alloc(), &WORDS, call, line, said.as_str());
        assert!(rt; is_told, "{line}");
        let is_told = fails_at(rt.alloc(), &MEASURE, call, text.as_str(), "");
        assert!(rt; is_told, "{text}");
    }
    Ok(())
}

/// The files of a package whose first layer is refused.
const REFUSED_LAYER: [(&str, &str); 4] = [
    ("m.csv", THREE),
    ("top.gbr", BARE),
    ("bot.gbr", LAYER),
    ("pth.drl", DRILL),
];

/// A call of the loader that fails, the line that a check of this package then prints, and what cannot be read.
const AFTER_ALL_FILES: [(u64, &str, &str); 2] = [
    (2, "device file=3 name=pth\n", "pth.drl, the file of pth"),
    (4, "device file=2 name=bot\n", "bot.gbr, the file of bot"),
];

/// Whether a check of this package, in which the call of this number fails, loads all files, prints just this text, and says just this
/// beside it.
fn ends_after_all(alloc: Global, call: u64, status: Status, text: &str, said: &str) -> bool {
    let mut shelf = Shelf::new(&REFUSED_LAYER);
    shelf.fails_at = call;
    prints(alloc, &mut shelf, &WORDS, status, text, said) && shelf.calls == 4
}

#[test]
fn a_file_that_is_not_loaded_is_told_before_a_refusal(rt: HostRuntime) -> Result<(), Failure> {
    for &(call, line, what) in &AFTER_ALL_FILES {
        let said = with_sentence(rt.alloc(), "", what)?;
        let is_told = ends_after_all(rt.alloc(), call, Status::Device, line, said.as_str());
        assert!(rt; is_told, "{line}");
    }
    let refusal = "refused file=1 place=1 byte=0 reason=NoFormat name=top\n";
    assert!(rt; ends_after_all(rt.alloc(), 0, Status::Refused, refusal, ""));
    Ok(())
}

#[test]
fn a_file_that_is_too_long_is_told_before_a_refusal(rt: HostRuntime) {
    let mut shelf = LongShelf {
        shelf: Shelf::new(&REFUSED_LAYER),
        name: "pth.drl",
        length: 268_435_457,
    };
    let text = "refused file=3 place=0 byte=0 reason=TooLong name=pth\n";
    assert!(rt; prints(rt.alloc(), &mut shelf, &WORDS, Status::Refused, text, ""));
}

/// A drill file of so many holes, a millimetre apart.
fn drill_of(alloc: Global, count: u64) -> Result<String, AllocError> {
    let mut text = String::from_str(alloc, "M48\nMETRIC\nT1C0.4\n%\nT1\n")?;
    for i in 0..count {
        write!(text, "X{i}.0Y0.0\n")?;
    }
    text.push_str("M30\n")?;
    Ok(text)
}

/// The report on these holes, over a layer whose pad holds only the first of them.
fn report_of(alloc: Global, count: u64) -> Result<String, AllocError> {
    let mut text = format!(in alloc;
        "rules ring=0.125000000 gap=0.250000000\nfile 1 layer pads=1 other=0 name=top\nfile 2 drill plated=yes round={count} slots=0 name=pth\n"
    )?;
    for i in 1..count {
        let hole = i.saturating_add(1);
        write!(
            text,
            "RING layer=1 drill=2 hole={hole} x={i}.000000000 y=0.000000000 diameter=0.400000000\n"
        )?;
    }
    let findings = count.saturating_sub(1);
    write!(text, "FINDINGS {findings}\n")?;
    Ok(text)
}

/// A writer that takes at most forty bytes a call. The call numbered `fails_at` fails.
#[derive(Drop)]
struct Narrow {
    calls: u64,
    fails_at: u64,
}

impl Write for Narrow {
    fn write(&mut self, bytes: &[u8]) -> io::Result<usize> {
        self.calls = self.calls.saturating_add(1);
        if self.calls == self.fails_at {
            return Err(io::Error::from(io::ErrorKind::BrokenPipe));
        }
        Ok(bytes.len().min(40))
    }

    fn flush(&mut self) -> io::Result<()> {
        Ok(())
    }
}

/// A writer whose call of this number fails; none where it is 0.
fn failing_at(fails_at: u64) -> Narrow {
    Narrow { calls: 0, fails_at }
}

/// How a run over these files ends whose writers `out` and `err` fail at their calls of these numbers, and how many calls each got.
fn narrowed(
    alloc: Global,
    files: &[(&str, &str)],
    words: &[&str],
    out_fails_at: u64,
    err_fails_at: u64,
) -> (Status, u64, u64) {
    let (out, err) = (failing_at(out_fails_at), failing_at(err_fails_at));
    let mut to = Streams { out, err };
    let status = run(alloc, words, &mut Shelf::new(files), &mut to);
    (status, to.out.calls, to.err.calls)
}

/// Whether a run in which this call of `out` alone fails ends there.
fn ends_at(alloc: Global, files: &[(&str, &str)], words: &[&str], call: u64) -> bool {
    let (status, calls, _) = narrowed(alloc, files, words, call, 0);
    status == Status::Device && calls == call
}

/// Whether a check of these holes prints just this, and ends where a call fails: the first, one between, and the last.
fn is_reported(alloc: Global, drill: &str, text: &str) -> bool {
    let files = [("m.csv", MANIFEST), ("top.gbr", LAYER), ("pth.drl", drill)];
    let (status, calls, _) = narrowed(alloc, &files, &WORDS, 0, 0);
    let mut shelf = Shelf::new(&files);
    let is_whole = prints(alloc, &mut shelf, &WORDS, Status::Findings, text, "");
    is_whole
        && status == Status::Findings
        && calls > 1_700
        && ends_at(alloc, &files, &WORDS, 1)
        && ends_at(alloc, &files, &WORDS, 1_700)
        && ends_at(alloc, &files, &WORDS, calls)
}

#[test]
fn a_long_report_is_written_in_parts(rt: HostRuntime) -> Result<(), Failure> {
    let drill = drill_of(rt.alloc(), 2_000)?;
    let text = report_of(rt.alloc(), 2_000)?;
    assert!(rt; is_reported(rt.alloc(), drill.as_str(), text.as_str()));
    Ok(())
}

/// A drill file of 900 tools, each with a hole, a centimetre apart.
fn tools(alloc: Global) -> Result<String, AllocError> {
    let mut text = String::from_str(alloc, "M48\nMETRIC\n")?;
    for i in 100..1_000 {
        write!(text, "T{i}C0.{i}\n")?;
    }
    text.push_str("%\n")?;
    for i in 100..1_000 {
        write!(text, "T{i}\nX{i}0.0Y0.0\n")?;
    }
    text.push_str("M30\n")?;
    Ok(text)
}

/// Appends the lines of the tools' rings on a layer.
fn push_rings(text: &mut String, layer: u64) -> Result<(), AllocError> {
    for i in 100..1_000 {
        write!(
            text,
            "ring layer={layer} drill=3 diameter=0.{i}000000 holes=1 bare=1 least=none\n"
        )?;
    }
    Ok(())
}

/// The measure of these holes and two layers whose pads hold none of them.
fn measure_of_tools(alloc: Global) -> Result<String, AllocError> {
    let mut text = String::from_str(
        alloc,
        "file 1 layer pads=1 other=0 name=top\nfile 2 layer pads=1 other=0 name=bot\nfile 3 drill plated=yes round=900 slots=0 name=pth\n",
    )?;
    push_rings(&mut text, 1)?;
    push_rings(&mut text, 2)?;
    text.push_str(
        "gap least=9.001500000 drill=3 hole=899 drill=3 hole=900\nmeets ring=none gap=9.001500000 held=none\n",
    )?;
    Ok(text)
}

/// Whether a measure of these holes prints just this, and ends where a call fails.
fn is_measured(alloc: Global, drill: &str, text: &str) -> bool {
    let files = [
        ("m.csv", THREE),
        ("top.gbr", LAYER),
        ("bot.gbr", LAYER),
        ("pth.drl", drill),
    ];
    let mut shelf = Shelf::new(&files);
    let is_whole = prints(alloc, &mut shelf, &MEASURE, Status::Pass, text, "");
    is_whole
        && ends_at(alloc, &files, &MEASURE, 1)
        && ends_at(alloc, &files, &MEASURE, 4)
        && ends_at(alloc, &files, &MEASURE, 2_000)
}

#[test]
fn a_long_measure_is_written_in_parts(rt: HostRuntime) -> Result<(), Failure> {
    let drill = tools(rt.alloc())?;
    let text = measure_of_tools(rt.alloc())?;
    assert!(rt; is_measured(rt.alloc(), drill.as_str(), text.as_str()));
    Ok(())
}

const PACKAGE: [(&str, &str); 3] = [("m.csv", MANIFEST), ("top.gbr", LAYER), ("pth.drl", DRILL)];

/// Two commands that pass, and three of which a sentence is said beside the answer, and their statuses.
const COMMANDS: [(&[&str], Status); 5] = [
    (&WORDS, Status::Pass),
    (&MEASURE, Status::Pass),
    (&["check", "--ring=x", "--gap=1", "m.csv"], Status::Usage),
    (&["check", "--ring=1", "--gap=1", "none"], Status::Device),
    (&["show", "--kind", "layer", "none"], Status::Device),
];

/// Whether a run in which this call of `err` alone fails ends there.
fn ends_at_of_err(alloc: Global, words: &[&str], call: u64) -> bool {
    let (status, _, calls) = narrowed(alloc, &PACKAGE, words, 0, call);
    status == Status::Device && calls == call
}

/// Whether a run ends with this status after more than three calls of a writer, calls `err` just where it does not pass, and ends at each
/// call of `out`, and at each of `err`, that alone fails.
fn ends_at_each(alloc: Global, words: &[&str], wanted: Status) -> bool {
    let (status, out_calls, err_calls) = narrowed(alloc, &PACKAGE, words, 0, 0);
    let calls = out_calls.max(err_calls);
    for call in 1..=calls {
        let out_ends = call > out_calls || ends_at(alloc, &PACKAGE, words, call);
        let err_ends = call > err_calls || ends_at_of_err(alloc, words, call);
        if !out_ends || !err_ends {
            return false;
        }
    }
    status == wanted && calls >= 4 && (err_calls == 0) == (wanted == Status::Pass)
}

#[test]
fn a_writer_that_fails_is_told_at_each_write(rt: HostRuntime) {
    for &(words, wanted) in &COMMANDS {
        assert!(rt; ends_at_each(rt.alloc(), words, wanted), "{words:?}");
    }
}

/// Whether a run passes and prints just this, or prints just that memory ran out.
fn passes_or_lacks_memory(alloc: Global, words: &[&str], text: &str) -> bool {
    // What is printed needs no more memory, so that it can be printed that there is none.
    let Ok(out) = Vec::with_capacity(alloc, 256) else {
        return true;
    };
    let mut to = Streams {
        out,
        err: Vec::new(alloc),
    };
    let status = run(alloc, words, &mut Shelf::new(&PACKAGE), &mut to);
    match status {
        Status::Pass => to.out.as_slice() == text.as_bytes(),
        Status::Device => to.out.as_slice() == b"memory\n".as_slice(),
        _ => false,
    }
}

/// Words, and what a run with them prints.
const ANSWERS: [(&[&str], &str); 2] = [(&WORDS, REPORT), (&MEASURE, MEASURED)];

#[test]
fn out_of_memory_changes_no_answer(rt: HostRuntime) {
    for &(words, text) in &ANSWERS {
        assert!(rt;
            passes_or_lacks_memory(rt.alloc(), words, text),
            "{words:?}"
        );
    }
}
