//! The program `ringcheck` over the files of the working directory.
#![tactic(auto)]

ghost use Rattle.std.specs.Prelude.{◌≡◌, ◌⊎◌, ◌<◌, ℕ, List, IfOk, IfErr, IsErr, drop, map};
ghost use Rattle.std.specs.Process.{exit_status};
ghost use Rattle.std.specs.String.{string_bytes};
ghost use Rattle.std.specs.Io.{WritesAtMost};
ghost use Rattle.std.specs.Io.KnownBytes.{WriteAppends};
ghost use Rattle.std.specs.IoError.{error_kind};
ghost use Rattle.ringcheck_files.specs.LoaderRelation as names;
ghost use Rattle.ringcheck_program.specs.Endings.{IsExitCode, IsHeldBackStatus, IsWordlessStatus, IsWrittenOut, words_of};

use ringcheck::{
    LoadFault, Loader, MAX_LIMIT, ReadFail, Sink, Status, Streams, path_in, read_into, run,
};
use std::alloc::{AllocError, Global};
use std::io::{BufWriter, Eprint, ErrorKind, IsTerminal, Write};
use std::process::ExitCode;
use std::rt::Files;
use std::time::{Clock, Instant};
use std::{env, fs, io};

/// Loads files by their names, from the working directory or the folder that was entered. On a disk a name may stand for any bytes.
#[derive(Drop)]
struct Disk<'a, R> {
    rt: &'a R,
    alloc: Global,
    /// The folder that was entered, or an empty text.
    folder: String,
    failures: u64,
    /// When the run began, where somebody is told which file is read; else nobody is.
    began: Option<Instant>,
}

/// After how many seconds of a run it is said which file is read.
const QUIET_SECONDS: u64 = 2;

impl<R: Clock + Eprint> Disk<'_, R> {
    /// Says on standard error that this file is read now, where the run has taken a while and somebody is told.
    fn say_reading(&self, path: &str) {
        let Some(began) = self.began else {
            return;
        };
        if matches!(began.elapsed(self.rt), Ok(time) if time.as_secs() >= QUIET_SECONDS) {
            // A line that cannot be written is left out: the answer does not depend on it.
            let _ = eprintln!(self.rt; "ringcheck: reading {path}");
        }
    }

    /// The name under which the disk has a file.
    fn path_of(&self, name: &str) -> Result<String, AllocError>
        ensures { IfOk result (λ path. string_bytes path ≡ names.path_in (string_bytes self.now.folder) name.now) }
    {
        path_in(self.alloc, self.folder.as_str(), name)
    }
}

impl<R: Files + Clock + Eprint> Loader for Disk<'_, R> {
    ghost has = { λ s n b. Unit {0} };

    ghost failed = { λ s. s.failures };

    fn load_into<S: Sink>(
        &mut self,
        alloc: Global,
        name: &str,
        limit: u64,
        sink: &mut S,
    ) -> Result<(), LoadFault> {
        let Ok(path) = self.path_of(name) else {
            return Err(LoadFault::Memory);
        };
        self.say_reading(path.as_str());
        let Ok(mut file) = fs::open(self.rt, path.as_str()) else {
            self.failures = self.failures.saturating_add(1);
            return Err(LoadFault::Device);
        };
        match read_into(alloc, &mut file, limit.min(MAX_LIMIT), sink) {
            Ok(()) => Ok(()),
            Err(ReadFail::TooLong) => Err(LoadFault::TooLong),
            Err(ReadFail::Memory) => Err(LoadFault::Memory),
            Err(ReadFail::ReadFault) => {
                self.failures = self.failures.saturating_add(1);
                Err(LoadFault::Device)
            }
        }
    }

    fn enter(&mut self, _alloc: Global, folder: &str) -> Result<(), LoadFault> {
        let Ok(path) = self.path_of(folder) else {
            return Err(LoadFault::Memory);
        };
        self.folder = path;
        Ok(())
    }

    fn folder(&self) -> Option<&str> {
        match self.folder.as_str() {
            "" => None,
            folder => Some(folder),
        }
    }

    fn is_folder(&self, name: &str) -> bool {
        let Ok(path) = self.path_of(name) else {
            return false;
        };
        matches!(fs::metadata(self.rt, path.as_str()), Ok(metadata) if metadata.is_dir())
    }

    fn failures(&self) -> u64 {
        self.failures
    }
}

/// The most bytes of standard output that are held back for one write.
const BUFFER: usize = 65_536;

/// The same of standard error, so that a sentence whose line is no longer comes after the answer on a terminal that shows both.
const SENTENCE_BUFFER: usize = 8_192;

/// After how many interrupted writes in a row no more is written, so that the program ends.
const MAX_TRIES: u32 = 65_536;

/// A device that is no longer written to after the first write that failed. One that was interrupted is tried again.
#[derive(Drop)]
struct Device<W> {
    to: W,
    /// How many more writes in a row may be interrupted; none after one that failed.
    tries: u32,
}

impl<W: Write> Write for Device<W> {
    ghost contents = { λ device. W.contents device.to };

    fn write(&mut self, bytes: &[u8]) -> io::Result<usize>
        ensures bound { WritesAtMost result bytes.now }
        ensures bytes { WriteAppends (W.contents self.old.to) (W.contents self.new.to) result bytes.now }
        ensures ended { self.old.tries ≡ 0 → (self.new ≡ self.old) × IsErr result }
        ensures nothing { IfOk result (λ count. count ≡ 0 → self.new.tries ≡ 0) }
        ensures fails { IfErr result (λ error. (self.new.tries ≡ 0) ⊎ ((error_kind error ≡ ErrorKind.Interrupted) × (self.new.tries < self.old.tries))) }
    {
        if self.tries == 0 {
            return Err(io::Error::from(ErrorKind::BrokenPipe));
        }
        let wrote = self.to.write(bytes);
        self.tries = match &wrote {
            Ok(count) if *count > 0 => MAX_TRIES,
            Err(error) if error.kind() == ErrorKind::Interrupted => self.tries - 1,
            _ => 0,
        };
        wrote
    }

    fn flush(&mut self) -> io::Result<()> {
        self.to.flush()
    }
}

/// The status of a run that ended with `status`, and its writer, once what was held back is written; Device where it cannot be.
fn written_out<W: Write + Drop>(out: BufWriter<W>, status: Status) -> (Status, W)
    ensures { IsWrittenOut W.contents out status result }
{
    match out.into_inner() {
        Ok(writer) => (status, writer),
        Err(error) => {
            // What is left is discarded: dropped as a buffer, it would be written again.
            let (writer, _left) = error.into_inner().into_parts();
            (Status::Device, writer)
        }
    }
}

/// The arguments without the first, which is the program's name.
fn without_name(arguments: &[String]) -> &[String]
    ensures { result.now ≡ drop 1 arguments.now }
{
    match arguments.split_first() {
        Some((_name, rest)) => rest,
        None => &[],
    }
}

/// The arguments as texts.
fn texts_of(alloc: Global, arguments: &[String]) -> Result<Vec<&str>, AllocError>
    ensures { IfOk result (λ texts. map (λ text. text.now) texts.items ≡ map string_bytes arguments.now) }
{
    let mut texts = Vec::new(alloc);
    for argument in arguments {
        texts.push(argument.as_str())?;
    }
    Ok(texts)
}

/// Runs the program on the words of the command line, over any loader and over two writers, which it returns. What is printed is held
/// back, and written at the end. It is OutOfMemory where there is no memory for the words or for what is held back.
fn run_on<L: Loader, W: Write + Drop, E: Write + Drop>(
    alloc: Global,
    arguments: &[String],
    loader: &mut L,
    to: Streams<W, E>,
) -> io::Result<(Status, Streams<W, E>)>
    ensures says { IfOk result (IsHeldBackStatus (words_of arguments.now) (L.has loader.old) (L.failed loader.old) (L.failed loader.new) W.contents E.contents to) }
    ensures fails { IfErr result (λ error. error_kind error ≡ ErrorKind.OutOfMemory) }
{
    let words = texts_of(alloc, without_name(arguments))?;
    let mut held = Streams {
        out: BufWriter::with_capacity(alloc, BUFFER, to.out)?,
        err: BufWriter::with_capacity(alloc, SENTENCE_BUFFER, to.err)?,
    };
    let status = run(alloc, words.as_slice(), loader, &mut held);
    let (status, out) = written_out(held.out, status);
    let (status, err) = written_out(held.err, status);
    Ok((status, Streams { out, err }))
}

/// When a run begins, if standard error is a terminal, on which somebody waits.
fn began(rt: &HostRuntime) -> Option<Instant> {
    if rt.stderr().is_terminal() {
        Instant::now(rt).ok()
    } else {
        None
    }
}

/// Runs the program over the disk, standard output and standard error. It is InvalidData where a word is not UTF-8, else as of `run_on`.
fn run_words(rt: &HostRuntime) -> io::Result<Status> {
    let alloc = rt.alloc();
    let arguments: Vec<String> = env::args(rt)?.collect(alloc)?;
    let mut loader = Disk {
        rt,
        alloc,
        folder: String::new(alloc),
        failures: 0,
        began: began(rt),
    };
    let (to, tries) = (io::writer(rt), MAX_TRIES);
    let out = Device { to, tries };
    let to = rt.stderr();
    let err = Device { to, tries };
    let to = Streams { out, err };
    Ok(run_on(alloc, arguments.as_slice(), &mut loader, to)?.0)
}

/// What is printed where a word is not UTF-8.
const NO_TEXT: &str = "usage
error: a word of the command line is not UTF-8

For more information, try '--help'.
";

/// Prints why there are no words: one of them is not UTF-8, or memory ran out.
fn without_words<W: Write>(out: &mut W, error: &io::Error) -> Status
    ensures { IsWordlessStatus (error_kind error.now) (W.contents out.old) (W.contents out.new) result }
{
    let (line, status) = match error.kind() {
        ErrorKind::InvalidData => (NO_TEXT, Status::Usage),
        _ => ("memory\n", Status::Device),
    };
    match out.write_all(line.as_bytes()) {
        Ok(()) => status,
        Err(_) => Status::Device,
    }
}

/// The exit code of a run: that of its status, or of the status with which it is printed that there are no words to run on.
fn exit_code<W: Write>(ran: io::Result<Status>, out: &mut W) -> ExitCode
    ensures { IsExitCode ran (W.contents out.old) (W.contents out.new) (exit_status result) }
{
    let status = match ran {
        Ok(status) => status,
        Err(error) => without_words(out, &error),
    };
    ExitCode::from(status.code())
}

fn main(rt: HostRuntime) -> ExitCode {
    exit_code(run_words(&rt), &mut io::writer(&rt))
}
