//! Hostile use: texts that are cut, rows at the limits, and calls whose answers a script compares while it refuses allocations.
#![tactic(auto)]

mod answer;
mod boards;
mod calls;
mod cuts;
mod digest;
mod groups;
mod inputs;
mod long;
mod readers;
mod small;
mod texts;

use cuts::Tally;
use readers::Reader;
use ringcheck_files::{ReadFail, read_all};
use std::process::ExitCode;
use std::{env, fs, io};
use texts::Paragraph;

/// The greatest size of a data file, in bytes.
const GREATEST_SIZE: u64 = 1_048_576;

/// The greatest size of a file that is read by a reader, in bytes.
const GREATEST_FILE: u64 = 268_435_456;

/// What is done with the paragraphs of a data file.
#[derive(Clone, Copy, PartialEq, Eq)]
enum Task {
    Cuts,
    Rows,
}

/// Does the task with one paragraph, and prints a row whose answer differs from the one that it states.
fn judge(rt: &HostRuntime, task: Task, paragraph: &Paragraph, tally: &mut Tally) -> io::Result<()> {
    let alloc = rt.alloc();
    match task {
        Task::Cuts => cuts::cut(alloc, &paragraph.text, tally),
        Task::Rows => {
            let is_right = cuts::is_answered(alloc, paragraph)?;
            tally.count(is_right);
            if !is_right {
                println!(rt; "differs: {}", paragraph.title.as_str())?;
            }
        }
    }
    Ok(())
}

/// A data file, as far as its lines have been read: the last paragraph, and what was counted of those before.
#[derive(Drop)]
struct Judged {
    task: Task,
    paragraph: Paragraph,
    tally: Tally,
}

impl Judged {
    /// Takes a line. An empty one ends a paragraph.
    fn take(&mut self, rt: &HostRuntime, line: &str) -> io::Result<()> {
        if !line.is_empty() {
            self.paragraph.take(rt.alloc(), line)?;
        } else if self.paragraph.is_begun {
            judge(rt, self.task, &self.paragraph, &mut self.tally)?;
            self.paragraph = Paragraph::new(rt.alloc());
        }
        Ok(())
    }
}

/// Does the task with all paragraphs of a data file, which are lines up to an empty one.
fn judge_all(rt: &HostRuntime, task: Task, text: &str) -> io::Result<()> {
    let mut judged = Judged {
        task,
        paragraph: Paragraph::new(rt.alloc()),
        tally: Tally::new(),
    };
    for line in text.split('\n') {
        judged.take(rt, line)?;
    }
    let Tally { all, different } = judged.tally;
    match task {
        Task::Cuts => println!(rt; "cuts: {all}, different: {different}"),
        Task::Rows => println!(rt; "rows: {all}, different: {different}"),
    }
}

/// The bytes of a data file, or none where it cannot be read.
fn bytes_of(rt: &HostRuntime, name: &str) -> io::Result<Option<Vec<u8>>> {
    let mut file = fs::open(rt, name)?;
    Ok(read_all(rt.alloc(), &mut file, GREATEST_SIZE).ok())
}

/// Does the task with a data file.
fn run_file(rt: &HostRuntime, task: Task, name: &str) -> io::Result<()> {
    let Some(bytes) = bytes_of(rt, name)? else {
        return println!(rt; "{name} cannot be read");
    };
    match std::str::from_utf8(&bytes) {
        Ok(text) => judge_all(rt, task, text),
        Err(_) => println!(rt; "{name} is no text"),
    }
}

/// Prints the answer of a reader to a file in two pieces.
fn read_file(rt: &HostRuntime, reader: Reader, name: &str) -> io::Result<()> {
    let mut file = fs::open(rt, name)?;
    match read_all(rt.alloc(), &mut file, GREATEST_FILE) {
        Ok(bytes) => {
            let answer = reader.in_two(rt.alloc(), &bytes, bytes.len() / 2);
            println!(rt; "{answer}")
        }
        Err(ReadFail::Memory) => println!(rt; "memory"),
        Err(_) => println!(rt; "{name} cannot be read"),
    }
}

/// The word at this place, or an empty one.
fn word(words: &[String], at: usize) -> &str {
    match words.get(at) {
        Some(word) => word.as_str(),
        None => "",
    }
}

/// Runs the rows, the cuts and the longest texts.
fn run_all(rt: &HostRuntime) -> io::Result<()> {
    run_file(rt, Task::Rows, "rows.txt")?;
    run_file(rt, Task::Cuts, "texts.txt")?;
    let Tally { all, different } = long::run(rt.alloc())?;
    println!(rt; "long texts: {all}, different: {different}")
}

/// With `call NUMBER`, makes the calls over the input of that number; with `read READER FILE`, reads a file; with no words, runs
/// all texts.
fn run_words(rt: &HostRuntime) -> io::Result<()> {
    let words: Vec<String> = env::args(rt)?.collect(rt.alloc())?;
    if word(&words, 1) == "call" {
        return groups::run(rt, word(&words, 2).parse().unwrap_or(usize::MAX));
    }
    match Reader::named(word(&words, 2)) {
        Some(reader) => read_file(rt, reader, word(&words, 3)),
        None => run_all(rt),
    }
}

fn main(rt: HostRuntime) -> ExitCode {
    match run_words(&rt) {
        Ok(()) => ExitCode::SUCCESS,
        Err(error) => {
            let _ = match error.kind() {
                io::ErrorKind::OutOfMemory => println!(rt; "memory"),
                _ => println!(rt; "a file cannot be read or written"),
            };
            ExitCode::from(4)
        }
    }
}
