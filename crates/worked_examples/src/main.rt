//! Runs the worked examples of `data/examples.txt`, the cases of `data/cases.txt` and `data/dialects.txt`, and prints each whose answer differs from
//! the expected one. The head of the first file says how they are written.
#![tactic(auto)]

mod draft;
mod example;
mod shelf;

use example::Example;
use ringcheck::read_all;
use shelf::Shelf;
use std::alloc::Global;
use std::{fs, io};

/// The greatest size of a file of examples, in bytes.
const GREATEST_SIZE: u64 = 1_048_576;

/// The examples of a file, as far as its lines have been read: the last of them, and how many were judged.
#[derive(Drop)]
struct Judged {
    shelf: Shelf,
    example: Example,
    all: u64,
    different: u64,
}

impl Judged {
    fn new(alloc: Global) -> Judged {
        Judged {
            shelf: Shelf::new(alloc),
            example: Example::new(alloc),
            all: 0,
            different: 0,
        }
    }

    /// Takes a line. An empty one ends an example.
    fn take(&mut self, rt: &HostRuntime, line: &str) -> io::Result<()> {
        if line.is_empty() {
            return self.end(rt);
        }
        self.example.take(rt.alloc(), &mut self.shelf, line)?;
        Ok(())
    }

    /// Judges the example, prints it where its answer differs, and begins another.
    fn end(&mut self, rt: &HostRuntime) -> io::Result<()> {
        let differs = self.example.judge(rt.alloc(), &mut self.shelf)?;
        self.count(differs);
        if differs == Some(true) {
            println!(rt; "differs: {}", self.example.title())?;
        }
        self.example = Example::new(rt.alloc());
        Ok(())
    }

    fn count(&mut self, differs: Option<bool>) {
        if let Some(differs) = differs {
            self.all = self.all.saturating_add(1);
            self.different = self.different.saturating_add(u64::from(differs));
        }
    }
}

/// Judges the examples of a file in order: each is lines up to an empty one.
fn run_all(rt: &HostRuntime, name: &str, text: &str) -> io::Result<()> {
    let mut judged = Judged::new(rt.alloc());
    for line in text.split('\n') {
        judged.take(rt, line)?;
    }
    let (all, different) = (judged.all, judged.different);
    println!(rt; "{name}: {all}, different: {different}")
}

/// Judges the examples of the file of a name.
fn run_file(rt: &HostRuntime, name: &str) -> io::Result<()> {
    let mut file = fs::open(rt, name)?;
    let Ok(bytes) = read_all(rt.alloc(), &mut file, GREATEST_SIZE) else {
        return println!(rt; "{name} cannot be read");
    };
    match std::str::from_utf8(bytes.as_slice()) {
        Ok(text) => run_all(rt, name, text),
        Err(_) => println!(rt; "{name} is no text"),
    }
}

fn main(rt: HostRuntime) -> io::Result<()> {
    run_file(&rt, "examples.txt")?;
    run_file(&rt, "cases.txt")?;
    run_file(&rt, "dialects.txt")
}
