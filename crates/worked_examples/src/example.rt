//! An example: the question about some files, and the answer that is expected.

use crate::draft::{Change, Draft};
use crate::shelf::Shelf;
use gerber_text::read_words;
use grid_units::Fail;
use ringcheck::{Status, Streams, run};
use std::alloc::{AllocError, Global};
use std::fmt;

/// The question of an example.
#[derive(Drop)]
enum Question {
    Nothing,
    /// The answer of the program to these words.
    Run(String),
    /// The commands of this Gerber file, without the rules of a layer.
    Words(String),
}

/// An example, as far as its lines have been read.
#[derive(Drop)]
pub(crate) struct Example {
    title: String,
    question: Question,
    status: u8,
    wanted: String,
    said: String,
    lines: Vec<String>,
    parts: Vec<Vec<u8>>,
    lacking: Vec<Vec<u8>>,
    head: Vec<u8>,
    tail: Vec<u8>,
    is_clear: bool,
}

/// An answer: the exit status, and what is printed.
#[derive(Drop)]
struct Answer {
    status: u8,
    to: Streams<Vec<u8>, Vec<u8>>,
}

impl Example {
    pub(crate) fn new(alloc: Global) -> Example {
        Example {
            title: String::new(alloc),
            question: Question::Nothing,
            status: 0,
            wanted: String::new(alloc),
            said: String::new(alloc),
            lines: Vec::new(alloc),
            parts: Vec::new(alloc),
            lacking: Vec::new(alloc),
            head: Vec::new(alloc),
            tail: Vec::new(alloc),
            is_clear: true,
        }
    }

    pub(crate) fn title(&self) -> &str {
        self.title.as_str()
    }

    /// Takes one line of the file of examples.
    pub(crate) fn take(
        &mut self,
        alloc: Global,
        shelf: &mut Shelf,
        line: &str,
    ) -> Result<(), AllocError> {
        let (word, rest) = line.split_once(' ').unwrap_or((line, ""));
        match word {
            "#" => Ok(()),
            "example" => self.title.push_str(rest),
            "run" | "words" => self.ask(alloc, word, rest),
            "status" | ">" | "says" | "has" | "part" | "lacks" | "begins" | "ends" => {
                self.want(alloc, word, rest)
            }
            _ => {
                let is_clear = write_file(alloc, shelf, word, rest)?;
                self.is_clear &= is_clear;
                Ok(())
            }
        }
    }

    /// Takes the question.
    fn ask(&mut self, alloc: Global, word: &str, rest: &str) -> Result<(), AllocError> {
        let rest = String::from_str(alloc, rest)?;
        self.question = match word {
            "run" => Question::Run(rest),
            _ => Question::Words(rest),
        };
        Ok(())
    }

    /// Takes a line of the expected answer.
    fn want(&mut self, alloc: Global, word: &str, rest: &str) -> Result<(), AllocError> {
        match word {
            "status" => self.status = rest.parse().unwrap_or(u8::MAX),
            ">" => push_line(&mut self.wanted, rest)?,
            "says" => push_line(&mut self.said, rest)?,
            "has" => self.lines.push(String::from_str(alloc, rest)?)?,
            "part" => self.parts.push(unescaped(alloc, rest)?)?,
            "lacks" => self.lacking.push(unescaped(alloc, rest)?)?,
            "begins" => self.head = unescaped(alloc, rest)?,
            _ => self.tail = unescaped(alloc, rest)?,
        }
        Ok(())
    }

    /// Whether the answer differs from the expected one; `None` if the example has no question. The files of the example are removed.
    pub(crate) fn judge(
        &self,
        alloc: Global,
        shelf: &mut Shelf,
    ) -> Result<Option<bool>, AllocError> {
        let answer = match &self.question {
            Question::Nothing => return Ok(None),
            Question::Run(words) => answer_of_run(alloc, shelf, words.as_str())?,
            Question::Words(name) => answer_of_words(alloc, shelf, name.as_str())?,
        };
        shelf.clear();
        Ok(Some(!self.is_clear || !self.agrees(&answer)))
    }

    fn agrees(&self, answer: &Answer) -> bool {
        let text = &answer.to.out;
        let is_whole = self.wanted.is_empty() || self.wanted.as_bytes() == text.as_slice();
        answer.status == self.status
            && is_whole
            && self.said.as_bytes() == answer.to.err.as_slice()
            && text.starts_with(&self.head)
            && text.ends_with(&self.tail)
            && self.has_all(text)
    }

    /// Whether a text contains all lines and parts that it must contain, and none of those that it must not.
    fn has_all(&self, text: &[u8]) -> bool {
        self.lines.iter().all(|line| has_line(text, line.as_str()))
            && self.parts.iter().all(|part| has_part(text, part))
            && !self.lacking.iter().any(|part| has_part(text, part))
    }
}

/// Appends a line and its LF.
fn push_line(text: &mut String, line: &str) -> Result<(), AllocError> {
    text.push_str(line)?;
    text.push('\n')
}

/// Whether a text contains this line.
fn has_line(text: &[u8], line: &str) -> bool {
    text.split(|byte| *byte == b'\n')
        .any(|one| one == line.as_bytes())
}

/// Whether a text contains these bytes.
fn has_part(text: &[u8], part: &[u8]) -> bool {
    text.windows(part.len().max(1)).any(|one| one == part)
}

fn status_number(status: Status) -> u8 {
    match status {
        Status::Pass => 0,
        Status::Findings => 1,
        Status::Refused => 2,
        Status::Usage => 3,
        Status::Device => 4,
    }
}

fn answer_of_run(alloc: Global, shelf: &mut Shelf, words: &str) -> Result<Answer, AllocError> {
    let words = words
        .split_whitespace()
        .map(|word| if word == "''" { "" } else { word });
    let words: Vec<&str> = words.collect(alloc)?;
    let mut to = Streams {
        out: Vec::new(alloc),
        err: Vec::new(alloc),
    };
    let status = status_number(run(alloc, words.as_slice(), shelf, &mut to));
    Ok(Answer { status, to })
}

/// How the reading of a file's words ended.
#[derive(Clone, Copy)]
struct Ended(Option<Fail>);

impl fmt::Display for Ended {
    fn fmt<W: fmt::Write>(&self, f: &mut fmt::Formatter<W>) -> fmt::Result {
        match self.0 {
            None => f.write_str("accepted\n"),
            Some(Fail::Memory) => f.write_str("memory\n"),
            Some(Fail::Refused(fault)) => {
                let (reason, place, byte) = (fault.reason.name(), fault.place, fault.byte);
                write!(f, "{reason} at {place}, {byte}\n")
            }
        }
    }
}

fn answer_of_words(alloc: Global, shelf: &mut Shelf, name: &str) -> Result<Answer, AllocError> {
    let read = match shelf.text_of(alloc, name)? {
        Some(text) => read_words(alloc, &text),
        None => read_words(alloc, b""),
    };
    let text = format!(in alloc; "{}", Ended(read.err()))?;
    let to = Streams {
        out: text.into_bytes(),
        err: Vec::new(alloc),
    };
    Ok(Answer { status: 0, to })
}

/// Begins a file, `NAME`, or files of one text, `NAME.. from BASE`. False if there is no such base text.
fn begin_file(alloc: Global, shelf: &mut Shelf, rest: &str) -> Result<bool, AllocError> {
    let Some((names, base)) = rest.split_once(" from ") else {
        shelf.begin(alloc, rest, Draft::new(alloc))?;
        return Ok(true);
    };
    let Some(text) = shelf.text_of(alloc, base)? else {
        return Ok(false);
    };
    for name in names.split_whitespace() {
        shelf.begin(alloc, name, Draft::from_text(alloc, &text)?)?;
    }
    Ok(true)
}

/// Takes a line of the examples' files. False if the line means nothing.
fn write_file(
    alloc: Global,
    shelf: &mut Shelf,
    word: &str,
    rest: &str,
) -> Result<bool, AllocError> {
    match word {
        "base" => {
            shelf.begin(alloc, rest, Draft::new(alloc))?;
            shelf.keep_as_bases();
            Ok(true)
        }
        "file" => begin_file(alloc, shelf, rest),
        _ => match shelf.last() {
            Some(draft) => write_draft(alloc, draft, word, rest),
            None => Ok(false),
        },
    }
}

/// Takes a line of the file that was begun last. False if the line means nothing.
fn write_draft(
    alloc: Global,
    draft: &mut Draft,
    word: &str,
    rest: &str,
) -> Result<bool, AllocError> {
    match word {
        "|" => draft.append_line(rest)?,
        "~" => append(alloc, draft, rest, 1)?,
        "cut" => draft.cut(rest.parse().unwrap_or(0)),
        "*" => return repeat(alloc, draft, rest),
        _ => return change_line(draft, word, rest),
    }
    Ok(true)
}

/// Appends a text `count` times.
fn append(alloc: Global, draft: &mut Draft, text: &str, count: usize) -> Result<(), AllocError> {
    let text = unescaped(alloc, text)?;
    draft.append(&text, count)
}

/// Appends a text many times: `COUNT TEXT`.
fn repeat(alloc: Global, draft: &mut Draft, rest: &str) -> Result<bool, AllocError> {
    let Some((count, text)) = rest.split_once(' ') else {
        return Ok(false);
    };
    append(alloc, draft, text, count.parse().unwrap_or(0))?;
    Ok(true)
}

/// Changes a line of the base text: `<N`, `=N` and `>N` put a line before it, in its place, and after it; `-N` takes it out.
fn change_line(draft: &mut Draft, word: &str, rest: &str) -> Result<bool, AllocError> {
    let sign = word.chars().next();
    let Some(number) = word
        .get(1..)
        .and_then(|digits| digits.parse::<usize>().ok())
    else {
        return Ok(false);
    };
    match sign {
        Some('<') => draft.change(number, Change::Before, rest),
        Some('=') => draft.change(number, Change::Instead, rest),
        Some('>') => draft.change(number, Change::After, rest),
        Some('-') => Ok(draft.drop_line(number)),
        _ => Ok(false),
    }
}

/// The byte that a byte after a backslash stands for.
fn escaped(byte: u8) -> u8 {
    match byte {
        b'n' => b'\n',
        b't' => b'\t',
        b'r' => b'\r',
        b's' => b' ',
        other => other,
    }
}

/// The bytes of a text in which `\n`, `\t`, `\r` and `\s` stand for a line feed, a tab, a carriage return and a space.
fn unescaped(alloc: Global, text: &str) -> Result<Vec<u8>, AllocError> {
    let (mut bytes, mut is_escape) = (Vec::new(alloc), false);
    for byte in text.bytes() {
        if !is_escape && byte == b'\\' {
            is_escape = true;
            continue;
        }
        bytes.push(if is_escape { escaped(byte) } else { byte })?;
        is_escape = false;
    }
    Ok(bytes)
}
