//! The texts of the data files: a paragraph each.

use crate::readers::Reader;
use std::alloc::{AllocError, Global};

/// The answer that a reader must give.
#[derive(Drop)]
pub(crate) enum Wanted {
    /// These two counts.
    Counts(usize, usize),
    /// This line.
    Line(String),
}

/// A text, with a reader and the answer that it must give, where the paragraph states them.
#[derive(Drop)]
pub(crate) struct Paragraph {
    pub(crate) is_begun: bool,
    pub(crate) title: String,
    pub(crate) text: Vec<u8>,
    pub(crate) reader: Option<Reader>,
    pub(crate) wanted: Option<Wanted>,
}

impl Paragraph {
    pub(crate) fn new(alloc: Global) -> Paragraph {
        Paragraph {
            is_begun: false,
            title: String::new(alloc),
            text: Vec::new(alloc),
            reader: None,
            wanted: None,
        }
    }

    /// Takes one line of the data file.
    pub(crate) fn take(&mut self, alloc: Global, line: &str) -> Result<(), AllocError> {
        let (word, rest) = line.split_once(' ').unwrap_or((line, ""));
        match word {
            "row" => self.title.push_str(rest)?,
            "by" => self.reader = Reader::named(rest),
            ">" => self.wanted = Some(wanted_of(alloc, rest)?),
            "~" => self.append(alloc, 1, rest)?,
            "*" => self.append_often(alloc, rest)?,
            _ => {}
        }
        Ok(())
    }

    /// Appends a text many times: `COUNT TEXT`.
    fn append_often(&mut self, alloc: Global, rest: &str) -> Result<(), AllocError> {
        let (count, text) = rest.split_once(' ').unwrap_or((rest, ""));
        self.append(alloc, count.parse().unwrap_or(0), text)
    }

    /// Appends a text `count` times.
    fn append(&mut self, alloc: Global, count: usize, text: &str) -> Result<(), AllocError> {
        let bytes = unescaped(alloc, text)?;
        for _ in 0..count {
            self.text.extend_from_slice(&bytes)?;
        }
        self.is_begun = true;
        Ok(())
    }
}

fn wanted_of(alloc: Global, line: &str) -> Result<Wanted, AllocError> {
    if let Some((first, second)) = line.split_once(' ') {
        if let (Ok(first), Ok(second)) = (first.parse::<usize>(), second.parse::<usize>()) {
            return Ok(Wanted::Counts(first, second));
        }
    }
    Ok(Wanted::Line(String::from_str(alloc, line)?))
}

/// The byte that a byte after a backslash stands for.
fn escaped(byte: u8) -> u8 {
    match byte {
        b'n' => b'\n',
        b't' => b'\t',
        b's' => b' ',
        other => other,
    }
}

/// The bytes of a text in which `\n`, `\t`, `\s` and `\\` stand for a line feed, a tab, a space and a backslash.
fn unescaped(alloc: Global, text: &str) -> Result<Vec<u8>, AllocError> {
    let mut bytes = Vec::new(alloc);
    let mut is_escape = false;
    for byte in text.bytes() {
        if !is_escape && byte == b'\\' {
            is_escape = true;
            continue;
        }
        bytes.push(if is_escape { escaped(byte) } else { byte })?;
        is_escape = false;
    }
    Ok(bytes)
}
