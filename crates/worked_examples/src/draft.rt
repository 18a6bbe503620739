//! Texts of files, written line by line, or as another text with some of its lines changed.

use std::alloc::{AllocError, Global};

/// One line of a text with its LF, and the lines put before and after it.
#[derive(Drop)]
struct Line {
    before: Vec<u8>,
    own: Vec<u8>,
    after: Vec<u8>,
    is_replaced: bool,
}

/// Where the changed text of a line goes.
#[derive(Clone, Copy)]
pub(crate) enum Change {
    Before,
    Instead,
    After,
}

impl Line {
    /// Puts a line before this one, in its place, or after it.
    fn change(&mut self, change: Change, text: &str) -> Result<(), AllocError> {
        match change {
            Change::Before => push_line(&mut self.before, text),
            Change::Instead => {
                self.replace();
                push_line(&mut self.own, text)
            }
            Change::After => push_line(&mut self.after, text),
        }
    }

    /// Takes the line out, but not the lines that came in its place.
    fn replace(&mut self) {
        if !self.is_replaced {
            self.own.clear();
            self.is_replaced = true;
        }
    }

    /// Appends the line and those before and after it to a text.
    fn write(&self, text: &mut Vec<u8>) -> Result<(), AllocError> {
        text.extend_from_slice(&self.before)?;
        text.extend_from_slice(&self.own)?;
        text.extend_from_slice(&self.after)
    }
}

/// Appends a line and its LF.
fn push_line(text: &mut Vec<u8>, line: &str) -> Result<(), AllocError> {
    text.extend_from_slice(line.as_bytes())?;
    text.push(b'\n')?;
    Ok(())
}

/// A text that is being written: the lines of the text it starts from, and what is appended.
#[derive(Drop)]
pub(crate) struct Draft {
    lines: Vec<Line>,
    appended: Vec<u8>,
    length: Option<usize>,
}

impl Draft {
    pub(crate) fn new(alloc: Global) -> Draft {
        Draft {
            lines: Vec::new(alloc),
            appended: Vec::new(alloc),
            length: None,
        }
    }

    /// The draft that starts from this text. Its last line is what stands after the last LF.
    pub(crate) fn from_text(alloc: Global, text: &[u8]) -> Result<Draft, AllocError> {
        let mut draft = Draft::new(alloc);
        for own in text.split_inclusive(|byte| *byte == b'\n') {
            draft.push_line(alloc, own)?;
        }
        draft.push_line(alloc, b"")?;
        Ok(draft)
    }

    fn push_line(&mut self, alloc: Global, own: &[u8]) -> Result<(), AllocError> {
        let own = Vec::from_slice(alloc, own)?;
        self.lines.push(Line {
            before: Vec::new(alloc),
            own,
            after: Vec::new(alloc),
            is_replaced: false,
        })?;
        Ok(())
    }

    /// Changes the line of this number, from 1. Without such a line the text stays as it is, and the answer is false.
    pub(crate) fn change(
        &mut self,
        number: usize,
        change: Change,
        text: &str,
    ) -> Result<bool, AllocError> {
        match self.lines.get_mut(number.saturating_sub(1)) {
            Some(line) => line.change(change, text).map(|_| true),
            None => Ok(false),
        }
    }

    /// Takes a line out. Without such a line the answer is false.
    pub(crate) fn drop_line(&mut self, number: usize) -> bool {
        match self.lines.get_mut(number.saturating_sub(1)) {
            Some(line) => {
                line.own.clear();
                true
            }
            None => false,
        }
    }

    /// Appends a line and its LF.
    pub(crate) fn append_line(&mut self, line: &str) -> Result<(), AllocError> {
        push_line(&mut self.appended, line)
    }

    /// Appends a text `count` times.
    pub(crate) fn append(&mut self, text: &[u8], count: usize) -> Result<(), AllocError> {
        for _ in 0..count {
            self.appended.extend_from_slice(text)?;
        }
        Ok(())
    }

    /// Cuts the text to at most these bytes.
    pub(crate) fn cut(&mut self, length: usize) {
        self.length = Some(length);
    }

    /// The text with all changes.
    pub(crate) fn text(&self, alloc: Global) -> Result<Vec<u8>, AllocError> {
        let mut text = Vec::new(alloc);
        self.write(&mut text)?;
        if let Some(length) = self.length {
            text.truncate(length);
        }
        Ok(text)
    }

    /// Appends the lines, and what was appended to them.
    fn write(&self, text: &mut Vec<u8>) -> Result<(), AllocError> {
        for line in self.lines.iter() {
            line.write(text)?;
        }
        text.extend_from_slice(&self.appended)
    }
}
