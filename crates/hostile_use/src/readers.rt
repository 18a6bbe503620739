//! The readers of files that come in pieces, and their answers to a text whole, in two pieces and byte by byte.

use crate::answer::Answer;
use drill_text::{DrillReader, read_drill};
use gerber_text::{WordReader, read_words};
use grid_units::{Fail, Profile};
use layer_image::{Keep, LayerReader, read_layer};
use std::alloc::Global;

/// A reader of a file that comes in pieces.
trait Pieces: Sized {
    fn feed(&mut self, piece: &[u8]) -> Result<(), Fail>;

    fn finish(self) -> Answer;
}

impl Pieces for WordReader {
    fn feed(&mut self, piece: &[u8]) -> Result<(), Fail> {
        WordReader::feed(self, piece)
    }

    fn finish(self) -> Answer {
        Answer::of_words(WordReader::finish(self))
    }
}

impl Pieces for LayerReader {
    fn feed(&mut self, piece: &[u8]) -> Result<(), Fail> {
        LayerReader::feed(self, piece)
    }

    fn finish(self) -> Answer {
        Answer::of_layer(LayerReader::finish(self))
    }
}

/// A reader of a layer that keeps its pads alone.
#[derive(Drop)]
struct PadsReader(LayerReader);

impl PadsReader {
    fn new(alloc: Global) -> PadsReader {
        PadsReader(LayerReader::in_profile(alloc, Keep::Pads, Profile::Strict))
    }
}

impl Pieces for PadsReader {
    fn feed(&mut self, piece: &[u8]) -> Result<(), Fail> {
        self.0.feed(piece)
    }

    fn finish(self) -> Answer {
        Answer::of_sum(self.0.finish())
    }
}

impl Pieces for DrillReader {
    fn feed(&mut self, piece: &[u8]) -> Result<(), Fail> {
        DrillReader::feed(self, piece)
    }

    fn finish(self) -> Answer {
        Answer::of_drill(DrillReader::finish(self))
    }
}

/// A reader of a drill file that keeps its holes alone.
#[derive(Drop)]
struct HolesReader(DrillReader);

impl HolesReader {
    fn new(alloc: Global) -> HolesReader {
        HolesReader(DrillReader::keeping(alloc, drill_text::Keep::Holes))
    }
}

impl Pieces for HolesReader {
    fn feed(&mut self, piece: &[u8]) -> Result<(), Fail> {
        self.0.feed(piece)
    }

    fn finish(self) -> Answer {
        match self.0.finish() {
            Ok(drill) => Answer::of_holes(Ok(drill.into_holes())),
            Err(fail) => Answer::Failed(fail),
        }
    }
}

/// A reader that is fed, with its first failure.
#[derive(Drop)]
struct Fed<R> {
    reader: R,
    failed: Option<Fail>,
    /// Whether it has returned its first failure each time.
    is_true_to_it: bool,
}

impl<R: Pieces> Fed<R> {
    fn new(reader: R) -> Self {
        Fed {
            reader,
            failed: None,
            is_true_to_it: true,
        }
    }

    fn feed(&mut self, piece: &[u8]) {
        match (self.failed, self.reader.feed(piece)) {
            (None, Ok(())) => {}
            (None, Err(fail)) => self.failed = Some(fail),
            (Some(_), Ok(())) => self.is_true_to_it = false,
            (Some(first), Err(fail)) => self.is_true_to_it = self.is_true_to_it && first == fail,
        }
    }

    fn finish(self) -> Answer {
        let Fed {
            reader,
            failed,
            is_true_to_it,
        } = self;
        let answer = reader.finish();
        match failed {
            Some(fail) if !is_true_to_it || answer != Answer::Failed(fail) => Answer::Changed,
            _ => answer,
        }
    }
}

/// The answer of a reader to a text in two pieces; the first has `at` bytes.
fn fed_in_two<R: Pieces>(reader: R, text: &[u8], at: usize) -> Answer {
    let (front, back) = text.split_at(at.min(text.len()));
    let mut fed = Fed::new(reader);
    fed.feed(front);
    fed.feed(back);
    fed.finish()
}

/// The answer of a reader to a text byte by byte.
fn fed_in_bytes<R: Pieces>(reader: R, text: &[u8]) -> Answer {
    let mut fed = Fed::new(reader);
    for byte in text {
        fed.feed(&[*byte]);
    }
    fed.finish()
}

/// The answer of a reader to a piece that comes `count` times, and two line ends after it.
fn fed_again<R: Pieces>(reader: R, piece: &[u8], count: u64) -> Answer {
    let mut fed = Fed::new(reader);
    for _ in 0..count {
        fed.feed(piece);
    }
    fed.feed(b"\n");
    fed.feed(b"\n");
    fed.finish()
}

/// The readers: of words, of a layer, of a layer's pads, of a drill file, of a drill file's holes.
#[derive(Clone, Copy, Debug, PartialEq, Eq)]
pub(crate) enum Reader {
    Words,
    Layer,
    Sum,
    Drill,
    Holes,
}

pub(crate) const READERS: [Reader; 5] = [
    Reader::Words,
    Reader::Layer,
    Reader::Sum,
    Reader::Drill,
    Reader::Holes,
];

impl Reader {
    /// The reader of this name.
    pub(crate) fn named(name: &str) -> Option<Reader> {
        match name {
            "words" => Some(Reader::Words),
            "layer" => Some(Reader::Layer),
            "sum" => Some(Reader::Sum),
            "drill" => Some(Reader::Drill),
            "holes" => Some(Reader::Holes),
            _ => None,
        }
    }

    /// The answer of the call on the whole text. A reader without such a call has its answer worked out from another.
    pub(crate) fn whole(self, alloc: Global, text: &[u8]) -> Answer {
        match self {
            Reader::Words => Answer::of_words(read_words(alloc, text)),
            Reader::Layer => Answer::of_layer(read_layer(alloc, text)),
            Reader::Sum => Answer::of_layer_sum(read_layer(alloc, text)),
            Reader::Drill => Answer::of_drill(read_drill(alloc, text)),
            Reader::Holes => Answer::of_holes(match read_drill(alloc, text) {
                Ok(drill) => Ok(drill.into_holes()),
                Err(fail) => Err(fail),
            }),
        }
    }

    /// The answer to a text in two pieces; the first has `at` bytes.
    pub(crate) fn in_two(self, alloc: Global, text: &[u8], at: usize) -> Answer {
        match self {
            Reader::Words => fed_in_two(WordReader::new(alloc), text, at),
            Reader::Layer => fed_in_two(LayerReader::new(alloc), text, at),
            Reader::Sum => fed_in_two(PadsReader::new(alloc), text, at),
            Reader::Drill => fed_in_two(DrillReader::new(alloc), text, at),
            Reader::Holes => fed_in_two(HolesReader::new(alloc), text, at),
        }
    }

    /// The answer to a text byte by byte.
    pub(crate) fn in_bytes(self, alloc: Global, text: &[u8]) -> Answer {
        match self {
            Reader::Words => fed_in_bytes(WordReader::new(alloc), text),
            Reader::Layer => fed_in_bytes(LayerReader::new(alloc), text),
            Reader::Sum => fed_in_bytes(PadsReader::new(alloc), text),
            Reader::Drill => fed_in_bytes(DrillReader::new(alloc), text),
            Reader::Holes => fed_in_bytes(HolesReader::new(alloc), text),
        }
    }
    /// The answer to a piece that comes `count` times, and two line ends after it.
    pub(crate) fn repeated(self, alloc: Global, piece: &[u8], count: u64) -> Answer {
        match self {
            Reader::Words => fed_again(WordReader::new(alloc), piece, count),
            Reader::Layer => fed_again(LayerReader::new(alloc), piece, count),
            Reader::Sum => fed_again(PadsReader::new(alloc), piece, count),
            Reader::Drill => fed_again(DrillReader::new(alloc), piece, count),
            Reader::Holes => fed_again(HolesReader::new(alloc), piece, count),
        }
    }
}
