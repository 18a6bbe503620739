//! The files of a package, each with its role and its counts, and what a pass promises.

ghost use Rattle.std.specs.Prelude.{◌≡◌, map, Some};
ghost use Rattle.std.specs.Fmt.{DisplaysOnOk};
ghost use Rattle.std.specs.List.{enumerate_from};
ghost use Rattle.picture.specs.Escapes.{escaped_name};
ghost use Rattle.report_page.specs.Pages.{amount, contour_words, file_counts, drill_words, file_items, file_words, files_text, promise, role_word, span_words};

use crate::frame::{FILES, PREMISES, STRICT_PROMISE, WIDE_PROMISE};
use board::FileSum;
use grid_units::{Profile, Span, name_of};
use picture::Escaped;
use std::fmt;
use std::fmt::{Display, Formatter};

/// A number and its words, for one and for others: `1 pad, ` or `361 pads, `.
#[derive(Clone, Copy)]
struct Amount(usize, &'static str, &'static str);

impl Display for Amount {
    ghost output = { λ it. Some (amount it.0 it.1.now it.2.now) };

    fn fmt<W: fmt::Write>(&self, f: &mut Formatter<W>) -> fmt::Result {
        let words = if self.0 == 1 { self.1 } else { self.2 };
        write!(f, "{}{words}", self.0)
    }
}

/// The contours of a copper file that count as pads; nothing in the strict profile.
#[derive(Clone, Copy)]
struct ContourCount {
    profile: Profile,
    contours: usize,
}

impl Display for ContourCount {
    ghost output = { λ it. Some (contour_words it.profile it.contours) };

    fn fmt<W: fmt::Write>(&self, f: &mut Formatter<W>) -> fmt::Result {
        match self.profile {
            Profile::Strict => Ok(()),
            Profile::Wide => write!(f, ", {}", Amount(self.contours, " contour", " contours")),
        }
    }
}

/// The holes of a drill file: `322 round holes, 1 slot`.
#[derive(Clone, Copy)]
struct DrillWords {
    round: usize,
    slots: usize,
}

impl Display for DrillWords {
    ghost output = { λ it. Some (drill_words it.round it.slots) };

    fn fmt<W: fmt::Write>(&self, f: &mut Formatter<W>) -> fmt::Result {
        let round = Amount(self.round, " round hole, ", " round holes, ");
        let slots = Amount(self.slots, " slot", " slots");
        write!(f, "{round}{slots}")
    }
}

/// The layers that the holes of a drill file go through, if the manifest names them.
#[derive(Clone, Copy)]
struct SpanPhrase(Option<Span>);

impl Display for SpanPhrase {
    ghost output = { λ it. Some (span_words it.0) };

    fn fmt<W: fmt::Write>(&self, f: &mut Formatter<W>) -> fmt::Result {
        match self.0 {
            Some(span) => {
                let (first, last) = (span.first(), span.last());
                write!(f, ", from layer {first} to layer {last}")
            }
            None => Ok(()),
        }
    }
}

/// The counts of a file of any kind in a profile: `361 pads, 1 other flash`.
#[derive(Clone, Copy)]
struct FileCounts {
    profile: Profile,
    file: FileSum,
}

impl Display for FileCounts {
    ghost output = { λ it. Some (file_counts it.profile it.file) };

    fn fmt<W: fmt::Write>(&self, f: &mut Formatter<W>) -> fmt::Result {
        let profile = self.profile;
        match self.file {
            FileSum::Layer {
                pads,
                other,
                contours,
            } => {
                let pads = Amount(pads, " pad, ", " pads, ");
                let other = Amount(other, " other flash", " other flashes");
                write!(f, "{pads}{other}{}", ContourCount { profile, contours })
            }
            FileSum::Drill {
                span,
                round,
                slots,
                ..
            } => write!(f, "{}{}", DrillWords { round, slots }, SpanPhrase(span)),
            FileSum::Mixed {
                span,
                round,
                slots,
                unplated,
            } => {
                let (holes, span) = (DrillWords { round, slots }, SpanPhrase(span));
                write!(f, "{holes}, unplated: {unplated}{span}")
            }
        }
    }
}

/// The role of a file.
fn role_word(file: &FileSum) -> &'static str
    ensures { result.now ≡ role_word file.now }
{
    match file {
        FileSum::Layer { .. } => "copper",
        FileSum::Drill { plated: true, .. } => "plated",
        FileSum::Drill { plated: false, .. } => "unplated",
        FileSum::Mixed { .. } => "mixed",
    }
}

/// A file of any kind in a profile: its role, its name and its counts.
#[derive(Clone, Copy)]
struct FileItem<'a> {
    profile: Profile,
    name: &'a str,
    file: FileSum,
}

impl Display for FileItem<'_> {
    ghost output = { λ it. Some (file_words it.profile (escaped_name it.name.now) it.file) };

    #[tactic(auto, unfolding(crate::specs::Pages::file_item))]
    fn fmt<W: fmt::Write>(&self, f: &mut Formatter<W>) -> fmt::Result {
        let (role, name) = (role_word(&self.file), Escaped(self.name));
        let counts = FileCounts {
            profile: self.profile,
            file: self.file,
        };
        write!(f, "<li>{role} {name}: {counts}</li>\n")
    }
}

/// What a pass promises in a profile.
fn promise(profile: Profile) -> &'static str
    ensures { result.now ≡ promise profile }
{
    match profile {
        Profile::Strict => STRICT_PROMISE,
        Profile::Wide => WIDE_PROMISE,
    }
}

/// The files of a package, what a pass promises in a profile, and under which premises.
#[derive(Clone, Copy)]
pub(crate) struct FilesText<'a> {
    pub(crate) profile: Profile,
    /// The names of the files.
    pub(crate) names: &'a [&'a str],
    /// Their contents.
    pub(crate) files: &'a [FileSum],
}

/// Writes the files.
fn write_files<W: fmt::Write>(f: &mut Formatter<W>, text: &FilesText) -> fmt::Result
    ensures { DisplaysOnOk W.write_str_gives f.old result (Some (file_items text.now.profile (map (λ name. name.now) text.now.names.now) (enumerate_from 0 text.now.files.now))) f.new }
{
    let (profile, names, files) = (text.profile, text.names, text.files);
    for i in 0..files.len() {
        let name = name_of(names, i);
        let file = files[i];
        let item = FileItem {
            profile,
            name,
            file,
        };
        write!(f, "{item}")?;
    }
    Ok(())
}

impl Display for FilesText<'_> {
    ghost output = { λ text. Some (files_text text.profile (map (λ name. name.now) text.names.now) text.files.now) };

    fn fmt<W: fmt::Write>(&self, f: &mut Formatter<W>) -> fmt::Result {
        f.write_str(FILES)?;
        write_files(f, self)?;
        write!(f, "{}{PREMISES}", promise(self.profile))
    }
}
