ghost use Rattle.std.specs.Prelude.{◌≡◌, ◌≢◌, ◌≤◌, ◌<◌, ◌++◌, List, ℕ, IfSome, IfErr, OnOk, map, length};
ghost use Rattle.std.specs.List.{Contains};

use ringcheck::*;
use std::alloc::{AllocError, Global};

mod containers;
mod devices;
mod limits;
mod sound;
mod words;

const WORDS: [&str; 6] = ["check", "--ring", "0.125", "--gap", "0.25", "m.csv"];

const REPORT_WORDS: [&str; 6] = ["report", "--ring", "0.125", "--gap", "0.25", "m.csv"];

const MEASURE: [&str; 2] = ["measure", "m.csv"];

const MANIFEST: &str = "role,name,file\ncopper,top,top.gbr\nplated,pth,pth.drl\n";

const LAYER: &str = "%FSLAX46Y46*%\n%MOMM*%\n%ADD10C,0.65*%\nD10*\nX0Y0D03*\nM02*\n";

/// The layer with its flash a nanometre off the hole's centre.
const MOVED: &str = "%FSLAX46Y46*%\n%MOMM*%\n%ADD10C,0.65*%\nD10*\nX1Y0D03*\nM02*\n";

const DRILL: &str = "M48\nMETRIC\nT1C0.4\n%\nT1\nX0.0Y0.0\nM30\n";

const REPORT: &str = "rules ring=0.125000000 gap=0.250000000
file 1 layer pads=1 other=0 name=top
file 2 drill plated=yes round=1 slots=0 name=pth
PASS
";

const MEASURED: &str = "file 1 layer pads=1 other=0 name=top
file 2 drill plated=yes round=1 slots=0 name=pth
ring layer=1 drill=2 diameter=0.400000000 holes=1 bare=0 least=0.125000000 hole=1
meets ring=0.125000000 gap=any held=0.125000000
";

/// Files at hand, by their names. The call numbered `fails_at` fails, once it has handed on the first half of its file.
#[derive(Drop)]
struct Shelf<'a> {
    files: &'a [(&'a str, &'a str)],
    calls: u64,
    fails_at: u64,
    failures: u64,
}

impl<'a> Shelf<'a> {
    fn new(files: &'a [(&'a str, &'a str)]) -> Self
        ensures { result.files.now ≡ files.entry.now }
    {
        Shelf {
            files,
            calls: 0,
            fails_at: 0,
            failures: 0,
        }
    }

    /// The text under a name, if there is one.
    fn text_of(&self, name: &str) -> Option<&'a str>
        ensures { IfSome result (λ text. Contains {X = List ℕ × List ℕ} (map (λ f. (f.0.now, f.1.now)) self.now.files.now) (name.now, text.now)) }
    {
        for (held, text) in self.files {
            if *held == name {
                return Some(*text);
            }
        }
        None
    }
}

impl Loader for Shelf<'_> {
    ghost use Rattle.std.specs.Prelude.{List, ℕ, map};
    ghost use Rattle.std.specs.List.{Contains};

    // the file is on the shelf
    ghost has = { λ s n b. Contains {X = List ℕ × List ℕ} (map (λ f. (f.0.now, f.1.now)) s.files.now) (n, b) };

    ghost failed = { λ s. s.failures };

    fn load_into<S: Sink>(
        &mut self,
        _alloc: Global,
        name: &str,
        limit: u64,
        sink: &mut S,
    ) -> Result<(), LoadFault> {
        self.calls = self.calls.saturating_add(1);
        match self.text_of(name) {
            Some(text) if self.calls != self.fails_at => hand_over(text.as_bytes(), limit, sink),
            Some(text) => {
                self.failures = self.failures.saturating_add(1);
                Err(break_off(text.as_bytes(), sink))
            }
            None => {
                self.failures = self.failures.saturating_add(1);
                Err(LoadFault::Device)
            }
        }
    }

    fn failures(&self) -> u64 {
        self.failures
    }
}

/// Hands bytes to a sink in two pieces, of which the first is the shorter.
fn take_in_two<S: Sink>(bytes: &[u8], sink: &mut S) -> Result<(), AllocError>
    ensures { (start : S) (text : List ℕ) → S.has_taken start sink.old text → OnOk result (S.has_taken start sink.new (text ++ bytes.now)) }
{
    let (first, rest) = bytes.split_at(bytes.len() / 3);
    sink.take(first)?;
    sink.take(rest)
}

/// Hands bytes to a sink in two pieces, if there are at most `limit`.
fn hand_over<S: Sink>(bytes: &[u8], limit: u64, sink: &mut S) -> Result<(), LoadFault>
    ensures gives { OnOk result ((length bytes.now ≤ limit) × ((start : S) (text : List ℕ) → S.has_taken start sink.old text → S.has_taken start sink.new (text ++ bytes.now))) }
    ensures fails { IfErr result (λ e. e ≢ LoadFault.Device) }
    ensures too_long { IfErr result (λ e. e ≡ LoadFault.TooLong → limit < length bytes.now) }
{
    if bytes.len() as u64 > limit {
        return Err(LoadFault::TooLong);
    }
    match take_in_two(bytes, sink) {
        Ok(()) => Ok(()),
        Err(_) => Err(LoadFault::Memory),
    }
}

/// Hands the first half of bytes to a sink, and returns how that ends.
fn break_off<S: Sink>(bytes: &[u8], sink: &mut S) -> LoadFault
    ensures { result ≢ LoadFault.TooLong }
{
    match sink.take(&bytes[..bytes.len() / 2]) {
        Ok(()) => LoadFault::Device,
        Err(_) => LoadFault::Memory,
    }
}

/// Files at hand, and under one name any text of this length.
#[derive(Drop)]
struct LongShelf<'a> {
    shelf: Shelf<'a>,
    name: &'a str,
    length: u64,
}

impl Loader for LongShelf<'_> {
    ghost use Rattle.std.specs.Prelude.{◌≡◌, ◌⊎◌, List, ℕ, map, length};
    ghost use Rattle.std.specs.List.{Contains};

    ghost has = { λ s n b. Contains {X = List ℕ × List ℕ} (map (λ f. (f.0.now, f.1.now)) s.shelf.files.now) (n, b) ⊎ (length b ≡ s.length) };

    ghost failed = { λ s. s.shelf.failures };

    fn load_into<S: Sink>(
        &mut self,
        alloc: Global,
        name: &str,
        limit: u64,
        sink: &mut S,
    ) -> Result<(), LoadFault> {
        if name == self.name && self.length > limit {
            return Err(LoadFault::TooLong);
        }
        self.shelf.load_into(alloc, name, limit, sink)
    }

    fn failures(&self) -> u64 {
        self.shelf.failures
    }
}

/// Two writers that hold nothing yet.
fn streams(alloc: Global) -> Streams<Vec<u8>, Vec<u8>> {
    Streams {
        out: Vec::new(alloc),
        err: Vec::new(alloc),
    }
}

/// Whether a run over this loader ends with this status, prints just this text, and says just this beside it.
fn prints<L: Loader>(
    alloc: Global,
    loader: &mut L,
    words: &[&str],
    status: Status,
    text: &str,
    said: &str,
) -> bool {
    let mut to = streams(alloc);
    run(alloc, words, loader, &mut to) == status
        && to.out.as_slice() == text.as_bytes()
        && to.err.as_slice() == said.as_bytes()
}

const THREE: &str = "role,name,file\ncopper,top,top.gbr\ncopper,bot,bot.gbr\nplated,pth,pth.drl\n";

/// A layer that is refused, as it has no format.
const BARE: &str = "M02*\n";
