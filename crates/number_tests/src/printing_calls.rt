//! Printed lengths and lines.

ghost use Rattle.std.specs.Prelude.{◌++◌, ◌∷◌, []};

use grid_units::*;
use std::alloc::AllocError;
use std::fmt;
use std::fmt::{Formatter, Write};
use std::test::Fail;

/// Lengths in pm, and how they are printed: without zeros at their end.
const SHORT: [(i64, &str); 8] = [
    (300_000_000, "0.3"),
    (143_745_000_000, "143.745"),
    (-99_547_000_000, "-99.547"),
    (374_134, "0.000374134"),
    (-10_000, "-0.00001"),
    (0, "0"),
    (10_000_000_000, "10"),
    (-101_600_000, "-0.1016"),
];

/// Whether a length in pm is printed as this text, in short millimetres.
fn is_short(rt: HostRuntime, length: i64, text: &str) -> Result<bool, AllocError> {
    let written = format!(in rt.alloc(); "{}", ShortMillimetres(length))?;
    Ok(written.as_str() == text)
}

#[test]
fn short_lengths_have_no_zeros_at_their_end(rt: HostRuntime) -> Result<(), Fail> {
    for &(length, text) in &SHORT {
        assert!(rt; is_short(rt, length, text)?, "of {text}");
    }
    Ok(())
}

#[test]
fn lengths_have_nine_decimals(rt: HostRuntime) -> Result<(), Fail> {
    let (first, second) = (Millimetres(-50_000_000), Millimetres(99_394_596));
    let written = format!(in rt.alloc(); "{first} {second}")?;
    assert_eq!(rt; written.as_str(), "-0.050000000 0.099394596");
    Ok(())
}

/// A line of one word, after the mark of its page.
#[derive(Drop)]
struct Word(&'static str);

impl Line<&'static str> for Word {
    ghost text = { λ mark word. mark.now ++ word.0.now ++ 10 ∷ [] };

    fn fmt_on<W: fmt::Write>(&self, mark: &&'static str, f: &mut Formatter<W>) -> fmt::Result {
        write!(f, "{mark}{}\n", self.0)
    }
}

const WORDS: [Word; 3] = [Word("ring"), Word("gap"), Word("hole")];

/// Three lines of a page.
fn three_lines() -> Lines<'static, &'static str, Word> {
    Lines {
        page: &"- ",
        lines: &WORDS,
    }
}

#[test]
fn lines_stand_below_each_other(rt: HostRuntime) -> Result<(), Fail> {
    let written = format!(in rt.alloc(); "{}", three_lines())?;
    assert_eq!(rt; written.as_str(), "- ring\n- gap\n- hole\n");
    Ok(())
}

/// A writer that fails at one call, and takes what comes before and after it.
#[derive(Drop)]
struct Failing {
    calls: usize,
    fails_at: usize,
}

impl Write for Failing {
    fn write_str(&mut self, _text: &str) -> fmt::Result {
        self.calls = self.calls.saturating_add(1);
        if self.calls == self.fails_at {
            return Err(fmt::Error);
        }
        Ok(())
    }
}

/// How often a writer is called that fails at one call of them. `None` where that is not said.
fn calls_until(fails_at: usize) -> Option<usize> {
    let mut out = Failing { calls: 0, fails_at };
    let is_cut = write!(out, "{}", three_lines()).is_err();
    is_cut.then_some(out.calls)
}

#[test]
fn no_line_comes_after_a_write_that_fails(rt: HostRuntime) {
    for fails_at in 1..=9 {
        assert_eq!(rt; calls_until(fails_at), Some(fails_at));
    }
    assert_eq!(rt; calls_until(10), None);
}
