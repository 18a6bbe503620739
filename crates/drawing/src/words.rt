//! The words of a page. Lengths are in pm, from the left and the top of the page, and are printed in millimetres.

ghost use Rattle.std.specs.Prelude.{◌≡◌, ◌<◌, ◌^◌, Some, pos};
ghost use Rattle.std.specs.Fmt.{DisplaysOnOk};
ghost use Rattle.drawing.specs.Pages.{bar_at, found_words, legend_words, length_words, profile_words, rules_words, sizes_words, style_words, text_start, view_words};

use grid_units::{Profile, ShortMillimetres};
use std::fmt;
use std::fmt::Formatter;

/// A length, as it is printed.
fn millimetres(length: u64) -> ShortMillimetres
    requires { length < 2 ^ 63 }
    ensures { result.0 ≡ pos length }
{
    ShortMillimetres(length as i64)
}

/// The style sheet and the white ground.
#[tactic(auto, unfolding(crate::specs::Pages::style_words))]
pub(crate) fn style() -> &'static str
    ensures { result.now ≡ style_words }
{
    "<style>text{fill:#222;font-size:1.25px}.title{font-size:1.75px;font-weight:bold}.name{font-size:1.5px;font-weight:bold}.board{fill:#fbfaf6;stroke:#999;stroke-width:.08em}.pad{fill:#d8a35d}.line{fill:none;stroke:#d8a35d;stroke-linecap:round}.other{fill:none;stroke:#6a6a6a}.plated,.unplated{fill:#fff;stroke:#333}.unplated{stroke-dasharray:.24em}.rim{fill:none;stroke:#333;stroke-linecap:round}.slot{fill:none;stroke:#fff;stroke-linecap:round}circle.ring{fill:#d4001a;fill-opacity:.35;stroke:#d4001a}path.ring{fill:none;stroke:#d4001a;stroke-opacity:.35;stroke-linecap:round}.mark{fill:none;stroke:#d4001a}.gap{fill:none;stroke:#7a00c8;stroke-linecap:round}.number{fill:#d4001a;font-weight:bold;stroke:#fff;stroke-width:.24em;paint-order:stroke}.scale{fill:none;stroke:#222;stroke-width:.16em}</style>\n<rect width=\"100%\" height=\"100%\" fill=\"#fff\"/>\n"
}

/// Writes the size of the letters, and the size of the page in pixels.
#[tactic(auto, unfolding(crate::specs::Pages::sizes_words))]
pub(crate) fn write_sizes<W: fmt::Write>(
    f: &mut Formatter<W>,
    size: u64,
    width: u128,
    height: u128,
) -> fmt::Result
    requires { size < 2 ^ 63 }
    ensures { DisplaysOnOk W.write_str_gives f.old result (Some (sizes_words size width height)) f.new }
{
    let size = millimetres(size);
    write!(
        f,
        " font-size=\"{size}\" width=\"{width}\" height=\"{height}"
    )
}

/// Writes the size of the page in millimetres.
#[tactic(auto, unfolding(crate::specs::Pages::view_words))]
pub(crate) fn write_view<W: fmt::Write>(
    f: &mut Formatter<W>,
    width: u64,
    height: u64,
) -> fmt::Result
    requires wide { width < 2 ^ 63 }
    requires high { height < 2 ^ 63 }
    ensures { DisplaysOnOk W.write_str_gives f.old result (Some (view_words width height)) f.new }
{
    let (width, height) = (millimetres(width), millimetres(height));
    write!(f, "\" viewBox=\"0 0 {width} {height}\">\n")
}

/// Writes the number of findings: `PASS`, `1 finding` or `6 findings`.
pub(crate) fn write_found<W: fmt::Write>(f: &mut Formatter<W>, count: usize) -> fmt::Result
    ensures { DisplaysOnOk W.write_str_gives f.old result (Some (found_words count)) f.new }
{
    if count == 0 {
        f.write_str("PASS")
    } else if count == 1 {
        f.write_str("1 finding")
    } else {
        write!(f, "{count} findings")
    }
}

/// The profile of the findings, after the rules.
fn profile_words(profile: Profile) -> &'static str
    ensures { result.now ≡ profile_words profile }
{
    match profile {
        Profile::Strict => " mm, profile strict: ",
        Profile::Wide => " mm, profile wide: ",
    }
}

/// Writes the rules and the profile: `ring 0.15 mm, gap 0.25 mm, profile strict: `.
#[tactic(auto, unfolding(crate::specs::Pages::rules_words))]
pub(crate) fn write_rules<W: fmt::Write>(
    f: &mut Formatter<W>,
    ring: u64,
    gap: u64,
    profile: Profile,
) -> fmt::Result
    requires ring { ring < 2 ^ 63 }
    requires gap { gap < 2 ^ 63 }
    ensures { DisplaysOnOk W.write_str_gives f.old result (Some (rules_words ring gap profile)) f.new }
{
    let (ring, gap) = (millimetres(ring), millimetres(gap));
    write!(f, "ring {ring} mm, gap {gap}{}", profile_words(profile))
}

/// Writes the start of a text: its first words, its place, and the unit that scales its letters.
#[tactic(auto, unfolding(crate::specs::Pages::text_start))]
pub(crate) fn write_text_start<W: fmt::Write>(
    f: &mut Formatter<W>,
    words: &str,
    x: u64,
    y: u64,
    unit: u64,
) -> fmt::Result
    requires x { x < 2 ^ 63 }
    requires y { y < 2 ^ 63 }
    requires unit { unit < 2 ^ 63 }
    ensures { DisplaysOnOk W.write_str_gives f.old result (Some (text_start words.now x y unit)) f.new }
{
    let (x, y, unit) = (millimetres(x), millimetres(y), millimetres(unit));
    write!(f, "{words}{x} {y}) scale({unit})\">")
}

/// Writes the bar of the scale.
#[tactic(auto, unfolding(crate::specs::Pages::bar_at))]
pub(crate) fn write_bar<W: fmt::Write>(
    f: &mut Formatter<W>,
    x: u64,
    y: u64,
    bar: u64,
) -> fmt::Result
    requires x { x < 2 ^ 63 }
    requires y { y < 2 ^ 63 }
    requires bar { bar < 2 ^ 63 }
    ensures { DisplaysOnOk W.write_str_gives f.old result (Some (bar_at x y bar)) f.new }
{
    let (x, y, bar) = (millimetres(x), millimetres(y), millimetres(bar));
    write!(f, "<path class=\"scale\" d=\"M{x} {y}h{bar}\"/>\n")
}

/// Writes the length of the bar, and the end of its text.
pub(crate) fn write_length<W: fmt::Write>(f: &mut Formatter<W>, bar: u64) -> fmt::Result
    requires { bar < 2 ^ 63 }
    ensures { DisplaysOnOk W.write_str_gives f.old result (Some (length_words bar)) f.new }
{
    write!(f, "{} mm</text>\n", millimetres(bar))
}

/// The rest of the legend after its start: its samples, and the end of the page.
#[tactic(auto, unfolding(crate::specs::Pages::legend_words))]
pub(crate) fn legend() -> &'static str
    ensures { result.now ≡ legend_words }
{
    "\n<circle class=\"pad\" r=\".6\"/>\n<text x=\"1.2\" y=\".4\">pad</text>\n<path class=\"other\" stroke-width=\".2\" d=\"M-.5 2.5h1M0 2v1\"/>\n<text x=\"1.2\" y=\"2.9\">flash not counted as a pad</text>\n<circle class=\"plated\" cx=\"20\" r=\".5\" stroke-width=\".1\"/>\n<text x=\"21.2\" y=\".4\">plated hole</text>\n<circle class=\"unplated\" cx=\"20\" cy=\"2.5\" r=\".5\" stroke-width=\".1\"/>\n<text x=\"21.2\" y=\"2.9\">unplated hole</text>\n<circle class=\"ring\" cx=\"33\" r=\".6\" stroke-width=\".1\"/>\n<text x=\"34.2\" y=\".4\">ring too small</text>\n<path class=\"gap\" stroke-width=\".3\" d=\"M32.5 2.5h1\"/>\n<text x=\"34.2\" y=\"2.9\">holes too close</text>\n</g>\n</svg>\n"
}
