//! The kinds of causes, in the order in which a report counts them.

ghost use Rattle.std.specs.Prelude.{◌≡◌};
ghost use Rattle.print_text.specs.Causes.{flash_kind, hint, in_profile, kind_of, kind_words};

use grid_units::Profile;
use pad_shapes::Why;
use report::RingCause;

/// The kind of a cause, by which a report counts causes.
#[derive(Clone, Copy, PartialEq, Eq)]
pub(crate) enum CauseKind {
    TooSmall,
    OffCentre,
    Edge,
    Macro,
    Polygon,
    Holed,
    Scaled,
    Turned,
    Clear,
    Cleared,
    Drawn,
    Bare,
    Oblique,
}

/// The kinds, in the order in which a report counts them.
pub(crate) const CAUSE_KINDS: [CauseKind; 13] = [
    CauseKind::TooSmall,
    CauseKind::OffCentre,
    CauseKind::Edge,
    CauseKind::Macro,
    CauseKind::Polygon,
    CauseKind::Holed,
    CauseKind::Scaled,
    CauseKind::Turned,
    CauseKind::Clear,
    CauseKind::Cleared,
    CauseKind::Drawn,
    CauseKind::Bare,
    CauseKind::Oblique,
];

/// The kind of a flash that is no pad.
pub(crate) fn flash_kind(why: Why) -> CauseKind
    ensures { result ≡ flash_kind why }
{
    match why {
        Why::Macro => CauseKind::Macro,
        Why::Polygon => CauseKind::Polygon,
        Why::Holed => CauseKind::Holed,
        Why::Scaled => CauseKind::Scaled,
        Why::Turned => CauseKind::Turned,
    }
}

/// The kind of a cause.
pub(crate) fn kind_of(cause: &RingCause) -> CauseKind
    ensures { result ≡ kind_of cause.now }
{
    match cause {
        RingCause::TooSmall(_) => CauseKind::TooSmall,
        RingCause::OffCentre(_) => CauseKind::OffCentre,
        RingCause::Edge(_) => CauseKind::Edge,
        RingCause::Other { why, flash: _ } => flash_kind(*why),
        RingCause::Clear { flash: _ } => CauseKind::Clear,
        RingCause::Cleared { flash: _ } => CauseKind::Cleared,
        RingCause::MacroShape => CauseKind::Macro,
        RingCause::DrawnCopper => CauseKind::Drawn,
        RingCause::NoFlash => CauseKind::Bare,
        RingCause::Oblique => CauseKind::Oblique,
    }
}

/// The words for a kind, as in a line of a hole.
pub(crate) fn kind_words(kind: CauseKind) -> &'static str
    ensures { result.now ≡ kind_words kind }
{
    match kind {
        CauseKind::TooSmall => "pad too small",
        CauseKind::OffCentre => "off centre",
        CauseKind::Edge => "in a rounded pad or contour, too near its edge",
        CauseKind::Macro => "only a macro flash",
        CauseKind::Polygon => "only a polygon flash",
        CauseKind::Holed => "only a flash with a hole",
        CauseKind::Scaled => "only a scaled flash",
        CauseKind::Turned => "only a turned flash",
        CauseKind::Clear => "only a clear flash",
        CauseKind::Cleared => "only a cleared flash",
        CauseKind::Drawn => "only drawn copper",
        CauseKind::Bare => "no pad at the hole",
        CauseKind::Oblique => "oblique slot",
    }
}

/// The words for the kind of a cause: `off centre`.
pub fn words_for_cause(cause: &RingCause) -> &'static str
    ensures { result.now ≡ kind_words (kind_of cause.now) }
{
    kind_words(kind_of(cause))
}

/// One of two texts, by the profile.
fn in_profile(profile: Profile, strict: &'static str, wide: &'static str) -> &'static str
    ensures { result.now ≡ in_profile profile strict.entry.now wide.entry.now }
{
    if profile == Profile::Wide {
        wide
    } else {
        strict
    }
}

/// The hint that a report in a profile prints for a kind.
pub(crate) fn hint(profile: Profile, kind: CauseKind) -> &'static str
    ensures { result.now ≡ hint profile kind }
{
    match kind {
        CauseKind::TooSmall => {
            "the pad's own radius or half side is less than the hole's radius plus the ring"
        }
        CauseKind::OffCentre => {
            "the pad is large enough for a hole at its centre; drill files are rounded: see `ringcheck explain ring`"
        }
        CauseKind::Edge => {
            "move the hole or enlarge the pad: rings in rounded pads and contours are measured to their edge"
        }
        CauseKind::Macro => in_profile(
            profile,
            "--profile wide counts macros whose shape is known, such as rounded rectangles; or choose circle, oval or rectangle: see `ringcheck explain macro`",
            "macros of this form are not judged: choose circle, oval or rectangle: see `ringcheck explain macro`",
        ),
        CauseKind::Polygon => in_profile(
            profile,
            "--profile wide counts the disc inside a polygon of up to twelve sides; or choose circle, oval or rectangle: see `ringcheck explain polygon`",
            "polygons of this form are not judged: choose circle, oval or rectangle: see `ringcheck explain polygon`",
        ),
        CauseKind::Holed => "flashes with a hole are not judged",
        CauseKind::Scaled => "scaled flashes are not judged",
        CauseKind::Turned => in_profile(
            profile,
            "--profile wide counts the disc inside a turned rectangle or oval; or turn the pad by quarter turns: see `ringcheck explain turned`",
            "flashes of this form turned by anything but quarter turns are not judged: see `ringcheck explain turned`",
        ),
        CauseKind::Clear => "a flash in clear polarity takes copper away",
        CauseKind::Cleared => "a flash that clear polarity may remove does not count",
        CauseKind::Drawn => {
            "--profile wide counts convex contours as pads; or flash a pad there: see `ringcheck explain none`"
        }
        CauseKind::Bare => {
            "no pad was flashed here, or it is drawn or of a shape that is not judged, or the drill file has another origin or format: see `ringcheck explain none`"
        }
        CauseKind::Oblique => "plated slots parallel to neither axis are not judged",
    }
}
