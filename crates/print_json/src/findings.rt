//! The values of findings.

ghost use Rattle.std.specs.Prelude.{◌≡◌, Some};
ghost use Rattle.print_json.specs.Inner.Texts.{ring_rest, more_members};
ghost use Rattle.print_json.specs.Values.{cause_word, gap_value, layer_number, members_of, ring_value, reason_word};

use crate::printed::{Text, Value};
use pad_shapes::Why;
use report::{GapLack, LayerHead, RingCause, RingLack, flash_of, lack_of, ring_of};
use std::fmt;
use std::fmt::{Display, Formatter};

/// The number of a layer's file, by the layer's place among the copper files, if there is such a layer.
fn layer_number(layers: &[LayerHead], layer: usize) -> Option<u128>
    ensures { result ≡ layer_number layers.now layer }
{
    layers.get(layer).map(|head| head.file as u128 + 1)
}

/// The word for the reason why a flash is no pad.
fn reason_word(why: Why) -> &'static str
    ensures { result.now ≡ reason_word why }
{
    match why {
        Why::Macro => "macro",
        Why::Polygon => "polygon",
        Why::Holed => "holed",
        Why::Scaled => "scaled",
        Why::Turned => "turned",
    }
}

/// The word for the reason why a hole lacks its ring.
fn cause_word(cause: &RingCause) -> &'static str
    ensures { result.now ≡ cause_word cause.now }
{
    match cause {
        RingCause::TooSmall(_) => "small",
        RingCause::OffCentre(_) => "off",
        RingCause::Edge(_) => "edge",
        RingCause::Other { why, .. } => reason_word(*why),
        RingCause::Clear { .. } => "clear",
        RingCause::Cleared { .. } => "cleared",
        RingCause::MacroShape => "macro",
        RingCause::DrawnCopper => "drawn",
        RingCause::NoFlash => "none",
        RingCause::Oblique => "oblique",
    }
}

/// The last members of an insufficient ring, from `has_pm` on, with the closing bracket.
#[derive(Clone, Copy)]
struct RingRest<'a> {
    cause: &'a RingCause,
    why: Option<&'a str>,
}

impl Display for RingRest<'_> {
    ghost output = { λ rest. Some (more_members (members_of (ring_rest rest.cause.now rest.why))) };

    #[tactic(auto, unfolding(json::specs::Print::escape_byte))]
    fn fmt<W: fmt::Write>(&self, f: &mut Formatter<W>) -> fmt::Result {
        let (has, lacks) = (ring_of(self.cause), lack_of(self.cause));
        let (cause, flash) = (cause_word(self.cause), flash_of(self.cause));
        let (has, lacks) = (Text(&has), Text(&lacks));
        let (cause, flash, waived) = (Text(&cause), Text(&flash), Text(&self.why));
        write!(
            f,
            r#","has_pm":{has},"lacks_pm":{lacks},"cause":{cause},"flash":{flash},"waived":{waived}}}"#
        )
    }
}

/// An insufficient ring on one of some layers, with the reason why it is accepted:
/// `{"kind":"ring","number":1,"layer":1,"at":{..},"has_pm":124999000,"lacks_pm":1000,"cause":"off","flash":1,"waived":"drawn so"}`.
#[derive(Clone, Copy)]
pub(crate) struct RingJson<'a> {
    /// The number of the finding, from 1.
    pub(crate) number: u128,
    pub(crate) layers: &'a [LayerHead],
    pub(crate) lack: &'a RingLack,
    pub(crate) why: Option<&'a str>,
}

impl Value for RingJson<'_> {
    ghost value = { λ json. ring_value json.layers.now json.number json.lack.now json.why };

    #[tactic(auto, unfolding(crate::specs::Values::ring_value, json::specs::Print::escape_byte))]
    fn write<W: fmt::Write>(&self, f: &mut Formatter<W>) -> fmt::Result {
        let (number, lack, why) = (self.number, self.lack, self.why);
        let (layer, cause) = (layer_number(self.layers, lack.layer), &lack.cause);
        let (layer, at, rest) = (Text(&layer), Text(&lack.at), RingRest { cause, why });
        write!(
            f,
            r#"{{"kind":"ring","number":{number},"layer":{layer},"at":{at}{rest}"#
        )
    }

    #[tactic(auto, unfolding(crate::specs::Values::ring_value))]
    fn numbers(&self) {
        let (layers, lack) = (self.layers, self.lack);
        self.number.numbers();
        layer_number(layers, lack.layer).numbers();
        lack.at.numbers();
        ring_of(&lack.cause).numbers();
        lack_of(&lack.cause).numbers();
        flash_of(&lack.cause).numbers();
    }
}

/// An insufficient gap, with the reason why it is accepted:
/// `{"kind":"gap","number":6,"at":{..},"and":{..},"has_pm":382301708,"lacks_pm":17698292,"waived":null}`.
#[derive(Clone, Copy)]
pub(crate) struct GapJson<'a> {
    /// The number of the finding, from 1.
    pub(crate) number: u128,
    pub(crate) lack: &'a GapLack,
    pub(crate) why: Option<&'a str>,
}

impl Value for GapJson<'_> {
    ghost value = { λ json. gap_value json.number json.lack.now json.why };

    #[tactic(auto, unfolding(crate::specs::Values::gap_value, json::specs::Print::escape_byte))]
    fn write<W: fmt::Write>(&self, f: &mut Formatter<W>) -> fmt::Result {
        let (number, lack) = (self.number, self.lack);
        let (at, and, waived) = (Text(&lack.first), Text(&lack.second), Text(&self.why));
        write!(
            f,
            r#"{{"kind":"gap","number":{number},"at":{at},"and":{and},"has_pm":{},"lacks_pm":{},"waived":{waived}}}"#,
            lack.gap, lack.lack
        )
    }

    #[tactic(auto, unfolding(crate::specs::Values::gap_value))]
    fn numbers(&self) {
        let lack = self.lack;
        self.number.numbers();
        lack.first.numbers();
        lack.second.numbers();
        lack.gap.numbers();
        lack.lack.numbers();
    }
}
