//! The copper layers that the holes of a drill file go through.

ghost use Rattle.std.specs.Prelude.{◌≡◌, ◌↔◌, IsSome, IfSome};
ghost use Rattle.grid_units.specs.Spans.{IsSpan, is_in_span};

use std::marker::Model;

/// A run of layers: the numbers of its first and its last, both included. Layers are numbered from 1.
#[derive(Clone, Copy, Debug, PartialEq, Eq)]
pub struct Span {
    first: u32,
    last: u32,
}

impl Model for Span {
    ghost use Rattle.grid_units.specs.Spans.{LayerSpan, IsSpan};

    ghost Value = { LayerSpan };

    ghost view = { λ s. record { first = s.first; last = s.last } };

    ghost invariant = { λ s. IsSpan s.first s.last };

    ghost inverse = { λ s. record { first = s.first; last = s.last } };
}

impl Span {
    /// The layers from this number to that one, both included, or `None` where the first is 0 or above the last.
    pub fn new(first: u32, last: u32) -> Option<Span>
        ensures valid { IsSome result ↔ IsSpan first last }
        ensures value { IfSome result (λ s. s ≡ record { first = first; last = last }) }
    {
        if 1 <= first && first <= last {
            Some(Span { first, last })
        } else {
            None
        }
    }

    /// The number of the first layer.
    pub fn first(&self) -> u32
        ensures value { result ≡ self.now.first }
        ensures in_range { IsSpan result self.now.last }
    {
        self.first
    }

    /// The number of the last layer.
    pub fn last(&self) -> u32
        ensures value { result ≡ self.now.last }
        ensures in_range { IsSpan self.now.first result }
    {
        self.last
    }
}

/// Whether the layer at this place, from 0, lies in a span. Without a span every layer does.
pub fn is_in_span(layer: usize, span: Option<Span>) -> bool
    ensures { result ≡ is_in_span layer span }
{
    match span {
        Some(span) => span.first() as usize - 1 <= layer && layer < span.last() as usize,
        None => true,
    }
}
