//! Laws of what the rules find. A call of one does nothing; its clauses are what is proved.

ghost use Rattle.ring_rules.specs.Cores.{ClearHolesAreApart};
ghost use Rattle.ring_rules.specs.WithoutFindings.{RingsHoldWithoutFindings, SlotsHoldWithoutFindings, HolesHoldWithoutFindings, StraightWithoutFindings, FindsOblique, FindsNoObliqueInWide, WideFindsNoMore, JudgesByCoverings, ApartWithoutFindings, RingsNamePlaces, GapsNamePlaces};

use pad_shapes::{PadShape, SlotShape};

/// No points of two clear holes are nearer than the gap.
pub fn clear_holes_are_apart()
    ensures { ClearHolesAreApart }
{}

/// Where no hole lacks its ring, one pad holds each plated round hole, on each layer of its span, with the ring round
/// it. So it is with each plated slot along an axis, in every profile. In the strict profile no plated slot is oblique.
pub fn rings_hold<S: PadShape>()
    ensures rounds { RingsHoldWithoutFindings S.points S.covers }
    ensures slots { SlotsHoldWithoutFindings S.points S.covers }
    ensures straight { StraightWithoutFindings S.covers }
{}

/// Where no hole lacks its ring, one pad holds each plated hole, on each layer of its span, with the ring round it: in
/// every profile, and a slot at whatever angle.
pub fn holes_hold<S: SlotShape>()
    ensures { HolesHoldWithoutFindings S.points S.covers }
{}

/// In the strict profile a plated oblique slot is a finding of its own kind on each layer of its span.
pub fn oblique_slots_are_found<S: PadShape>()
    ensures { FindsOblique S.covers }
{}

/// In the wide profile no finding is `Oblique`, and what lacks its ring there does so in the strict profile too, among the
/// same pads or fewer.
pub fn wide_finds_no_more<S: PadShape, W: PadShape>()
    ensures oblique { FindsNoObliqueInWide W.covers }
    ensures fewer { WideFindsNoMore S.covers W.covers }
{}

/// What is found depends on what the pads cover alone, and not on their type.
pub fn pads_count_by_coverings<S: PadShape>()
    ensures { JudgesByCoverings S.covers }
{}

/// Where no gap is a finding, the holes at any two places of the list are clear, hence apart.
pub fn gaps_hold()
    ensures { ApartWithoutFindings }
{}

/// Each finding names a layer and a hole of the lists, or two holes of the list in their order.
pub fn findings_name_places<S: PadShape>()
    ensures rings { RingsNamePlaces S.covers }
    ensures gaps { GapsNamePlaces }
{}
