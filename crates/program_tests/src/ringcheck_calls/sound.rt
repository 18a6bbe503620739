//! What passes, and what is measured, is sound as it stands.

ghost use Rattle.std.specs.Prelude.{IsTrue, List, None, Ok, Option, Some, [], codes, ℕ, ◌∷◌, ◌≡◌};
ghost use Rattle.std.specs.List.{Contains};
ghost use Rattle.grid_units.specs.Holes.{GridRules};
ghost use Rattle.grid_units.specs.declared.profile.Profile.TheVariants.{Strict};
ghost use Rattle.manifest.specs.Manifest.{manifest_in};
ghost use Rattle.manifest.specs.declared.Entry.{Entry as TheEntry};
ghost use Rattle.package_check.specs.Measures.{PackagePasses};
ghost use Rattle.report.specs.declared.Measure.{Measure};
ghost use Rattle.package_check.specs.Soundness.{IsSound};
ghost use Rattle.print_text.specs.Drilling.{DrillBounds};
ghost use Rattle.ringcheck.specs.ParsedWords.{parse_check, parse_measure, parse_report};
ghost use Rattle.ringcheck.specs.CheckStatus.{HasFiles, sources};
ghost use Rattle.ringcheck.specs.declared.parsed_words.MeasureOrder.{MeasureOrder as TheOrder};
ghost use Rattle.ringcheck.specs.declared.parsed_words.ReportFormat.{ReportFormat as TheFormat};

use super::*;

/// Whether a package of three files at hand passes. Then the files that its manifest names, as they stand, are sound.
fn is_passed<'x>(alloc: Global, records: &'x str, layer: &'x str, drill: &'x str) -> bool
    ensures { IsTrue result → (rules : GridRules) × (parse_check None (codes "0.125") (codes "0.25") ≡ Ok rules) × (entries : List TheEntry) × (manifest_in rules.profile records.now ≡ Ok entries)
        × (files : List (List ℕ)) × HasFiles (λ n b. Contains {X = List ℕ × List ℕ} ((codes "m.csv", records.now) ∷ (codes "top.gbr", layer.now) ∷ (codes "pth.drl", drill.now) ∷ []) (n, b)) entries files
        × IsSound (sources rules.profile entries files) rules }
{
    let files = [("m.csv", records), ("top.gbr", layer), ("pth.drl", drill)];
    let mut to = streams(alloc);
    run(alloc, &WORDS, &mut Shelf::new(&files), &mut to) == Status::Pass
}

#[test]
fn what_passes_is_sound_as_it_lies_there(rt: HostRuntime) {
    assert!(rt; is_passed(rt.alloc(), MANIFEST, LAYER, DRILL));
    assert!(rt; !is_passed(rt.alloc(), MANIFEST, MOVED, DRILL));
}

const WIDE_WORDS: [&str; 8] = [
    "check",
    "--ring",
    "0.125",
    "--gap",
    "0.25",
    "--profile",
    "wide",
    "m.csv",
];

/// The layer with the disc flashed by a macro.
const MACRO_LAYER: &str =
    "%FSLAX46Y46*%\n%MOMM*%\n%AMDisc*1,1,$1,0,0*%\n%ADD10Disc,0.65*%\nD10*\nX0Y0D03*\nM02*\n";

/// Whether a package of three files at hand passes in the wide profile. Then the files that its manifest names, as they stand, are sound
/// as the wide profile reads them.
fn is_passed_wide<'x>(alloc: Global, records: &'x str, layer: &'x str, drill: &'x str) -> bool
    ensures { IsTrue result → (rules : GridRules) × (parse_check (Some (codes "wide")) (codes "0.125") (codes "0.25") ≡ Ok rules) × (entries : List TheEntry) × (manifest_in rules.profile records.now ≡ Ok entries)
        × (files : List (List ℕ)) × HasFiles (λ n b. Contains {X = List ℕ × List ℕ} ((codes "m.csv", records.now) ∷ (codes "top.gbr", layer.now) ∷ (codes "pth.drl", drill.now) ∷ []) (n, b)) entries files
        × IsSound (sources rules.profile entries files) rules }
{
    let files = [("m.csv", records), ("top.gbr", layer), ("pth.drl", drill)];
    let mut to = streams(alloc);
    run(alloc, &WIDE_WORDS, &mut Shelf::new(&files), &mut to) == Status::Pass
}

/// Layers, and whether the package with each of them passes in the wide profile, and in the strict one.
const LAYERS: [(&str, bool, bool); 3] = [
    (LAYER, true, true),
    (MACRO_LAYER, true, false),
    (MOVED, false, false),
];

#[test]
fn what_passes_in_a_profile_is_sound_in_it(rt: HostRuntime) {
    for &(layer, in_wide, in_strict) in &LAYERS {
        let wide = is_passed_wide(rt.alloc(), MANIFEST, layer, DRILL);
        let strict = is_passed(rt.alloc(), MANIFEST, layer, DRILL);
        assert!(rt; wide == in_wide && strict == in_strict, "{layer}");
    }
}

/// Whether a package of three files at hand is measured. Then the files that its manifest names, as they stand, pass under
/// exactly the rules of a measure.
fn is_measured<'x>(alloc: Global, records: &'x str, layer: &'x str, drill: &'x str) -> bool
    ensures { IsTrue result → (order : TheOrder) × (parse_measure None None ≡ Ok order) × (entries : List TheEntry) × (manifest_in order.profile records.now ≡ Ok entries) × (files : List (List ℕ))
        × HasFiles (λ n b. Contains {X = List ℕ × List ℕ} ((codes "m.csv", records.now) ∷ (codes "top.gbr", layer.now) ∷ (codes "pth.drl", drill.now) ∷ []) (n, b)) entries files
        × (measure : Measure) × PackagePasses order.profile (sources order.profile entries files) measure.meets.ring measure.meets.gap }
{
    let files = [("m.csv", records), ("top.gbr", layer), ("pth.drl", drill)];
    let mut to = streams(alloc);
    run(alloc, &MEASURE, &mut Shelf::new(&files), &mut to) == Status::Pass
}

#[test]
fn what_is_measured_passes_under_just_its_rules(rt: HostRuntime) {
    assert!(rt; is_measured(rt.alloc(), MANIFEST, LAYER, DRILL));
    assert!(rt; is_measured(rt.alloc(), MANIFEST, MOVED, DRILL));
    assert!(rt; !is_measured(rt.alloc(), MANIFEST, BARE, DRILL));
}

/// Whether a report finds nothing on a package of three files at hand. Then the files that its manifest names are sound as they stand.
fn is_told_sound<'x>(alloc: Global, records: &'x str, layer: &'x str, drill: &'x str) -> bool
    ensures { IsTrue result → (asked : GridRules × Option DrillBounds × Option ℕ × TheFormat) × (parse_report None (codes "0.125") (codes "0.25") None None None None None None ≡ Ok asked) × (entries : List TheEntry) × (manifest_in asked.0.profile records.now ≡ Ok entries) × (files : List (List ℕ))
        × HasFiles (λ n b. Contains {X = List ℕ × List ℕ} ((codes "m.csv", records.now) ∷ (codes "top.gbr", layer.now) ∷ (codes "pth.drl", drill.now) ∷ []) (n, b)) entries files
        × IsSound (sources asked.0.profile entries files) asked.0 }
{
    let files = [("m.csv", records), ("top.gbr", layer), ("pth.drl", drill)];
    let mut to = streams(alloc);
    run(alloc, &REPORT_WORDS, &mut Shelf::new(&files), &mut to) == Status::Pass
}

#[test]
fn what_a_report_passes_is_sound(rt: HostRuntime) {
    assert!(rt; is_told_sound(rt.alloc(), MANIFEST, LAYER, DRILL));
    assert!(rt; !is_told_sound(rt.alloc(), MANIFEST, MOVED, DRILL));
    assert!(rt; !is_told_sound(rt.alloc(), MANIFEST, BARE, DRILL));
}
