//! Laws of manifests. Calling a law does nothing but give its clause.

ghost use Rattle.std.specs.Prelude.{◌≡◌, true, ℕ, List, Ok, Err};
ghost use Rattle.grid_units.specs.declared.fault.Fault.{Fault};
ghost use Rattle.grid_units.specs.declared.profile.Profile.{Profile};
ghost use Rattle.grid_units.specs.declared.profile.Profile.TheVariants.{Wide};
ghost use Rattle.manifest.specs.Manifest.{is_manifest_reason, manifest, manifest_in};
ghost use Rattle.manifest.specs.declared.Entry.{Entry};

/// In each profile a manifest is refused only for one of its seven reasons.
pub fn manifest_reasons()
    ensures { (profile : Profile) (text : List ℕ) (f : Fault) → manifest_in profile text ≡ Err f → is_manifest_reason f.reason ≡ true }
{}

/// A manifest of the strict profile names the same files in the wide one.
pub fn strict_manifests()
    ensures { (text : List ℕ) (entries : List Entry) → manifest text ≡ Ok entries → manifest_in Wide text ≡ Ok entries }
{}
