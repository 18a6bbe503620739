//! Laws of proposals. Calling a law does nothing but give its clause.

ghost use Rattle.std.specs.Prelude.{◌≡◌, ◌||◌, ◌&&◌, true, false, ℕ, List, Ok, Some, map, nat_le, nat_lt};
ghost use Rattle.std.specs.List.{count_by, filter, list_all, list_any};
ghost use Rattle.manifest.specs.Contents.{function_of, kind_of};
ghost use Rattle.manifest.specs.declared.contents.FileKind.TheVariants.{Gerber, Drill};
ghost use Rattle.manifest.specs.Manifest.{manifest_in};
ghost use Rattle.grid_units.specs.declared.profile.Profile.{Profile as Profiles};
ghost use Rattle.grid_units.specs.declared.profile.Profile.TheVariants.{Strict, Wide};
ghost use Rattle.drill_lines.specs.declared.command.DrillCommand.{DrillCommand};
ghost use Rattle.drill_text.specs.Profiles.{ReadsBy, mixed_in};
ghost use Rattle.manifest.specs.Decisions.{by_file_function, layers_of_function};
ghost use Rattle.manifest.specs.MixedFiles.{decision_in, is_mixed_role};
ghost use Rattle.manifest.specs.Omission.{names_no_copper};
ghost use Rattle.manifest.specs.Manifests.{IsManifestOrder, because_text, is_copper, is_listed, manifest_text, named_function, layers_of_role, is_listed_role};
ghost use Rattle.manifest.specs.Places.{place_checked};
ghost use Rattle.manifest.specs.ProposalList.{proposals};
ghost use Rattle.manifest.specs.ReadBack.{AreDecided, entry_in};
ghost use Rattle.manifest.specs.Stack.{AreLayersInOrder, are_within_count, names_layers, layers_checked};
ghost use Rattle.manifest.specs.declared.model.ProposalReason.{ProposalReason as Reasons};
ghost use Rattle.manifest.specs.declared.model.LayerRange.{LayerRange as Spans};
ghost use Rattle.manifest.specs.declared.model.InputFile.{InputFile as Files};
ghost use Rattle.manifest.specs.declared.model.Proposal.{Proposal as Proposals};

/// A drill file with a hole stands in the manifest. So does a Gerber file, unless its function is that of a layer without
/// copper, or it has none and its name is that of one. A file that stands by itself stands among others, whatever their places
/// and layers.
pub fn keeps_copper_and_holes()
    ensures drill { (profile : Profiles) (name text : List ℕ) → kind_of text ≡ Drill → is_listed_role (decision_in profile name text).0 ≡ true }
    ensures gerber { (profile : Profiles) (name text : List ℕ) → kind_of text ≡ Gerber → (is_listed_role (decision_in profile name text).0 || names_no_copper name text) ≡ true }
    ensures others { (files : List Proposals) (file : Proposals) → is_listed_role file.role ≡ true → is_listed_role (layers_checked files file).role ≡ true }
    ensures places { (files : List Proposals) (file : Proposals) → is_listed_role file.role ≡ true → is_listed_role (place_checked files file).role ≡ true }
{}

/// The layers that a manifest gives a drill file are those that its file function names. Where a manifest gives some, its
/// copper files are the layers 1, 2 and so on, and the drill file's layers are among them.
pub fn layers_match_function()
    ensures own { (profile : Profiles) (name text : List ℕ) (span : Spans) → layers_of_role (decision_in profile name text).0 ≡ Some span → by_file_function layers_of_function (function_of text) ≡ Some span }
    ensures among { (profile : Profiles) (files : List Files) (entries : List Proposals) → IsManifestOrder (filter is_listed (proposals profile files)) entries
        → list_all (λ p. are_within_count (count_by is_copper entries) (layers_of_role p.role)) entries ≡ true }
    ensures placed { (profile : Profiles) (files : List Files) (entries : List Proposals) → IsManifestOrder (filter is_listed (proposals profile files)) entries → list_any names_layers entries ≡ true
        → AreLayersInOrder entries }
{}

/// A drill file is proposed as mixed in the wide profile alone, and only where this reads it as a mixed file: a check in this profile does
/// not refuse it for what it says of its holes.
pub fn mixed_files_are_read()
    ensures strict { (name text : List ℕ) → is_mixed_role (decision_in Strict name text).0 ≡ false }
    ensures wide { (name text : List ℕ) → is_mixed_role (decision_in Wide name text).0 ≡ true → (commands : List DrillCommand) × ReadsBy (mixed_in Wide) text (Ok commands) }
{}

/// A reason is printable ASCII, whatever bytes the file has.
pub fn prints_ascii()
    ensures { (why : Reasons) → list_all (λ b. nat_lt b 256) (named_function why) ≡ true → list_all (λ b. nat_le 32 b && nat_le b 126) (because_text why) ≡ true }
{}

/// The manifest of proposals, where nothing is left to decide, is read as just the files that stand in it, in its order.
pub fn reads_back()
    ensures { (profile : Profiles) (files : List Files) (entries : List Proposals) → IsManifestOrder (filter is_listed (proposals profile files)) entries → AreDecided profile entries
        → manifest_in profile (manifest_text entries) ≡ Ok (map (entry_in entries) entries) }
{}
