//! Laws of layers, and of what a reader in pieces answers. A call of one does nothing; its clauses are what is proved.

ghost use Rattle.std.specs.Prelude.{◌≡◌, ◌++◌, ℕ, List, Err};
ghost use Rattle.grid_units.specs.declared.profile.Profile.{Profile};
ghost use Rattle.gerber_commands.specs.declared.command.Command.{Command};
ghost use Rattle.gerber_commands.specs.declared.command.Command.TheVariants.{Clear, Dark};
ghost use Rattle.layer_state.specs.Rules.{broken_rule_in};
ghost use Rattle.grid_units.specs.declared.fault.Fault.{Fault};
ghost use Rattle.layer_image.specs.Layers.{EachTextAnswersIn, EqualCommands, LayerReasonsIn, LayerTexts, LayersOfTextsIn, ReadingIsUniqueIn, ReadsLayerIn, StrictLayers};
ghost use Rattle.layer_image.specs.Holding.{ShowsLayerFaultIn};
ghost use Rattle.layer_image.specs.PadLaws.{FlashesAreCopies, LayerPads, LegalPads, PadsAreFlashed, PadsAreUnique};

/// Texts that spell equal commands have equal flashes, pads, number of other flashes and file function.
pub fn equal_commands()
    ensures { EqualCommands }
{}

/// The pads among the flashes of a list that is legal in a profile, and of a layer, are the pads that its commands make. Commands make at
/// most one list of pads, and just the pads that some command makes are in it.
pub fn flashed_pads()
    ensures legal { LegalPads }
    ensures layer { LayerPads }
    ensures unique { PadsAreUnique }
    ensures each { PadsAreFlashed }
{}

/// Each command of a list that is legal in a profile adds a flash for each copy that it makes.
pub fn copied_flashes()
    ensures { FlashesAreCopies }
{}

/// Clear polarity is judged as dark polarity is, after any commands: in a region it is InRegion, else it breaks no rule.
pub fn clear_polarity()
    ensures { (profile : Profile) (before : List Command) → broken_rule_in profile before Clear ≡ broken_rule_in profile before Dark }
{}

/// In each profile a text is a layer's text of some commands just where reading it gives these and they are legal; it reads as one layer,
/// just where reading it gives legal commands, those of the layer, or has one fault, which has the reason of a rule or is that of the text. A fault that it shows is shown by each longer text too, and is the one that both
/// have.
pub fn readings_in_profiles()
    ensures unique { ReadingIsUniqueIn }
    ensures each { EachTextAnswersIn }
    ensures texts { LayerTexts }
    ensures reads { LayersOfTextsIn }
    ensures reasons { LayerReasonsIn }
    ensures stays { (profile : Profile) (text more : List ℕ) (f : Fault) → ShowsLayerFaultIn profile text f → ShowsLayerFaultIn profile (text ++ more) f }
    ensures read { (profile : Profile) (text : List ℕ) (f : Fault) → ShowsLayerFaultIn profile text f → ReadsLayerIn profile text (Err f) }
    ensures joined { (profile : Profile) (text more : List ℕ) (f : Fault) → ShowsLayerFaultIn profile text f → ReadsLayerIn profile (text ++ more) (Err f) }
{}

/// A text of the strict profile reads as the same layer in the wide one, and nothing of it is drawn in clear polarity: what [`crate::view_in`] gives of its flashes and contours are its flashes in the
/// strict profile, the pads among them are those of the layer, and all that it draws stands.
pub fn strict_layers()
    ensures { StrictLayers }
{}
