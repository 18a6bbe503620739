//! What holds of all pictures.

ghost use Rattle.std.specs.Prelude.{◌≡◌, ℕ, List, [], map, not};
ghost use Rattle.std.specs.List.{filter};
ghost use Rattle.pad_shapes.specs.Rows.{is_pad_row};
ghost use Rattle.pad_shapes.specs.declared.pad.Pad.{Pad};
ghost use Rattle.pad_shapes.specs.declared.row.FeatureRow.{FeatureRow};
ghost use Rattle.picture.specs.Elements.{pad_paths};
ghost use Rattle.picture.specs.Escapes.{IsEscaped, escaped_name};
ghost use Rattle.picture.specs.RoundedPads.{pads_text};
ghost use Rattle.picture.specs.Scenes.{AreSortedBySize, IsOnePathPerSize, crosses_of, plain_pads, rounded_pads};
ghost use Rattle.pad_shapes.specs.declared.wide_pad.WidePad.TheVariants.{Plain};

/// An escaped name has no `<`, no U+FFFE and no U+FFFF, and `&` only where an entity begins.
pub fn escaped_names()
    ensures { (name : List ℕ) → IsEscaped (escaped_name name) }
{}

/// Of pads in order of kind and size, each kind and size is one path.
pub fn one_path_per_size()
    ensures { (pads : List Pad) → AreSortedBySize pads → IsOnePathPerSize pads }
{}

/// The crosses of a layer stand at its rows that are no pads, in their order.
pub fn crosses_of_rows()
    ensures { (rows : List FeatureRow) → crosses_of rows ≡ map (λ row. row.at) (filter (λ row. not (is_pad_row row.what)) rows) }
{}

/// Of a layer of the strict profile, whose pads are all plain, the plain pads are its pads, none is rounded, and the text of its pads is that of
/// their paths.
pub fn strict_layers()
    ensures pads { (pads : List Pad) → plain_pads (map Plain pads) ≡ pads }
    ensures rounded { (pads : List Pad) → rounded_pads (map Plain pads) ≡ [] }
    ensures text { (pads : List Pad) → pads_text pads [] ≡ pad_paths pads }
{}
