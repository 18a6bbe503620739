//! Laws of rewritten texts. A call of one does nothing, and gives its clause.

ghost use Rattle.ringcheck_files.specs.Rewriting.{KeepsCommands, RewritingIsUnique, RewritingIsIdempotent};

/// A rewritten text spells the commands of the text that it was rewritten from.
pub fn keeps_commands()
    ensures { KeepsCommands }
{}

/// A rewritten text is rewritten as itself.
pub fn rewriting_is_idempotent()
    ensures { RewritingIsIdempotent }
{}

/// Bytes are rewritten in one way, or have one fault.
pub fn unique_rewriting()
    ensures { RewritingIsUnique }
{
    layer_image::readings_in_profiles();
    drill_text::laws::unique_reading();
    drill_text::laws::drill_texts();
}
