// Laws that follow from the definitions alone. A call of one does nothing, and gives its clause.
ghost use Rattle.package_check.specs.AlikePackages.{SameAnswers, AnswerIsUnique, ReadingIsUnique, AnswerExists, ReadingExists};
ghost use Rattle.package_check.specs.BoardReports.{ReportAgreesWithCheck, RowsAreMatched};
ghost use Rattle.package_check.specs.Boards.{FileCountsAddUp, LayersHaveFiles};
ghost use Rattle.package_check.specs.Measures.{MeasuredPasses};
ghost use Rattle.package_check.specs.Package.{FindingsNameTheirPlaces};
ghost use Rattle.package_check.specs.Soundness.{HolesAreSaidOnce, PadsAreSaidOnce, PassingIsSound, SoundIsStraight};
ghost use Rattle.package_check.specs.SoundnessAsRead.{PassingIsSoundAsRead, SoundAsReadIsSound};
ghost use Rattle.package_check.specs.Tolerances.{SoundTolerates};
ghost use Rattle.package_check.specs.WiderProfile.{ReadIsUncontradicted, WideAnswersByBoard, WideFindsNoMore};

use board::laws::{gaps_pass, rings_pass};
use pad_shapes::WidePad;
use ring_rules::laws::{findings_name_places, gaps_hold, holes_hold, rings_hold};

/// A package whose report has no finding is sound by what is read of it.
pub fn passing_is_sound_as_read()
    ensures { PassingIsSoundAsRead }
{
    holes_hold::<WidePad>();
    rings_hold::<WidePad>();
    gaps_hold();
}

/// A package that is sound by what is read of it is sound by what is written, as the grammars of the formats say.
pub fn sound_as_read_is_sound()
    ensures { SoundAsReadIsSound }
{
    gerber_text::exact_texts();
    layer_image::flashed_pads();
    layer_features::wide_pads();
    drill_text::text_grammar();
    drill_text::drilled_holes();
    drill_text::laws::wide_grammar();
    drill_text::laws::wide_holes();
    drill_text::laws::drill_texts();
    drill_text::laws::strict_profile();
    drill_text::laws::mixed_files();
    drill_text::laws::readings_of_kinds();
}

/// A package whose report has no finding is sound.
pub fn passing_is_sound()
    ensures { PassingIsSound }
{
    passing_is_sound_as_read();
    sound_as_read_is_sound();
}

/// What is left of the ring and of the gap of a sound package where its holes are drilled off their places and wider than designed, each
/// within a bound.
pub fn sound_tolerates()
    ensures { SoundTolerates }
{}

/// By the grammars of the formats a copper file says at most one list of pads, and a drill file at most one list of holes.
pub fn files_say_once()
    ensures pads { PadsAreSaidOnce }
    ensures holes { HolesAreSaidOnce }
{
    gerber_text::exact_texts();
    layer_image::flashed_pads();
    layer_features::wide_pads();
    drill_text::text_grammar();
    drill_text::drilled_holes();
    drill_text::laws::mixed_files();
}

/// In the strict profile a sound package with a copper layer has no oblique plated slot.
pub fn sound_is_straight()
    ensures { SoundIsStraight }
{
    files_say_once();
}

/// In the report on a package each finding names a layer and a hole, or two holes, the first before the second.
pub fn findings_name_their_places()
    ensures { FindingsNameTheirPlaces }
{
    findings_name_places::<WidePad>();
}

/// Where a package is read, the counts of its files add up to the holes of its board.
pub fn file_counts_add_up()
    ensures { FileCountsAddUp }
{}

/// The board of a package has a copper file for each layer.
pub fn layers_have_files()
    ensures { LayersHaveFiles }
{}

/// Packages whose files say the same have the same answer.
pub fn same_answers()
    ensures { SameAnswers }
{}

/// A file has at most one content or one fault.
pub fn unique_reading()
    ensures { ReadingIsUnique }
{
    layer_image::readings_in_profiles();
    drill_text::laws::unique_reading();
    drill_text::laws::drill_texts();
    drill_text::laws::readings_of_kinds();
}

/// A file has a content or a fault.
pub fn reading_exists()
    ensures { ReadingExists }
{
    layer_image::readings_in_profiles();
    drill_text::laws::first_faults();
    drill_text::laws::readings_of_kinds();
}

/// A package has at most one answer.
pub fn unique_answer()
    ensures { AnswerIsUnique }
{
    unique_reading();
}

/// A package has an answer: a report, or the first file that is refused.
pub fn answer_exists()
    ensures { AnswerExists }
{
    reading_exists();
}

/// A package that the strict profile reads, the wide one reads too, unless a file calls holes plated that its role calls unplated: with
/// the same holes, the same gaps lacking, and no ring that does not lack in the strict profile. A file that the wide profile reads calls no
/// holes plated that its role calls unplated.
pub fn wide_finds_no_more()
    ensures fewer { WideFindsNoMore }
    ensures uncontradicted { ReadIsUncontradicted }
{
    layer_image::strict_layers();
    drill_text::laws::drill_texts();
    drill_text::laws::wide_reads_more();
    drill_text::laws::strict_profile();
    drill_text::laws::readings_in_profiles();
    drill_text::laws::readings_of_kinds();
    drill_text::laws::unplated_files();
    ring_rules::laws::wide_finds_no_more::<WidePad, WidePad>();
}

/// The board of a package that was read in the strict profile has what the wide profile says of the same files: which rings lack there, or
/// that it refuses a file.
pub fn wide_answers_by_board()
    ensures { WideAnswersByBoard }
{
    wide_finds_no_more();
    answer_exists();
    layer_image::strict_layers();
    layer_image::readings_in_profiles();
    drill_text::laws::drill_texts();
    drill_text::laws::unique_reading();
}

/// In each profile a package whose files can all be read passes under just the rules that it meets.
pub fn measured_passes()
    ensures { MeasuredPasses }
{
    unique_answer();
    rings_pass::<WidePad>();
    gaps_pass();
}

/// The entries of a report are those of its check's findings, in order, and a package whose report has none is sound.
pub fn report_agrees_with_check()
    ensures { ReportAgreesWithCheck }
{
    unique_answer();
    passing_is_sound();
}

/// As many rows of a layer are pads as it has pads, in both profiles.
pub fn rows_are_matched()
    ensures { RowsAreMatched }
{}
