//! What holds of all pages.

ghost use Rattle.report.specs.declared.BoardReport.{BoardReport};
ghost use Rattle.report_page.specs.Pages.{EachRowHasItsMarker, NumbersEachOnce};

use pad_shapes::WidePad;
use ring_rules::laws::findings_name_places;

/// The numbers of the rows of a page are 1, 2, 3 and so on, to the number of the findings.
pub fn each_number_once()
    ensures { (report : BoardReport) → NumbersEachOnce report }
{}

/// On the page of the report on a board with a copper file, and with a file for each layer, the picture has the marker to which the link of
/// each row leads.
pub fn each_row_has_its_marker()
    ensures { EachRowHasItsMarker }
{
    findings_name_places::<WidePad>();
}
