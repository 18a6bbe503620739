//! The distances on a page, from its layout.

ghost use Rattle.std.specs.Prelude.{◌≡◌, ◌≤◌, ◌^◌, ◌*◌};
ghost use Rattle.drawing.specs.Layouts.{box_left, box_top, boxes_end, column_step, page_height, page_width, pixels, row_step};

use crate::columns::capped_times;
use crate::layout::Layout;

/// The number of pixels of the longer side of a page.
const PIXELS: u128 = 1_200;

impl Layout {
    /// From the left of a column to that of the next, in pm.
    fn column_step(&self) -> u64
        ensures value { result ≡ column_step self.now }
    {
        self.frame.width.unsigned_abs().max(30 * self.pen.unit) + 3 * self.pen.unit
    }

    /// From the top of a row to that of the next, in pm.
    fn row_step(&self) -> u64
        ensures value { result ≡ row_step self.now }
    {
        self.frame.height.unsigned_abs() + 5 * self.pen.unit
    }

    /// From the left of the page to the box of a layer, in pm.
    pub(crate) fn box_left(&self, layer: usize) -> u64
        ensures value { result ≡ box_left self.now layer }
        ensures within { result ≤ 2 * 10 ^ 18 }
    {
        3 * self.pen.unit + capped_times(self.column_step(), layer % self.columns)
    }

    /// From the top of the page to the box of a layer, in pm.
    pub(crate) fn box_top(&self, layer: usize) -> u64
        ensures value { result ≡ box_top self.now layer }
        ensures within { result ≤ 2 * 10 ^ 18 }
    {
        9 * self.pen.unit + capped_times(self.row_step(), layer / self.columns)
    }

    /// From the top of the page to the end of the last row, in pm.
    pub(crate) fn boxes_end(&self) -> u64
        ensures value { result ≡ boxes_end self.now }
        ensures within { result ≤ 2 * 10 ^ 18 }
    {
        4 * self.pen.unit + capped_times(self.row_step(), self.rows)
    }

    /// The width of the page, in pm.
    pub(crate) fn width(&self) -> u64
        ensures value { result ≡ page_width self.now }
        ensures within { result ≤ 2 * 10 ^ 18 }
    {
        let columns = 3 * self.pen.unit + capped_times(self.column_step(), self.columns);
        columns.max(60 * self.pen.unit)
    }

    /// The height of the page, in pm.
    pub(crate) fn height(&self) -> u64
        ensures value { result ≡ page_height self.now }
        ensures within { result ≤ 3 * 10 ^ 18 }
    {
        self.boxes_end() + 10 * self.pen.unit
    }

    /// A side of the page in pixels, in proportion to the longer side, which has 1,200.
    pub(crate) fn pixels(&self, side: u64) -> u128
        ensures { result ≡ pixels self.now side }
    {
        let longer = self.width().max(self.height()).max(1);
        (u128::from(side) * PIXELS / u128::from(longer)).max(1)
    }
}
