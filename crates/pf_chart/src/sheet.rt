//! Where columns and rows are on the sheet, in pixels.

ghost use Rattle.std.specs.Prelude.{◌≡◌, length, map};
ghost use Rattle.std.specs.List.Sorted.{IsNonDecreasingBy};
ghost use Rattle.pf_chart.specs.Sheets.{
  bottom,
  column_x,
  event_number,
  event_y,
  head_rows,
  head_y,
  pitch_of,
  point_of,
  row_y,
  rows_before,
  rows_end,
  sheet_height,
  sheet_width,
  side_at,
  side_of,
};

use crate::rows::EventRow;

/// What one row takes, and half of it.
const ROW: u64 = 26;

pub(crate) const HALF_ROW: u64 = 13;
/// What is above the rows: the outcome, and the heads.
pub(crate) const TOP: u64 = 92;
/// After so many rows the heads are repeated, and how high they are there.
const BAND: u64 = 40;

const GAP: u64 = 52;
/// Where the first heads begin, and how high a head is.
const HEAD_TOP: u64 = 40;

pub(crate) const HEAD_HEIGHT: u64 = 40;
/// What is left of the columns: the numbers of events, and choices above 0.
pub(crate) const GUTTER: u64 = 80;
/// What is right of the columns: labels of the last one.
const MARGIN: u64 = 280;
/// What is below the lifelines: feet, the outcome, the legend.
const BOTTOM: u64 = 170;

/// How wide the columns are together, if each of them may be.
const WIDE: u64 = 1600;

const NARROWEST: u64 = 64;

const WIDEST: u64 = 200;

/// The legend has this room at least.
const NARROWEST_SHEET: u64 = 760;

/// On which side of the rows of a page an event is, if it isn't among them.
#[derive(Clone, Copy, PartialEq, Eq)]
pub(crate) enum PageSide {
    Above,
    Here,
    Below,
}

/// How many columns there are and how wide one is, and which rows are on the page.
#[derive(Clone, Copy)]
pub(crate) struct Sheet<'r> {
    columns: u64,
    pitch: u64,
    /// The rows of all pages.
    rows: &'r [EventRow<'r>],
    /// How many of them are above the page, and how many on it.
    pub(crate) above: usize,
    pub(crate) count: usize,
    ghost in_order: { IsNonDecreasingBy (λ r. r.index) rows.now },
}

/// How wide each column is if there are this many.
fn pitch_of(columns: u64) -> u64
    ensures { result ≡ pitch_of columns }
{
    if columns == 0 {
        return WIDEST;
    }
    (WIDE / columns).max(NARROWEST).min(WIDEST)
}

/// The number of an event; the first is 1.
pub(crate) fn event_number(index: usize) -> u64
    ensures { result ≡ event_number index }
{
    (index as u64).saturating_add(1)
}

impl<'r> Sheet<'r> {
    ghost use Rattle.pf_chart.specs.Pages.{page_in};

    /// The sheet of a page that has so many rows below those of the pages above it.
    pub(crate) fn new(
        columns: usize,
        rows: &'r [EventRow<'r>],
        above: usize,
        count: usize,
    ) -> Sheet<'r>
        requires { IsNonDecreasingBy (λ r. r.index) rows.now }
        ensures pitch { result.pitch ≡ pitch_of columns }
        ensures rows { result.rows.now ≡ rows.now }
        ensures above { result.above ≡ above }
        ensures count { result.count ≡ count }
    {
        let columns = columns as u64;
        Sheet {
            columns,
            pitch: pitch_of(columns),
            rows,
            above,
            count,
        }
    }

    pub(crate) fn pitch(&self) -> u64
        ensures { result ≡ self.now.pitch }
    {
        self.pitch
    }

    /// How many rows all pages have together.
    pub(crate) fn all_rows(&self) -> usize
        ensures { result ≡ length self.now.rows.now }
    {
        self.rows.len()
    }

    /// The middle of a column.
    pub(crate) fn x(&self, column: usize) -> u64
        ensures { result ≡ column_x self.now.pitch column }
    {
        let left = (column as u64).saturating_mul(self.pitch);
        left.saturating_add(GUTTER + self.pitch / 2)
    }

    /// The middle of a row of the page.
    pub(crate) fn row_y(&self, row: usize) -> u64
        ensures { result ≡ row_y row }
    {
        let row = row as u64;
        row.saturating_mul(ROW)
            .saturating_add((row / BAND).saturating_mul(GAP))
            .saturating_add(TOP + HALF_ROW)
    }

    /// How many rows of all pages are above an event.
    fn rows_before(&self, event: usize) -> usize
        ensures { result ≡ rows_before (map (λ r. r.index) self.now.rows.now) event }
    {
        self.rows.partition_point(|row| row.index < event)
    }

    /// Where an event is above which there are so many rows.
    fn side_at(&self, before: usize) -> PageSide
        ensures { result ≡ side_at self.now.above self.now.count before }
    {
        if before < self.above {
            PageSide::Above
        } else if before - self.above < self.count {
            PageSide::Here
        } else {
            PageSide::Below
        }
    }

    /// Whether an event is on the page, or on which side of it.
    pub(crate) fn side(&self, event: usize) -> PageSide
        ensures { result ≡ side_of (page_in self.now) event }
    {
        self.side_at(self.rows_before(event))
    }

    /// The middle of the row of an event, or of the next one if it has none; the edge of the rows if it is on another
    /// page.
    pub(crate) fn y(&self, event: usize) -> u64
        ensures { result ≡ event_y (page_in self.now) event }
    {
        let before = self.rows_before(event);
        match self.side_at(before) {
            PageSide::Above => TOP,
            PageSide::Here => self.row_y(before.saturating_sub(self.above)),
            PageSide::Below => self.rows_end(),
        }
    }

    /// Where a column and the row of an event meet.
    pub(crate) fn at(&self, column: usize, event: usize) -> (u64, u64)
        ensures { result ≡ point_of (page_in self.now) column event }
    {
        (self.x(column), self.y(event))
    }

    /// The lower edge of the last row.
    pub(crate) fn rows_end(&self) -> u64
        ensures { result ≡ rows_end self.now.count }
    {
        let gaps = (self.count.saturating_sub(1) as u64) / BAND;
        (self.count as u64)
            .saturating_mul(ROW)
            .saturating_add(gaps.saturating_mul(GAP))
            .saturating_add(TOP)
    }

    /// Where lifelines end, a row below the last one.
    pub(crate) fn bottom(&self) -> u64
        ensures { result ≡ bottom self.now.count }
    {
        self.rows_end().saturating_add(ROW)
    }

    /// How many rows of heads there are.
    pub(crate) fn head_rows(&self) -> usize
        ensures { result ≡ head_rows self.now.count }
    {
        self.count.saturating_sub(1) / 40 + 2
    }

    /// Where a row of heads begins: above the rows, between them, or below.
    pub(crate) fn head_y(&self, index: usize) -> u64
        ensures { result ≡ head_y self.now.count index }
    {
        if index == 0 {
            return HEAD_TOP;
        }
        if index.saturating_add(1) >= self.head_rows() {
            return self.bottom();
        }
        (index as u64)
            .saturating_mul(BAND * ROW + GAP)
            .saturating_add(TOP)
            .saturating_sub(GAP - 6)
    }

    pub(crate) fn width(&self) -> u64
        ensures { result ≡ sheet_width self.now.columns self.now.pitch }
    {
        let columns = self.columns.saturating_mul(self.pitch);
        columns.saturating_add(GUTTER + MARGIN).max(NARROWEST_SHEET)
    }

    pub(crate) fn height(&self) -> u64
        ensures { result ≡ sheet_height self.now.count }
    {
        self.bottom().saturating_add(BOTTOM)
    }
}
