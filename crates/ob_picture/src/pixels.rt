//! Where things stand in a picture, in pixels.

ghost use Rattle.std.specs.Prelude.{◌≡◌, ◌+◌, ◌-◌, ◌*◌, ◌<◌, ◌≤◌, ◌==◌, ◌^◌, length, position};
ghost use Rattle.ob_picture.specs.Places.{bands, below, cell, column_width, columns_in, first, height, in_line, is_in, is_marked, lead, most, room, row_of};
ghost use Rattle.ob_picture.specs.Places.{width, x_of, y_of};
ghost use Rattle.ob_picture.specs.View.{band_in};

use ob_picture_chart::Point;
use wf_history::CallId;

/// How far words may go on behind the end of a band.
pub(crate) const BEYOND: u128 = 200;

/// From the top: where the first band begins.
pub(crate) const TOP: u128 = 214;

/// The sizes by which things are placed: the columns of a run stand in bands, one below the other.
#[derive(Clone, Copy)]
pub struct Frame {
    pub columns: usize,
    /// How wide columns have to be for the words of all calls.
    pub wanted: u128,
}

/// A band of a picture.
#[derive(Clone, Copy)]
pub struct Band<'a> {
    pub frame: Frame,
    /// Its number, from 0.
    pub number: usize,
    /// From the top: where it begins.
    pub top: u128,
    /// The processes that have a row there, in their order.
    pub rows: &'a [usize],
    /// How far the words of calls go on behind its end.
    pub spill: u128,
    /// The call that is marked, if one is.
    pub marked: Option<CallId>,
}

/// A product that fits.
fn times(count: usize, size: usize) -> u128
    requires { size ≤ 2 ^ 10 }
    ensures value { result ≡ count * size }
    ensures small { result < 2 ^ 75 }
{
    count as u128 * size as u128
}

/// From the left: the first column of a band.
#[tactic(auto, unfolding(crate::specs::Places::lead))]
fn lead(band: usize) -> u128
    ensures value { result ≡ lead band }
    ensures least { 130 ≤ result }
    ensures largest { result ≤ 230 }
{
    if band == 0 { 130 } else { 230 }
}

impl Frame {
    /// As wide as words want it, up to a limit; and a few columns are a little wider.
    #[tactic(auto, unfolding(crate::specs::Places::column_width))]
    fn column_width(self) -> usize
        ensures value { result ≡ column_width self }
        ensures least { 24 ≤ result }
        ensures largest { result ≤ 80 }
    {
        let few = (1180 / self.columns.max(1)).min(40).max(24);
        (self.wanted.min(80) as usize).max(few)
    }

    /// For how many columns there is room in a band.
    #[tactic(auto, unfolding(crate::specs::Places::room))]
    fn room(self) -> usize
        ensures value { result ≡ room self }
        ensures some { 1 ≤ result }
        ensures few { result ≤ 60 }
    {
        1180 / self.column_width()
    }

    #[tactic(auto, unfolding(crate::specs::Places::bands))]
    pub(crate) fn bands(self) -> usize
        ensures value { result ≡ bands self }
        ensures some { 1 ≤ result }
    {
        self.columns.saturating_sub(1) / self.room() + 1
    }

    /// How many columns a band has.
    #[tactic(auto, unfolding(crate::specs::Places::most))]
    fn most(self) -> usize
        ensures value { result ≡ most self }
        ensures few { result ≤ 60 }
    {
        (self.columns.saturating_sub(1) / self.bands() + 1).min(self.room())
    }

    /// The first column of a band.
    #[tactic(auto, unfolding(crate::specs::Places::first))]
    pub(crate) fn first(self, band: usize) -> u128
        ensures value { result ≡ first self band }
        ensures small { result < 2 ^ 75 }
    {
        times(band, self.most())
    }

    /// How many columns there are in a band.
    #[tactic(auto, unfolding(crate::specs::Places::columns_in))]
    pub(crate) fn columns_in(self, band: usize) -> usize
        ensures value { result ≡ columns_in self band }
        ensures few { result ≤ 60 }
    {
        let behind = (self.columns as u128).saturating_sub(self.first(band));
        behind.min(self.most() as u128) as usize
    }

    /// Whether a column stands in a band.
    #[tactic(auto, unfolding(crate::specs::Places::is_in))]
    pub(crate) fn is_in(self, band: usize, column: usize) -> bool
        ensures { result ≡ is_in self band column }
    {
        let first = self.first(band);
        first <= column as u128 && (column as u128) < first + self.columns_in(band) as u128
    }

    /// From the left: a column, in its band.
    #[tactic(auto, unfolding(crate::specs::Places::x_of))]
    pub(crate) fn x(self, band: usize, column: u128) -> u128
        ensures value { result ≡ x_of self band column }
        ensures least { 130 ≤ result }
        ensures largest { result < 2 ^ 76 }
    {
        let before = column
            .saturating_sub(self.first(band))
            .min(self.columns_in(band) as u128);
        lead(band) + times(before as usize, self.column_width())
    }

    #[tactic(auto, unfolding(crate::specs::Places::width))]
    pub(crate) fn width(self) -> u128
        ensures value { result ≡ width self }
        ensures least { 780 ≤ result }
    {
        let columns = times(self.columns.min(self.most()), self.column_width());
        (lead(self.bands() - 1) + columns + BEYOND + 110).max(780)
    }

    /// How many calls of the order stand in a line.
    #[tactic(auto, unfolding(crate::specs::Places::in_line))]
    fn in_line(self) -> u128
        ensures value { result ≡ in_line self }
        ensures some { 1 ≤ result }
    {
        (self.width() - 80) / 90
    }

    /// Where a call of the order stands, below the bands.
    #[tactic(auto, unfolding(crate::specs::Places::cell))]
    pub(crate) fn cell(self, below: u128, place: usize) -> Point
        requires { below < 2 ^ 77 }
        ensures value { result ≡ cell self below place }
        ensures largest { result.y < 2 ^ 78 }
    {
        let in_line = self.in_line();
        Point {
            x: 70 + 90 * (place as u128 % in_line),
            y: below + 20 + 18 * (place as u128 / in_line),
        }
    }

    #[tactic(auto, unfolding(crate::specs::Places::height))]
    pub(crate) fn height(self, below: u128, calls: usize) -> u128
        requires { below < 2 ^ 77 }
        ensures { result ≡ height self below calls }
    {
        self.cell(below, calls.saturating_sub(1)).y + 16
    }
}

#[tactic(auto, unfolding(crate::specs::Places::below, crate::specs::Places::y_of))]
impl Band<'_> {
    /// From the left: a column, in its band.
    pub(crate) fn x(&self, column: u128) -> u128
        ensures value { result ≡ x_of self.now.frame self.now.number column }
        ensures least { 130 ≤ result }
        ensures largest { result < 2 ^ 76 }
    {
        self.frame.x(self.number, column)
    }

    /// Whether a column stands in the band.
    pub(crate) fn is_in(&self, column: usize) -> bool
        ensures { result ≡ is_in self.now.frame self.now.number column }
    {
        self.frame.is_in(self.number, column)
    }

    /// Whether a call is the marked one.
    pub(crate) fn marks(&self, id: CallId) -> bool
        ensures { result ≡ is_marked self.now.marked id }
    {
        match self.marked {
            Some(marked) => marked == id,
            None => false,
        }
    }

    /// From the top: where the next band begins.
    pub(crate) fn below(&self) -> u128
        requires { self.now.top < 2 ^ 77 }
        ensures value { result ≡ below (band_in self.now) }
        ensures least { self.now.top + 48 ≤ result }
        ensures largest { result ≤ self.now.top + 48 + 56 * length self.now.rows.now }
    {
        self.top + 48 + 56 * self.rows.len() as u128
    }

    /// From the top: a process.
    pub(crate) fn y(&self, process: usize) -> u128
        requires { self.now.top < 2 ^ 77 }
        ensures value { result ≡ y_of (band_in self.now) process }
        ensures least { 48 ≤ result }
        ensures largest { result < 2 ^ 78 }
    {
        self.top + 48 + 56 * row_of(self.rows, process) as u128
    }
}

/// Where the row of a process stands among those of a band.
fn row_of(rows: &[usize], process: usize) -> usize
    ensures { result ≡ row_of rows.now process }
{
    match row_among(rows, process) {
        Some(row) => row,
        None => 0,
    }
}

fn row_among(rows: &[usize], process: usize) -> Option<usize>
    ensures { result ≡ position (λ other. other == process) rows.now }
{
    rows.iter().position(|other| *other == process)
}
