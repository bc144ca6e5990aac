// Where ticks and points lie in a picture.
ghost use Rattle.std.specs.Prelude.{◌≡◌, ◌+◌, ◌<◌, ◌≤◌, ◌^◌, ◌==◌, position, vec_len};

use svg_text::Spot;

// How far up or down a train goes that leaves the layout.
const OUT: u64 = 10;

/// How far the lines of the grid reach beyond the first row and the last one: a train that leaves has room there.
pub(crate) const MARGIN: u16 = 22;

/// Where ticks and points lie in a picture: tick 0 is at `left`, and `span` ticks later comes `width` further; the points
/// of `rows` lie below one another, as far down as `depths` says, in the same order. The lines of the grid go from `top` to
/// `bottom`.
#[derive(Drop)]
pub struct Axes {
    pub left: u16,
    pub width: u16,
    pub span: u64,
    pub top: u16,
    pub bottom: u32,
    pub rows: Vec<u32>,
    pub depths: Vec<u32>,
    ghost some_tick: { 0 < span },
    ghost few_ticks: { span ≤ 2 ^ 40 },
    ghost few_rows: { vec_len rows ≤ 512 },
}

impl Axes {
    ghost use Rattle.train_graph.specs.Places.{x_at, y_at, row_of, y_out, target_y};

    /// How far to the right a tick lies. Ticks after the last one lie at the right end.
    pub fn x(&self, tick: u64) -> u64
        ensures { result ≡ x_at self.now tick }
    {
        u64::from(self.left) + tick.min(self.span) * u64::from(self.width) / self.span
    }

    // The row of a point, counted from the top. A point without a row lies below all others.
    fn row(&self, point: u32) -> usize
        ensures { result ≡ row_of self.now point }
    {
        place_in(&self.rows, point).unwrap_or(self.rows.len())
    }

    /// How far down a point lies. A point without a row lies at the bottom.
    pub fn y(&self, point: u32) -> u64
        ensures at { result ≡ y_at self.now point }
        ensures fits { result < 2 ^ 32 }
    {
        let depth = self.depths.get(self.row(point)).copied();
        u64::from(depth.unwrap_or(self.bottom))
    }

    /// How far down a train that leaves the layout from a point goes: a bit up in the upper half, else down.
    pub fn out(&self, point: u32) -> u64
        ensures { result ≡ y_out self.now point }
    {
        if self.row(point) * 2 < self.rows.len() {
            self.y(point).saturating_sub(OUT)
        } else {
            self.y(point) + OUT
        }
    }

    /// How far down a step from a point leads: to another point, or out of the layout.
    pub fn target(&self, from: u32, to: Option<u32>) -> u64
        ensures { result ≡ target_y self.now from to }
    {
        match to {
            Some(point) => self.y(point),
            None => self.out(from),
        }
    }

    /// How far to the right the last tick lies.
    pub fn right(&self) -> u64
        ensures { result ≡ self.now.left + self.now.width }
    {
        u64::from(self.left) + u64::from(self.width)
    }

    /// How far down the lines of the grid begin.
    pub fn ceiling(&self) -> u64 {
        u64::from(self.top)
    }

    /// How far down the lines of the grid end.
    pub fn floor(&self) -> u64 {
        u64::from(self.bottom)
    }

    /// The spot of a tick at a point.
    pub fn spot(&self, tick: u64, point: u32) -> Spot
        ensures x { result.x ≡ x_at self.now tick }
        ensures y { result.y ≡ y_at self.now point }
    {
        Spot {
            x: self.x(tick),
            y: self.y(point),
        }
    }
}

// The first place of a number in a list.
pub(crate) fn place_in(list: &[u32], number: u32) -> Option<usize>
    ensures { result ≡ position (λ other. other == number) list.now }
{
    list.iter().position(|other| *other == number)
}
