//! Where the columns of a picture stand.

ghost use Rattle.std.specs.Prelude.{◌≡◌, ◌+◌, ◌*◌, ◌<◌, ◌^◌};
ghost use Rattle.xk_show_picture.specs.Sheet.{band_left, bands_left, labels, lane_left, middle, room, sheet_of, wide};

use xk_show_lanes::{Grid, Window};

/// The most bands of clocks that are drawn.
const BANDS: u32 = 8;

/// Which steps are drawn, where the lanes begin, half the width of a lane, how many lanes there are, how many bands of
/// phases, and for how many signs there is room behind bars.
#[derive(Clone, Copy)]
pub struct Sheet {
    pub window: Window,
    pub left: u16,
    pub half: u16,
    pub lanes: u32,
    pub bands: u32,
    pub signs: u16,
}

/// The sheet for these columns, so many signs behind bars, and so many clocks.
pub(crate) fn sheet_of(grid: Grid, signs: u16, clocks: u32) -> Sheet
    ensures { result ≡ sheet_of grid signs clocks }
{
    Sheet {
        window: grid.window,
        left: 96 + 8 * grid.place.min(40) as u16,
        half: 4 * grid.lane.min(100) as u16,
        lanes: grid.lanes,
        bands: clocks.min(BANDS),
        signs,
    }
}

/// So many halves of a lane.
fn halves(half: u16, lane: u32) -> u64
    ensures product { result ≡ half * lane }
    ensures small { result < 2 ^ 48 }
{
    u64::from(half) * u64::from(lane)
}

/// Where a lane begins.
pub fn lane_left(sheet: Sheet, lane: u32) -> u64
    ensures place { result ≡ lane_left sheet lane }
    ensures small { result < 2 ^ 50 }
{
    u64::from(sheet.left) + 2 * halves(sheet.half, lane)
}

/// The middle of a lane.
pub(crate) fn middle(sheet: Sheet, lane: u32) -> u64
    ensures place { result ≡ middle sheet lane }
    ensures small { result < 2 ^ 51 }
{
    lane_left(sheet, lane) + u64::from(sheet.half)
}

/// Where the bands begin.
fn bands_left(sheet: Sheet) -> u64
    ensures place { result ≡ bands_left sheet }
    ensures small { result < 2 ^ 51 }
{
    lane_left(sheet, sheet.lanes) + 8
}

/// Where the band of a clock begins.
pub(crate) fn band_left(sheet: Sheet, clock: u32) -> u64
    ensures place { result ≡ band_left sheet clock }
    ensures small { result < 2 ^ 52 }
{
    bands_left(sheet) + 14 * u64::from(clock)
}

/// Where what is said of bars begins.
pub(crate) fn labels(sheet: Sheet) -> u64
    ensures place { result ≡ labels sheet }
    ensures small { result < 2 ^ 53 }
{
    band_left(sheet, sheet.bands) + 8
}

/// The room for what is said of bars, if there are clocks.
fn room(sheet: Sheet) -> u64
    ensures wide { result ≡ room sheet }
    ensures small { result < 2 ^ 20 }
{
    if sheet.bands == 0 {
        return 0;
    }
    8 * u64::from(sheet.signs)
}

/// How wide the picture is.
pub fn wide(sheet: Sheet) -> u64
    ensures { result ≡ wide sheet }
{
    (labels(sheet) + (room(sheet) + 8)).max(680)
}
