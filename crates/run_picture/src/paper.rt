//! Where things stand on the paper, in pixels. A run is drawn in parts below each other; in a part each member has a lane, and each
//! event a column.
ghost use Rattle.std.specs.Prelude.{◌≡◌, ◌≤◌};

/// The most columns of a part.
pub(crate) const COLUMNS: u8 = 60;

/// Where the lanes begin.
pub(crate) const LEFT: u64 = 110;

/// How wide a column is.
const COLUMN: u64 = 76;

/// Room for the last line of a schedule.
const RIGHT: u64 = 140;

/// Room for the lines of the schedule.
const HEAD: u64 = 170;

/// How high a lane is, with what stands beside it.
const LANE: u64 = 120;

/// Room for the title.
pub(crate) const TITLE: u64 = 50;

/// How wide and how high the legend is.
const LEGEND_WIDTH: u64 = 620;

const LEGEND_HEIGHT: u64 = 186;

/// The middle of a column.
pub(crate) fn column_x(column: u8) -> u64
    ensures range { (144 ≤ result) × (result ≤ 20000) }
{
    LEFT + COLUMN / 2 + COLUMN * u64::from(column)
}

/// Where lanes end behind so many columns.
pub(crate) fn lanes_end(columns: u8) -> u64
    ensures range { (110 ≤ result) × (result ≤ 20000) }
{
    LEFT + COLUMN * u64::from(columns)
}

/// Where a lane's line is, in its part.
pub(crate) fn lane_y(lane: u8) -> u64
    ensures range { (230 ≤ result) × (result ≤ 31000) }
{
    HEAD + LANE / 2 + LANE * u64::from(lane)
}

/// How high a part is.
pub(crate) fn part_height(members: u8) -> u64
    ensures range { (170 ≤ result) × (result ≤ 31000) }
{
    HEAD + LANE * u64::from(members)
}

/// Where the part of that number begins, from 0 on.
pub(crate) fn part_y(part: u64, members: u8) -> u64 {
    part.saturating_mul(part_height(members))
        .saturating_add(TITLE)
}

/// How wide a picture is whose parts have so many columns.
pub(crate) fn picture_width(columns: u8) -> u64 {
    LEGEND_WIDTH.max(lanes_end(columns) + RIGHT)
}

/// How high a picture is that has so many parts.
pub(crate) fn picture_height(parts: u64, members: u8) -> u64 {
    part_y(parts, members).saturating_add(LEGEND_HEIGHT)
}
