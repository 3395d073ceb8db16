// The table of points: what a use adds to its moment, by how far the frecency lies before or after that moment.

ghost use Rattle.std.specs.Prelude.{◌≡◌, ◌≤◌, ◌*◌, slice_index};
ghost use Rattle.frecency.specs.Frecency.{points, points_at, reach};

/// Seconds from one place of the table to the next: six hours.
pub(crate) const STEP: u64 = 21_600;

/// Seconds from the middle of the table to either end: two days.
pub(crate) const REACH: u64 = 8 * STEP;

/// The points where the frecency lies beyond the table.
pub(crate) const FAR: u64 = 121;

const LAST: usize = 16;

const POINTS: [u32; 17] = [
    121, 243, 483, 959, 1889, 3670, 6954, 12635, 21600, 34235, 50154, 68470, 88289, 108959, 130083,
    151443, 172921,
];

fn point(place: usize) -> u64
    requires { place ≤ 16 }
    ensures { result ≡ slice_index points place }
{
    u64::from(POINTS[place])
}

/// The points at `offset` seconds from the table's start.
pub(crate) fn read_table(offset: u64) -> u64
    requires { offset ≤ 2 * reach }
    ensures value { result ≡ points_at offset }
    ensures most { result ≤ 172921 }
{
    let place = (offset / STEP) as usize;
    let low = point(place);
    if place == LAST {
        return low;
    }
    let high = point(place + 1);
    low + (high - low) * (offset % STEP) / STEP
}
