// The frecency after a use.

ghost use Rattle.std.specs.Prelude.{◌≡◌, ◌≤◌};
ghost use Rattle.frecency.specs.Frecency.{next as next_frecency};

use crate::points::{FAR, REACH, read_table};
use cache_base::Moment;

/// The frecency after a use at `now`, of an entry whose frecency was `f`, both in seconds; 0 says that the entry was
/// never used. An answer too large for a `u32` becomes the largest one.
#[tactic(auto, unfolding(crate::specs::Frecency::next))]
pub fn next(f: u32, now: Moment) -> u32
    ensures value { result ≡ next_frecency f now }
    ensures later { now ≤ result }
{
    let frecency = u64::from(f);
    let moment = u64::from(now);
    let after = if f == 0 {
        moment
    } else if frecency + REACH < moment {
        moment + FAR
    } else if moment + REACH < frecency {
        frecency + FAR
    } else {
        moment + read_table(frecency + REACH - moment)
    };
    after.min(u64::from(u32::MAX)) as u32
}
