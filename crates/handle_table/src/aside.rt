//! The numbers of the files in use that stand aside, among the doomed.

ghost use Rattle.std.specs.Prelude.{◌≡◌, ◌<◌, ◌≤◌, None, length, take};
ghost use Rattle.cache_base.specs.declared.limits.TheConstants.{SLOTS};
ghost use Rattle.doom_area.specs.DoomArea.{IsLeastFree};
ghost use Rattle.handle_table.specs.Aside.{numbers_in};

use crate::HandleTable;
use crate::object::Object;
use cache_base::SLOTS;
use doom_area::least;

/// The numbers of the files in use that stand aside: so many, as the prefix of an array.
#[derive(Drop)]
pub struct DoomedNumbers {
    /// The numbers, and zeroes after them.
    pub numbers: [u32; SLOTS],
    /// How many numbers there are.
    pub count: usize,
}

/// The numbers of the files of these objects that stand aside.
pub fn doomed_numbers(objects: &[Option<Object>; SLOTS]) -> DoomedNumbers
    ensures count { result.count ≤ SLOTS }
    ensures rows { length objects.now ≡ SLOTS }
    ensures numbers { take result.count result.numbers ≡ numbers_in objects.now }
{
    let mut numbers = [0; SLOTS];
    let mut count = 0;
    for object in objects {
        if let Some(object) = object {
            if let Some(number) = object.aside {
                numbers[count] = number;
                count += 1;
            }
        }
    }
    DoomedNumbers { numbers, count }
}

impl HandleTable {
    ghost use Rattle.handle_table.specs.Kept.{kept_in, use_at};

    /// The least number that no file in use has. While a slot is free they are fewer than the table has rows.
    pub fn free_number(&self, slot: u8) -> u32
        requires slot { slot < SLOTS }
        requires free { use_at (kept_in self.now) slot ≡ None }
        ensures least { IsLeastFree (numbers_in (kept_in self.now).objects) result }
        ensures few { length (numbers_in (kept_in self.now).objects) < SLOTS }
        ensures low { result < SLOTS }
    {
        self.has_rows();
        let aside = doomed_numbers(&self.rows.objects);
        least(&aside.numbers[..aside.count])
    }
}
