//! The numbers of doomed files, and those in their names.
//!
//! A folder may stand under a number, put there by another program, and no file can be made in its place. So the
//! names of files pass over the numbers of folders.

ghost use Rattle.std.specs.Prelude.{◌≡◌, ◌≤◌, ◌^◌, ◌-◌, if◌then◌else◌, nat_lt, IfSome, IsNone};
ghost use Rattle.folder_paths.specs.Numbers.{AreKnown, AreUnknown, HasLearned, IsFree, KeepsNumbers, folder_numbers, named as named_past, past as past_one};

use std::alloc::Global;
use std::collections::BTreeSet;

/// The numbers under which folders stood at the first listing.
#[derive(Drop)]
pub struct Folders {
    numbers: Option<BTreeSet<u32, Global>>,
}

impl Folders {
    /// No listing has told them yet.
    pub fn unknown() -> Self
        ensures { AreUnknown result }
    {
        Folders { numbers: None }
    }

    /// The first listing counts, since files are made by it from then on.
    pub fn learn(&mut self, numbers: BTreeSet<u32, Global>)
        ensures learned { AreUnknown self.old → HasLearned self.new numbers }
        ensures kept { KeepsNumbers self.old self.new }
        ensures known { AreKnown self.new }
    {
        if self.numbers.is_none() {
            self.numbers = Some(numbers);
        }
    }

    /// The number in the name of the file with this number. There is none where it would be past the last number.
    pub(crate) fn named(&self, number: u32) -> Option<u32>
        ensures named { IfSome result (λ named. named ≡ named_past (folder_numbers self.now) number) }
        ensures free { IfSome result (IsFree (folder_numbers self.now)) }
        ensures none { IsNone result → 2 ^ 32 ≤ named_past (folder_numbers self.now) number }
    {
        match &self.numbers {
            None => Some(number),
            Some(numbers) => past_all(numbers, number),
        }
    }

    /// The number of the file with this one in its name, unless a folder stood there.
    pub fn number_of(&self, named: u32) -> Option<u32>
        ensures number { IfSome result (λ number.
            named_past (folder_numbers self.now) number ≡ named) }
        ensures none { IsNone result → IsFree (folder_numbers self.now) named → ⊥ }
    {
        match &self.numbers {
            None => Some(named),
            Some(numbers) => back_over_all(numbers, named),
        }
    }
}

// The number that passes over the folders to this one.
fn back_over_all(folders: &BTreeSet<u32, Global>, named: u32) -> Option<u32>
    ensures number { IfSome result (λ number. named_past folders.now.keys number ≡ named) }
    ensures none { IsNone result → IsFree folders.now.keys named → ⊥ }
{
    let mut number = named;
    'folders: for folder in folders {
        if *folder == named {
            return None;
        }
        number = back_over(*folder, named, number);
    }
    Some(number)
}

// One less, where the folder is below the number in the name.
fn back_over(folder: u32, named: u32, number: u32) -> u32
    ensures { result ≡ (if nat_lt folder named then number - 1 else number) }
{
    if folder < named {
        number.saturating_sub(1)
    } else {
        number
    }
}

fn past_all(folders: &BTreeSet<u32, Global>, number: u32) -> Option<u32>
    ensures named { IfSome result (λ named. named ≡ named_past folders.now.keys number) }
    ensures free { IfSome result (IsFree folders.now.keys) }
    ensures none { IsNone result → 2 ^ 32 ≤ named_past folders.now.keys number }
{
    let mut named = number;
    'folders: for folder in folders {
        named = past(*folder, named)?;
    }
    Some(named)
}

fn past(folder: u32, number: u32) -> Option<u32>
    ensures past { IfSome result (λ next. next ≡ past_one folder number) }
    ensures none { IsNone result → 2 ^ 32 ≤ past_one folder number }
{
    if folder <= number {
        number.checked_add(1)
    } else {
        Some(number)
    }
}
