//! Reads a dump from a source, part by part.

ghost use Rattle.std.specs.Prelude.{◌≡◌, ◌+◌, ◌≤◌, [], None, length, IfOk, IfErr};
ghost use Rattle.cache_base.specs.Causes.{HasCause};
ghost use Rattle.cache_export.specs.Parts.{Stage};
ghost use Rattle.cache_export.specs.declared.limits.TheConstants.{DUMP_MAX, HELD_MAX};
ghost use Rattle.cache_io.specs.Window.{most_of};

use crate::parts::{PartFault, part_in};
use crate::progress::Progress;
use crate::reading::{Next, read_next};
use crate::{DumpFault, HELD_MAX, Item};
use cache_io::{ReadFault, Source, Window};
use std::alloc::Global;

/// A reader of a dump. It holds no more than a piece of a body or a block, with the lengths before it.
#[derive(Drop)]
pub struct DumpReader {
    alloc: Global,
    window: Window,
    progress: Progress,
    given: u64,
    used: u64,
    ghost bounded: { most_of window ≡ HELD_MAX },
    ghost short: { used ≤ DUMP_MAX },
    ghost counted: { given ≤ used },
}

impl DumpReader {
    ghost use Rattle.cache_export.specs.Reader.{held_in, given_in, used_in, stage_in, rest_of, BreaksOff, HoldsPart, LeavesReader, Refuses, RefusesPart, SourceFailed, StandsWhole, Takes, WantsMore};

    /// A reader at the beginning of a dump, which takes no memory.
    pub fn new(alloc: Global) -> DumpReader
        ensures held { held_in result ≡ [] }
        ensures stage { stage_in result ≡ Stage.AtItem None }
        ensures given { given_in result ≡ 0 }
        ensures used { used_in result ≡ 0 }
    {
        DumpReader {
            alloc,
            window: Window::new(alloc, HELD_MAX),
            progress: Progress::new(alloc),
            given: 0,
            used: 0,
        }
    }

    // The part that is due is bad.
    fn bad(&self) -> DumpFault
        ensures { result ≡ DumpFault.Bad (self.now.given + 1) }
    {
        DumpFault::Bad(self.given + 1)
    }

    // Takes the part that ends at the place.
    fn take(&mut self, end: usize) -> Result<Item, DumpFault>
        requires { StandsWhole self.old end }
        ensures taken { IfOk result (Takes self.old self.new end) }
        ensures bad { IfErr result (RefusesPart self.old end) }
    {
        let window = &self.window;
        let part = &window.as_slice()[..end];
        let progress = &mut self.progress;
        let read = part_in(
            self.alloc,
            progress.due,
            progress.key.as_slice(),
            progress.len,
            progress.hashes.as_slice(),
            part,
        );
        match read {
            Ok(item) => {
                progress.pass(&item, part)?;
                self.window.skip(end);
                self.used += end as u64;
                self.given += item.completed();
                Ok(item)
            }
            Err(PartFault::Bad) => Err(self.bad()),
            Err(PartFault::Memory) => Err(DumpFault::Memory),
        }
    }

    /// The next part of an item, or the end. The source is read only while the bytes that are held have neither the
    /// whole part that is due nor a bad one. After the end or a fault the reader is not used again.
    pub fn next<S: Source>(&mut self, source: &mut S) -> Result<Item, DumpFault>
        ensures leaves { LeavesReader self.old self.new
            (S.left source.old) (S.left source.new) result }
        ensures bad { IfErr result (Refuses self.old (S.left source.old)) }
        ensures failed { IfErr result (BreaksOff self.old (S.left source.old) (S.left source.new)) }
        ensures cause { HasCause (SourceFailed result) (S.faults source.old) (S.faults source.new) }
        ensures wanted { ¬ (WantsMore self.old (held_in self.old)) → source.new ≡ source.old }
        ensures held { length (held_in self.new) ≤ HELD_MAX }
        ensures whole { HoldsPart self.old → source.new ≡ source.old }
    {
        let lead = self.progress.due.lead();
        let left = self.progress.left();
        match read_next(&mut self.window, source, self.progress.due, left, self.used) {
            Err(ReadFault::Source) => Err(DumpFault::Source),
            Err(ReadFault::Memory) => Err(DumpFault::Memory),
            Ok(Next::End) => Ok(Item::End),
            Ok(Next::Bad) => Err(self.bad()),
            Ok(Next::Part(len)) => self.take(lead + len),
        }
    }
}
