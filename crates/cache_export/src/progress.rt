//! How far the items of a dump were read.

ghost use Rattle.std.specs.Prelude.{◌≡◌, ◌≤◌, ◌++◌, ◌∷◌, [], None, OnOk, length};
ghost use Rattle.cache_base.specs.declared.limits.TheConstants.{BODY_MAX};
ghost use Rattle.cache_export.specs.Parts.{Part, Spells, Stage, after, left_of};
ghost use Rattle.cache_export.specs.PartRead.{IfPart};

use crate::Item;
use crate::front::Due;
use cache_base::{Bytes, CHUNK, Hashes, NoMemory, u32_at};
use chunk_store::chunk_hash;
use std::alloc::Global;

/// What is due in a dump, and what is needed to judge it.
#[derive(Drop)]
pub(crate) struct Progress {
    /// What is due.
    pub(crate) due: Due,
    /// The last key that was read.
    pub(crate) key: Bytes,
    /// The length of the body under that key.
    pub(crate) len: u32,
    /// The hashes of the pieces that were given of that body.
    pub(crate) hashes: Hashes,
    ghost fits: { len ≤ BODY_MAX },
}

impl Progress {
    ghost use Rattle.cache_export.specs.Progress.{IsBodyPart, begun, body_of, stage_of};

    /// At the beginning of a dump.
    pub(crate) fn new(alloc: Global) -> Progress
        ensures { stage_of result ≡ Stage.AtItem None }
    {
        Progress {
            due: Due::Head,
            key: Bytes::new(alloc),
            len: 0,
            hashes: Hashes::new(alloc),
        }
    }

    /// How many bytes of the body are left.
    pub(crate) fn left(&self) -> usize
        ensures { result ≡ left_of self.now.len (length self.now.hashes) }
    {
        (self.len as usize).saturating_sub(self.hashes.as_slice().len().saturating_mul(CHUNK))
    }

    // Notes the length of a body, which stands before its first part.
    fn begin_body(&mut self, part: &[u8])
        requires { IsBodyPart self.old.due part.now }
        ensures { body_of self.new ≡ begun (stage_of self.old) part.now }
    {
        match self.due {
            Due::Length => {
                self.len = u32_at(part, 0);
                self.hashes.clear();
            }
            _ => {}
        }
    }

    // Goes on after a piece, which these bytes end with.
    fn pass_piece(&mut self, piece: &[u8], part: &[u8]) -> Result<(), NoMemory>
        requires { IsBodyPart self.old.due part.now }
        ensures { OnOk result (stage_of self.new
            ≡ after (begun (stage_of self.old) part.now) (Part.PiecePart piece.now) part.now) }
    {
        self.begin_body(part);
        self.hashes.push(chunk_hash(piece))?;
        self.due = Due::Body;
        Ok(())
    }

    // Goes on after a key.
    fn pass_key(&mut self, key: &[u8]) -> Result<(), NoMemory>
        ensures { OnOk result (stage_of self.new ≡ Stage.AtLength key.now) }
    {
        self.key.clear();
        self.key.extend(key)?;
        self.due = Due::Length;
        Ok(())
    }

    /// Goes on after a part of these bytes.
    pub(crate) fn pass(&mut self, item: &Item, part: &[u8]) -> Result<(), NoMemory>
        requires { IfPart item.now (λ p. Spells (stage_of self.old) p part.now) }
        ensures { OnOk result
            (IfPart item.now (λ p. stage_of self.new ≡ after (stage_of self.old) p part.now)) }
    {
        match item {
            Item::Key(key) => self.pass_key(key.as_slice()),
            Item::Piece(piece) => self.pass_piece(piece.as_slice(), part),
            Item::Block(_) => {
                self.due = Due::Item;
                Ok(())
            }
            Item::End => unreachable!(),
        }
    }
}
