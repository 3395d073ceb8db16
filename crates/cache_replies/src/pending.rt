//! Holds back what of a reply is not out yet.

ghost use Rattle.std.specs.Prelude.{◌≡◌, [], OnErr, OnOk, IfOk, IsErrOf, Ok, true};
ghost use Rattle.cache_base.specs.declared.limits.TheConstants.{BUFFER_MAX};
ghost use Rattle.cache_base.specs.Causes.{HasCause};

use cache_base::{BUFFER_MAX, Buffer, NoMemory};
use cache_io::{Sink, SinkFault, write_whole};
use std::alloc::Global;

// So many bytes are worth a write of their own.
const HELD_MAX: usize = 65_536;

/// The bytes of a reply that are not out yet, so that a short reply goes out by one write.
#[derive(Drop)]
pub struct Pending {
    /// The bytes that are held back.
    pub held: Buffer,
}

impl Pending {
    ghost use Rattle.cache_replies.specs.Said.{saying};
    ghost use Rattle.cache_replies.specs.Saying.{CutsAll, CutsIn, SaysMore, SendsAll};

    /// Nothing. All memory is taken here.
    pub fn new(alloc: Global) -> Result<Pending, NoMemory>
        ensures { IfOk result (λ pending. pending.held ≡ []) }
    {
        Ok(Pending {
            held: Buffer::new(alloc)?,
        })
    }

    /// Says bytes. They are held, and where they have no room what is held goes out first. Many at once go out as
    /// they are.
    pub fn put<K: Sink>(&mut self, sink: &mut K, b: &[u8]) -> Result<(), SinkFault>
        ensures said { let at = saying K.Sink in
            OnOk result (SaysMore (at self.old sink.old) (at self.new sink.new) b.now) }
        ensures cut { let at = saying K.Sink in
            OnErr result (CutsIn (at self.old sink.old) (K.taken sink.new) b.now) }
        ensures cause { let failed = IsErrOf result SinkFault.Failed in
            HasCause failed (K.faults sink.old) (K.faults sink.new) }
    {
        if b.len() > HELD_MAX {
            self.send(sink)?;
            return write_whole(sink, b);
        }
        if b.len() > BUFFER_MAX - self.held.as_slice().len() {
            self.send(sink)?;
        }
        self.held.extend(b);
        Ok(())
    }

    /// All that is held goes out, and where nothing is, no call is made.
    pub fn send<K: Sink>(&mut self, sink: &mut K) -> Result<(), SinkFault>
        ensures held { OnOk result (self.new.held ≡ []) }
        ensures said { let at = saying K.Sink in
            OnOk result (SendsAll (at self.old sink.old) (K.taken sink.new)) }
        ensures cut { let at = saying K.Sink in
            OnErr result (CutsAll (at self.old sink.old) (K.taken sink.new)) }
        ensures idle { self.old.held ≡ [] → (result ≡ Ok tt) × (sink.new ≡ sink.old) }
        ensures cause { let failed = IsErrOf result SinkFault.Failed in
            HasCause failed (K.faults sink.old) (K.faults sink.new) }
    {
        if self.held.as_slice().is_empty() {
            return Ok(());
        }
        write_whole(sink, self.held.as_slice())?;
        self.held.set_len(0);
        Ok(())
    }

    /// All that is held goes out where more is still to be said.
    pub fn send_before<K: Sink>(&mut self, sink: &mut K, more: bool) -> Result<(), SinkFault>
        ensures said { let at = saying K.Sink in
            OnOk result (SaysMore (at self.old sink.old) (at self.new sink.new) []) }
        ensures cut { let at = saying K.Sink in
            OnErr result (CutsAll (at self.old sink.old) (K.taken sink.new)) }
        ensures sent { more ≡ true → OnOk result (self.new.held ≡ []) }
        ensures cause { let failed = IsErrOf result SinkFault.Failed in
            HasCause failed (K.faults sink.old) (K.faults sink.new) }
    {
        if more { self.send(sink) } else { Ok(()) }
    }

    /// All that is held is dropped, as after a reply that was cut.
    pub fn clear(&mut self)
        ensures { self.new.held ≡ [] }
    {
        self.held.set_len(0);
    }
}
