//! What has changed and is to be synced.

ghost use Rattle.std.specs.Prelude.{◌≡◌, OnOk, IfOk, IfErr, IsTrue, Ok, true};
ghost use Rattle.std.specs.IoError.{error_kind};
ghost use Rattle.std.specs.BTreeSet.{btree_set_len};
ghost use Rattle.std.specs.Fn.{FnReturnsAt};
ghost use Rattle.std.specs.List.{All};
ghost use Rattle.machine_files.specs.Taken.{TakesOff, Succeeds};

use std::alloc::Global;
use std::collections::BTreeSet;
use std::io::{self, ErrorKind};

/// Syncs each and takes it off. One that fails stays, with all after it.
pub fn sync_each<K: Ord + Drop, S: Fn(&K) -> io::Result<()>>(
    pending: &mut BTreeSet<K, Global>,
    sync: S,
) -> io::Result<()>
    requires { S.IsAlwaysCallable sync }
    ensures all { OnOk result (btree_set_len pending.new ≡ 0) }
    ensures synced { TakesOff (λ key. FnReturnsAt S.Fn sync key (Ok tt)) pending.old pending.new }
{
    while let Some(first) = pending.first() {
        sync(first)?;
        pending.pop_first();
    }
    Ok(())
}

/// Says that each of a list was synced. Only `sync_listed` makes it.
#[derive(Drop)]
pub struct AllSynced<K: Ord + Drop> {
    left: BTreeSet<K, Global>,
}

/// Syncs each that is listed.
pub fn sync_listed<K: Ord + Drop, S: Fn(&K) -> io::Result<()>>(
    listed: BTreeSet<K, Global>,
    sync: S,
) -> io::Result<AllSynced<K>>
    requires { S.IsAlwaysCallable sync }
    ensures each { OnOk result (All (λ key. FnReturnsAt S.Fn sync key (Ok tt)) listed.keys) }
{
    let mut left = listed;
    sync_each(&mut left, sync)?;
    Ok(AllSynced { left })
}

/// Says that each of a list was synced, or may not be. Only `sync_permitted` makes it.
#[derive(Drop)]
pub struct PermittedSynced<K: Ord + Drop> {
    left: BTreeSet<K, Global>,
    /// Each was synced.
    pub is_whole: bool,
}

/// Syncs each that is listed. The call answers whether it was synced: one that may not be is passed over.
pub fn sync_permitted<K: Ord + Drop, S: Fn(&K) -> io::Result<bool>>(
    listed: BTreeSet<K, Global>,
    sync: S,
) -> io::Result<PermittedSynced<K>>
    requires { S.IsAlwaysCallable sync }
    ensures each { OnOk result (All (λ key. Succeeds S.Fn sync key) listed.keys) }
    ensures whole { IfOk result (λ synced. IsTrue synced.is_whole →
        All (λ key. FnReturnsAt S.Fn sync key (Ok true)) listed.keys) }
{
    let mut left = listed;
    let mut is_whole = true;
    while let Some(first) = left.first() {
        let is_synced = sync(first)?;
        is_whole = both(is_whole, is_synced);
        left.pop_first();
    }
    Ok(PermittedSynced { left, is_whole })
}

fn both(one: bool, other: bool) -> bool
    ensures { IsTrue result → IsTrue one × IsTrue other }
{
    one && other
}

/// Whether a sync succeeded. It did not where it may not be made; another failure stays one.
pub fn is_permitted(outcome: io::Result<()>) -> io::Result<bool>
    ensures synced { IfOk result (λ is_synced. IsTrue is_synced → outcome ≡ Ok tt) }
    ensures denied { IfErr outcome (λ e. OnOk result (error_kind e ≡ ErrorKind.PermissionDenied)) }
{
    match outcome {
        Ok(()) => Ok(true),
        Err(error) if error.kind() == ErrorKind::PermissionDenied => Ok(false),
        Err(error) => Err(error),
    }
}
