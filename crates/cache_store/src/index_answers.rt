//! What the index in memory answers, without a look at the disk.

ghost use Rattle.std.specs.Prelude.{◌≡◌, ◌≢◌, Some, false};
ghost use Rattle.cache_replies.specs.Answers.{reply_of};
ghost use Rattle.cache_replies.specs.Printed.{lists_findings};
ghost use Rattle.cache_store.specs.Records.{AnswersHas};
ghost use Rattle.cache_theory.specs.Step.{state_reply};
ghost use Rattle.index_update.specs.Rest.{name_bytes};

use cache_replies::Answered;
use cache_theory::Refusal;
use entry_key::may_write;
use entry_name::name_of;
use memory_index::MemoryIndex;

/// How far the update is.
pub(crate) fn state_of(index: &MemoryIndex) -> Answered
    ensures reply { reply_of result ≡ Some (state_reply (name_bytes index.now.update)) }
    ensures unsaid { result ≢ Answered.All }
    ensures unlisted { lists_findings result ≡ false }
{
    match index.update.rest() {
        0 => Answered::Ready,
        names => Answered::Updating(names as u64),
    }
}

/// Whether there is an entry of the key.
pub(crate) fn has(index: &MemoryIndex, key: &[u8]) -> Answered
    ensures answers { AnswersHas key.now index.now result }
    ensures unsaid { result ≢ Answered.All }
    ensures unlisted { lists_findings result ≡ false }
{
    if !may_write(key) {
        return Answered::Refused(Refusal::BadKey);
    }
    let name = name_of(key);
    if index.update.waits_for(&name) {
        Answered::Unknown
    } else if index.map.get(&name).is_some() {
        Answered::Yes
    } else {
        Answered::No
    }
}
