//! Every key reads in one way, or has one fault.

ghost use Rattle.entry_key.specs.Laws.{FailsExactly, FailsOneWay, NeverBoth, ReadsExactly, ReadsOneWay, ReadsOrFails};

/// The walk over a key's bytes finds exactly the tags and the address that the key reads as, and exactly its fault.
pub fn reads_exactly()
    ensures reads { ReadsExactly }
    ensures fails { FailsExactly }
{}

/// Every key reads in exactly one way or has exactly one fault.
pub fn reads_or_fails()
    ensures reads_one_way { ReadsOneWay }
    ensures fails_one_way { FailsOneWay }
    ensures each { ReadsOrFails }
    ensures never_both { NeverBoth }
{}
