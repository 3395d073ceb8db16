//! What the records are once the update has ended.

ghost use Rattle.memory_index.specs.Records.{AtEndIsOne};

/// What is in memory and what stands decide by which records an eviction and a check go.
pub fn records_at_end_are_one()
    ensures { AtEndIsOne }
{}
