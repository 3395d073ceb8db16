//! A record that is written is read back, and any 41 bytes are those of one record.

ghost use Rattle.index_record.specs.Record.{RecordReadsBack, RecordSpells};

/// A record that is written is read back.
pub fn record_reads_back()
    ensures { RecordReadsBack }
{}

/// 41 bytes are the bytes of the record in them.
pub fn record_spells()
    ensures { RecordSpells }
{}
