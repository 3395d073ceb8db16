//! A mark is read as the origin that it spells.

ghost use Rattle.context_clear.specs.Mark.{MarkIsRead, MarkIsSpelled};

/// The mark of an origin has twelve bytes, and is read as that origin.
pub fn mark_is_read()
    ensures { MarkIsRead }
{}

/// Bytes that are read as a mark are the mark of that origin.
pub fn mark_is_spelled()
    ensures { MarkIsSpelled }
{}
