//! A dump has one list of versions, and is read part by part; that of a directory is one.

ghost use Rattle.cache_export.specs.Dump.{DumpsAreOne};
ghost use Rattle.cache_export.specs.Dumped.{DumpOfIsDump};
ghost use Rattle.cache_export.specs.Joined.{DumpIsParts};
ghost use Rattle.cache_export.specs.declared.limits.TheConstants.{DUMP_MAX, HELD_MAX};
ghost use Rattle.std.specs.Prelude.{◌≡◌};

/// A dump has one list of versions.
pub fn dumps_are_one()
    ensures { DumpsAreOne }
{}

/// Bytes are read part by part to the end exactly where they are a dump, and the parts are those of its items.
pub fn dump_is_parts()
    ensures { DumpIsParts }
{}

/// The dump of a directory, with all that is found there and may be dumped as far as it fits, is a dump.
pub fn dump_of_is_dump()
    ensures { DumpOfIsDump }
{}

/// The number of the limit. Definitions cite the constant by name, so another number would change what they say.
pub fn limit_is()
    ensures { DUMP_MAX ≡ 1099511627776 }
{}

/// How many bytes of a dump a reader holds at most: a piece of 262,144 bytes and two lengths of four.
pub fn held_is()
    ensures { HELD_MAX ≡ 262152 }
{}
