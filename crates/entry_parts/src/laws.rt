//! Headers and elements that are written are read back, and each that is read has one spelling.

ghost use Rattle.std.specs.Int.{w16, w32, w64};
ghost use Rattle.std.specs.Prelude.{◌≡◌};
ghost use Rattle.entry_parts.specs.Elements.{ElementsReadBack, ElementsSpell};
ghost use Rattle.entry_parts.specs.Header.{HeaderReadsBack, HeaderSpells, ShortHeaderReadsBack, ShortHeaderSpells};
ghost use Rattle.entry_parts.specs.Numbers.{NumberSpells};
ghost use Rattle.entry_parts.specs.declared.header.TheConstants.{VERSION};

/// What is written has version 3.
pub fn version_is()
    ensures { VERSION ≡ 3 }
{}

/// A header that is written is read back, also without its flags where these are 0.
pub fn header_reads_back()
    ensures whole { HeaderReadsBack }
    ensures short { ShortHeaderReadsBack }
{}

/// 32 bytes are the bytes of the header in them, and 28 bytes those of the header without flags in them.
pub fn header_spells()
    ensures whole { HeaderSpells }
    ensures short { ShortHeaderSpells }
{}

/// Elements that are written are read back.
pub fn elements_read_back()
    ensures { ElementsReadBack }
{}

/// Bytes that have the form of elements are the bytes of the elements in them.
pub fn elements_spell()
    ensures { ElementsSpell }
{}

/// A big-endian number that was read from bytes is written as the same bytes again.
pub fn numbers_spell()
    ensures two { NumberSpells w16 2 }
    ensures four { NumberSpells w32 4 }
    ensures eight { NumberSpells w64 8 }
{}
