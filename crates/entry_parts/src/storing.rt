//! Parts that may stand in a block.

ghost use Rattle.cache_base.specs.Bytes.{AreBytes};
ghost use Rattle.entry_parts.specs.Elements.{AreElements, elements_bytes};
ghost use Rattle.entry_parts.specs.Header.{IsHeader};

use crate::{Elements, Header};
use cache_base::bytes_fit;

/// Any header and any elements may stand in a block.
pub fn parts_fit(_header: Header, elements: &Elements)
    ensures header { IsHeader _header }
    ensures elements { AreElements elements.now }
    ensures bytes { AreBytes (elements_bytes elements.now) }
{
    bytes_fit(elements.print());
}
