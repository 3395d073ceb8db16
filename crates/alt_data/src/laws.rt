//! What the element `alt-data` tells is what it was made to tell.

ghost use Rattle.alt_data.specs.AltData.{AltIsPut, AltIsRead, AltIsSpelled};

/// An element that spells alternative data is read as these.
pub fn alt_is_read()
    ensures { AltIsRead }
{}

/// Alternative data are read from an element that spells them, and from no other.
pub fn alt_is_spelled()
    ensures { AltIsSpelled }
{}

/// Where data are put after a body, and the element is set to tell of them, the main body is the body of before, and
/// the alternative data are those that were put.
pub fn alt_is_put()
    ensures { AltIsPut }
{}
