//! The order of eviction sorts the records, no more of them go than must, and where each name stands once it does not
//! matter in which order the records stood.

ghost use Rattle.evictor.specs.Evict.{OrderSorts, SameInAnyOrder, VictimsSuffice};

/// The order only moves records, and no record stands before one that is evicted earlier.
pub fn order_sorts()
    ensures { OrderSorts }
{}

/// The victims are the shortest prefix of the candidates that is enough, or all of them.
pub fn victims_suffice()
    ensures { VictimsSuffice }
{}

/// Where no name stands twice, the victims do not depend on the order in which the records stand.
pub fn same_in_any_order()
    ensures { SameInAnyOrder }
{}
