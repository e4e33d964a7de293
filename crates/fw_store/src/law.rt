//! The laws of the store.

ghost use Rattle.fw_store.specs.Laws.{Isolation, KeepsOrder};

/// One operation gives equal replies in stores that show the caller the same, and every client to whom both showed the
/// same is shown the same by both after it.
pub fn law_isolation()
    ensures { Isolation }
{}

/// An operation keeps the strict order of the records.
pub fn law_order()
    ensures { KeepsOrder }
{}
