// What an entry is opened on.
use paragraph::tables::OwnedTables;

/// A paragraph's tables, its ellipsis and its direction, not checked yet, and a measure.
#[derive(Drop)]
pub struct Opening<M> {
    pub tables: OwnedTables,
    pub measure: M,
}
