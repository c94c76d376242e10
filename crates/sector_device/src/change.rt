// What a write or a sync took away.

/// What a write or a sync took away, so that what was there before is known.
#[derive(Drop)]
pub enum Change {
    /// A write replaced this content of a sector.
    Replaced(u32, [u8; 512]),
    /// A sync left each sector one candidate.
    Synced,
}
