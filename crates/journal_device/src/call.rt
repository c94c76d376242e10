// A call that changes a file.

/// A call that changes a file of sectors, or makes its changes durable.
#[derive(Drop)]
pub enum Call {
    /// The sector is given these bytes.
    Write(u32, [u8; 512]),
    /// What was written so far is made durable.
    Sync,
}
