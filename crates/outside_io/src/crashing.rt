//! Images that a crash may leave of a disk in memory.

/// Which of the images that a crash may leave.
#[derive(Clone, Copy, Debug, PartialEq, Eq)]
pub enum Pick {
    /// What a read gave after the last sync that succeeded.
    Synced,
    /// What a read gives now.
    Read,
    /// The longest image, in which all that is open holds this byte.
    Filled(u8),
}
