//! What a deployment may have at most.

/// The faults of each kind that it bears.
pub const MOST_FAULTS: u32 = 3;

/// The numbers of its agreed list, and so what its pipe holds.
pub const MOST_NUMBERS: u32 = 64;

/// The views.
pub const MOST_VIEWS: u32 = 8;

/// The clients.
pub const MOST_CLIENTS: u32 = 8;

/// The stamps of a client.
pub const MOST_STAMPS: u32 = 16;

/// The keys of one-time signatures, without those of replies.
pub const MOST_KEYS: u32 = 4096;
