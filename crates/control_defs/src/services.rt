// The services whose requests and reports are of patterns and packet stores.

/// The service type of real-time forwarding control (ECSS-E-ST-70-41C, 6.14).
pub const FORWARDING: u8 = 14;

/// The service type of on-board storage and retrieval (6.15).
pub const STORAGE: u8 = 15;
