/// A number that a channel carries: an INTEGER.
pub type Sample = i16;

/// A port's channels are numbered from 0 to 15.
pub const CHANNELS: u8 = 16;
