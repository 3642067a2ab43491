// The limits of document 01, and the type of identities.
#![tactic(auto)]

// Peak identities, from 0 on.
pub type PeakId = u32;

// ---- bit patterns of the highest floats: a float from 0 to a limit has a pattern up to that one's, and one with a set sign a
// higher one

// Readings: 2^32.
pub const MAX_READING: u32 = 0x4f80_0000;

// Smoothed readings, apexes, prominences and thresholds: 2^33.
pub const MAX_HEIGHT: u32 = 0x5000_0000;

// Areas of peaks: 2^50.
pub const MAX_AREA: u32 = 0x5880_0000;

// Seconds: 2^20.
pub const MAX_SECONDS: u32 = 0x4980_0000;

// Mobilities and scan sigmas: 2^20.
pub const MAX_MOBILITY: u32 = 0x4980_0000;

// Weights: 1, which the middle one is.
pub const MAX_WEIGHT: u32 = 0x3f80_0000;

// Places in a row, between samples: 65,535.
pub const MAX_PLACE: u32 = 0x477f_ff00;

// Places in a scale, between bins: 4,194,304.
pub const MAX_BIN_PLACE: u32 = 0x4a80_0000;

// Subscans, without their sign: 0.5.
pub const MAX_OFFSET: u32 = 0x3f00_0000;

// Whatever is no NaN and has a clear sign.
pub const ANY_NUMBER: u32 = 0x7f80_0000;

// ---- whole numbers

// TOF values.
pub const MAX_TOF: u32 = 4194303;

// TOF bounds and centres of peaks: the highest TOF and the highest step.
pub const MAX_TOF_BOUND: u32 = 4259839;

// Steps of a scale.
pub const MAX_STEP: u32 = 65536;

// Absolute scans.
pub const MAX_SCAN: u32 = 65535;

// Counts among parameters.
pub const MAX_COUNT: u32 = 65535;

// Widths of peaks, in scans.
pub const MAX_WIDTH: u32 = 65536;

// Places of samples in a row.
pub const LAST_SAMPLE: u32 = 16383;

// Places of frames.
pub const LAST_FRAME: u32 = 16383;

// Places of rows.
pub const LAST_ROW: u32 = 4194303;

// ---- sizes

// Samples in a row.
pub const MAX_SAMPLES: usize = 16384;

// Frames.
pub const MAX_FRAMES: usize = 16384;

// Rows.
pub const MAX_ROWS: usize = 4194304;

// Points.
pub const MAX_POINTS: usize = 16777216;

// Peaks in a list to stitch or to expand.
pub const MAX_LIST: usize = 65536;

// Weights.
pub const MAX_WEIGHTS: usize = 257;

// Identities, from 0 to 2^32 - 1.
pub const IDENTITIES: usize = 4294967296;

// Whole numbers up to this one are floats.
pub const EXACT_INDEX: usize = 16777216;
