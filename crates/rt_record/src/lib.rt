// The records of retention peaks, as words of a lent list.
#![tactic(auto)]

pub mod inner;

// Peak identities. They stand last in a record, and are read and written only by the functions that name them.
pub use limits::PeakId;

// What both kinds of records begin with: the apex of a retention peak in frames and in seconds, its heights, its ends and the
// area between them.
#[derive(Clone, Copy)]
pub struct RtApex {
    pub rt_idx: u32,
    pub rt_sec: f32,
    pub apex_smoothed: f32,
    pub apex_raw: f32,
    pub prominence: f32,
    pub left_x: f32,
    pub right_x: f32,
    pub width_frames: u32,
    pub area_raw: f32,
    pub subframe: f32,
}

impl RtApex {
    // Words, and the place of each field among them.
    pub const WORDS: usize = 10;

    pub const RT_IDX: usize = 0;

    pub const RT_SEC: usize = 1;

    pub const APEX_SMOOTHED: usize = 2;

    pub const APEX_RAW: usize = 3;

    pub const PROMINENCE: usize = 4;

    pub const LEFT_X: usize = 5;

    pub const RIGHT_X: usize = 6;

    pub const WIDTH_FRAMES: usize = 7;

    pub const AREA_RAW: usize = 8;

    pub const SUBFRAME: usize = 9;
}

// A retention peak, with what it takes over from its mobility peak. Expansion counts frames from the first of the run; the
// fallback by itself counts them from the first of its trace. One field may be missing, the window group. A bit of `flags`
// tells whether it is there, and a missing one is 0: the C interface has both words, and a record is read back with any flags, so the
// group is no Option here.
#[derive(Clone, Copy)]
pub struct RtPeak1D {
    pub apex: RtApex,
    pub rt_lo: u32,
    pub rt_hi: u32,
    pub frame_id_lo: u32,
    pub frame_id_hi: u32,
    pub flags: u32,
    pub window_group: u32,
    pub tof_row: u32,
    pub tof_center: u32,
    pub tof_lo: u32,
    pub tof_hi: u32,
    pub parent_im_id: PeakId,
    pub id: PeakId,
}

impl RtPeak1D {
    // The bit of `flags`.
    pub const HAS_GROUP: u32 = 1;

    // Words and bytes of a record, and the place of each field behind the apex.
    pub const WORDS: usize = 22;

    pub const BYTES: usize = 88;

    pub const RT_LO: usize = 10;

    pub const RT_HI: usize = 11;

    pub const FRAME_ID_LO: usize = 12;

    pub const FRAME_ID_HI: usize = 13;

    pub const FLAGS: usize = 14;

    pub const WINDOW_GROUP: usize = 15;

    pub const TOF_ROW: usize = 16;

    pub const TOF_CENTER: usize = 17;

    pub const TOF_LO: usize = 18;

    pub const TOF_HI: usize = 19;

    pub const PARENT_IM_ID: usize = 20;

    pub const ID: usize = 21;
}

// The frames that a retention peak reaches over, and their numbers.
#[derive(Clone, Copy)]
pub struct RtBounds {
    pub rt_lo: u32,
    pub rt_hi: u32,
    pub frame_id_lo: u32,
    pub frame_id_hi: u32,
}

// A retention peak of one trace, before it is placed in the run: frames are those of the trace. The ends and the width stand
// in seconds too.
#[derive(Clone, Copy)]
pub struct RtLocalPeak {
    pub apex: RtApex,
    pub left_sec: f32,
    pub right_sec: f32,
    pub width_sec: f32,
}

impl RtLocalPeak {
    // Words of a record, and the place of each field behind the apex.
    pub const WORDS: usize = 13;

    pub const LEFT_SEC: usize = 10;

    pub const RIGHT_SEC: usize = 11;

    pub const WIDTH_SEC: usize = 12;
}
