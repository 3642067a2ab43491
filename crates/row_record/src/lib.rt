// The records of mobility peaks, as words of a lent list.
#![tactic(auto)]

pub mod inner;

ghost use Rattle.std.specs.Prelude.{◌≡◌, eqb, ◌/◌, ◌%◌, ◌<◌};
ghost use Rattle.std.specs.Bool.{then_some};
ghost use Rattle.row_record.specs.Record.{has_group, has_mobility, has_sigma};

// Peak identities. They stand last in a record, and are read, written and compared only by the functions that name them.
pub use limits::PeakId;

// A mobility peak. Three of its fields may be missing: the window group, the mobility and the scan sigma. A bit of `flags`
// tells whether each is there, and the field of one that is missing is 0: the C interface has these words, and a record is read back with
// any flags, so none of the three is an Option.
#[derive(Clone, Copy)]
pub struct ImPeak1D {
    pub tof_row: u32,
    pub tof_center: u32,
    pub tof_lo: u32,
    pub tof_hi: u32,
    pub rt_lo: u32,
    pub rt_hi: u32,
    pub frame_id_lo: u32,
    pub frame_id_hi: u32,
    pub flags: u32,
    pub window_group: u32,
    pub scan: u32,
    pub left: u32,
    pub right: u32,
    pub scan_abs: u32,
    pub left_abs: u32,
    pub right_abs: u32,
    pub scan_sigma: f32,
    pub mobility: f32,
    pub apex_smoothed: f32,
    pub apex_raw: f32,
    pub prominence: f32,
    pub left_x: f32,
    pub right_x: f32,
    pub width_scans: u32,
    pub area_raw: f32,
    pub subscan: f32,
    pub id: PeakId,
}

impl ImPeak1D {
    // Bits of `flags`.
    pub const HAS_GROUP: u32 = 1;

    pub const HAS_MOBILITY: u32 = 2;

    pub const HAS_SIGMA: u32 = 4;

    // Words and bytes of a record, and the place of each field in it.
    pub const WORDS: usize = 27;

    pub const BYTES: usize = 108;

    pub const TOF_ROW: usize = 0;

    pub const TOF_CENTER: usize = 1;

    pub const TOF_LO: usize = 2;

    pub const TOF_HI: usize = 3;

    pub const RT_LO: usize = 4;

    pub const RT_HI: usize = 5;

    pub const FRAME_ID_LO: usize = 6;

    pub const FRAME_ID_HI: usize = 7;

    pub const FLAGS: usize = 8;

    pub const WINDOW_GROUP: usize = 9;

    pub const SCAN: usize = 10;

    pub const LEFT: usize = 11;

    pub const RIGHT: usize = 12;

    pub const SCAN_ABS: usize = 13;

    pub const LEFT_ABS: usize = 14;

    pub const RIGHT_ABS: usize = 15;

    pub const SCAN_SIGMA: usize = 16;

    pub const MOBILITY: usize = 17;

    pub const APEX_SMOOTHED: usize = 18;

    pub const APEX_RAW: usize = 19;

    pub const PROMINENCE: usize = 20;

    pub const LEFT_X: usize = 21;

    pub const RIGHT_X: usize = 22;

    pub const WIDTH_SCANS: usize = 23;

    pub const AREA_RAW: usize = 24;

    pub const SUBSCAN: usize = 25;

    pub const ID: usize = 26;

    // Whether a bit of `flags` is set.
    fn has(self, bit: u32) -> bool
        requires { 0 < bit }
        ensures { result ≡ eqb (self.flags / bit % 2) 1 }
    {
        self.flags / bit % 2 == 1
    }

    // The three fields that may be missing.
    pub fn group(self) -> Option<u32>
        ensures { result ≡ then_some (has_group self) self.window_group }
    {
        self.has(ImPeak1D::HAS_GROUP).then_some(self.window_group)
    }

    pub fn mobility(self) -> Option<f32>
        ensures { result ≡ then_some (has_mobility self) self.mobility }
    {
        self.has(ImPeak1D::HAS_MOBILITY).then_some(self.mobility)
    }

    pub fn sigma(self) -> Option<f32>
        ensures { result ≡ then_some (has_sigma self) self.scan_sigma }
    {
        self.has(ImPeak1D::HAS_SIGMA).then_some(self.scan_sigma)
    }
}
