// What detection is told: parameters, the place of a row and the frames that it was summed over.
#![tactic(auto)]

pub mod inner;

ghost use Rattle.std.specs.Prelude.{◌≡◌};
ghost use Rattle.row_params.specs.Params.{sound_params, sound_bounds, sound_tof};

// The floor, for a row's raw maximum and for prominence; the least distance of two peaks, in indices; the least width.
#[derive(Clone, Copy)]
pub struct ImDetectParams {
    pub min_prom: f32,
    pub min_distance_scans: u32,
    pub min_width_scans: u32,
}

impl ImDetectParams {
    #[tactic(auto, unfolding(crate::specs::Params::sound_params))]
    pub fn is_sound(self) -> bool
        ensures { result ≡ sound_params self }
    {
        numeric::in_range(self.min_prom, limits::MAX_HEIGHT)
            & (self.min_distance_scans <= limits::MAX_COUNT)
            & (self.min_width_scans <= limits::MAX_COUNT)
    }
}

// Where a row stands among the TOF values.
#[derive(Clone, Copy)]
pub struct RowPlace {
    pub tof_row: u32,
    pub tof_center: u32,
    pub tof_lo: u32,
    pub tof_hi: u32,
}

impl RowPlace {
    #[tactic(auto, unfolding(crate::specs::Params::sound_tof))]
    pub fn is_sound(self) -> bool
        ensures { result ≡ sound_tof self }
    {
        (self.tof_center <= limits::MAX_TOF_BOUND)
            & (self.tof_lo <= limits::MAX_TOF_BOUND)
            & (self.tof_hi <= limits::MAX_TOF_BOUND)
    }
}

// The frames that a row was summed over, and their window group, where there is one.
#[derive(Clone, Copy)]
pub struct FrameBounds {
    pub rt_lo: u32,
    pub rt_hi: u32,
    pub frame_id_lo: u32,
    pub frame_id_hi: u32,
    pub window_group: Option<u32>,
}

impl FrameBounds {
    #[tactic(auto, unfolding(crate::specs::Params::sound_bounds))]
    pub fn is_sound(self) -> bool
        ensures { result ≡ sound_bounds self }
    {
        (self.rt_lo <= self.rt_hi)
            & (self.rt_hi <= limits::LAST_FRAME)
            & (self.frame_id_lo <= self.frame_id_hi)
    }
}
