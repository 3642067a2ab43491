// Which peaks stitching may join.
#![tactic(auto)]

pub mod inner;

ghost use Rattle.std.specs.Prelude.{◌≡◌};
ghost use Rattle.stitch_matching.specs.Matching.{sound_stitch};

// The bit pattern of the highest share: 1.
pub const MAX_SHARE: u32 = 0x3f80_0000;

// What stitching asks of peaks that it joins. Of two neighbours in a group: frames and scans in common, each as a count and
// as a share of all that the two have (a share of 0 asks nothing), the same window group unless crossing is allowed, and,
// if so told, both apexes within the scans in common. Of a whole group: how far its rows and its absolute scans may lie
// apart, where 0 sets no limit. In the first pass both of these are widths of buckets too, out of which no group reaches
// (`stitch_keys`).
#[derive(Clone, Copy)]
pub struct StitchParams {
    pub min_overlap_frames: u32,
    pub max_scan_delta: u32,
    pub jaccard_min: f32,
    pub max_tof_row_delta: u32,
    pub allow_cross_groups: bool,
    pub min_im_overlap_scans: u32,
    pub im_jaccard_min: f32,
    pub require_mutual_apex_inside: bool,
}

impl StitchParams {
    // Whether number 4 does not apply to the parameters.
    #[tactic(auto, unfolding(crate::specs::Matching::sound_stitch))]
    pub fn is_sound(self) -> bool
        ensures { result ≡ sound_stitch self }
    {
        (self.min_overlap_frames <= limits::MAX_COUNT)
            & (self.max_scan_delta <= limits::MAX_COUNT)
            & numeric::in_range(self.jaccard_min, MAX_SHARE)
            & (self.max_tof_row_delta <= limits::MAX_COUNT)
            & (self.min_im_overlap_scans <= limits::MAX_COUNT)
            & numeric::in_range(self.im_jaccard_min, MAX_SHARE)
    }
}
