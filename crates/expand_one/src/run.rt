// Runs over which mobility peaks are followed.
ghost use Rattle.expand_peak.specs.Expanded.{run_of};
ghost use Rattle.expand_one.specs.Steps.{Followed};

use frames_index::{CheckedIndex, FrameIndex};
use rt_params::RtExpandParams;
use tof_scale::TofScale;

// A run as it is lent: the index of its points, the number and the time of each frame, and the scale.
#[derive(Clone, Copy)]
pub struct Run<'a> {
    pub index: &'a FrameIndex<'a>,
    pub ids: &'a [u32],
    pub times: &'a [f32],
    pub scale: TofScale,
}

// A run and parameters that no number refuses. It holds no `Run`: the index of this one is checked, and with a `Run` inside, the unchecked
// one would stand beside it.
#[derive(Clone, Copy)]
pub struct FollowedRun<'a> {
    pub index: &'a CheckedIndex<'a>,
    pub ids: &'a [u32],
    pub times: &'a [f32],
    pub scale: TofScale,
    pub params: RtExpandParams,
    pub ghost followed: { Followed (run_of index.now ids.now times.now scale) params },
}
