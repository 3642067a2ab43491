// The points of a frame as its part of an index, as a C function on numbers and lists. Each list is an argument of its own.
ghost use Rattle.std.specs.Prelude.{◌≡◌};
ghost use Rattle.refusal.specs.Numbered.{says};
ghost use Rattle.c_word.specs.Word.{word_of, itself};
ghost use Rattle.frames_view.specs.Answer.{frame_of, lent_of};
ghost use Rattle.c_frames.specs.Scale.{scale_of};
ghost use Rattle.c_frames.specs.View.{bins_in, Answered};

use c_word::word_of;
use frames_bins::inner::Counts;
use frames_bins::lists::{Points, Scratch, View};
use refusal::Refusal;
use tof_scale::TofScale;

// The count of bins alone.
#[tactic(auto, unfolding(c_word::specs::Word::as_word))]
fn bins_of(answer: Result<Counts, Refusal>) -> Result<usize, Refusal>
    ensures { word_of itself (says result) ≡ word_of bins_in (says answer) }
{
    answer.map(|counts| counts.bins)
}

// Puts the points of a frame that have a bin, sorted by bin, to the front of four lists and answers 64 times the count of bins; or
// answers with a number and leaves all seven lists as they are. The place where the last bin ends is the last of the offsets.
#[tactic(auto, using(crate::proofs::ViewWords::view_word_by))]
#[unsafe(no_mangle)]
pub extern "C" fn rubzolena_build_frame_bin_view(
    tofs: &[u32],
    scans: &[u32],
    readings: &[f32],
    tof_min: u32,
    tof_max: u32,
    tof_step: u32,
    num_bins: u32,
    global_num_scans: u32,
    base: usize,
    out_bins: &mut [u32],
    out_offsets: &mut [u32],
    out_scans: &mut [u32],
    out_readings: &mut [f32],
    keys: &mut [u32],
    order: &mut [u32],
    spare: &mut [u32],
) -> u64
    ensures { Answered
        (frame_of tofs.now scans.now readings.now (scale_of tof_min tof_max tof_step num_bins) global_num_scans base)
        (lent_of out_bins.old out_offsets.old out_scans.old out_readings.old keys.old order.old spare.old)
        (lent_of out_bins.new out_offsets.new out_scans.new out_readings.new keys.new order.new spare.new)
        result }
{
    let scale = TofScale {
        tof_min,
        tof_max,
        tof_step,
        num_bins,
    };
    let points = Points {
        tofs,
        scans,
        readings,
    };
    let mut view = View {
        bins: out_bins,
        offsets: out_offsets,
        scans: out_scans,
        readings: out_readings,
    };
    let mut scratch = Scratch { keys, order, spare };
    let answer = frames_view::build_frame_bin_view(
        points,
        scale,
        global_num_scans,
        base,
        &mut view,
        &mut scratch,
    );
    word_of(bins_of(answer))
}
