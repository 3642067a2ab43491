// The points of a frame as its part of an index.
#![tactic(auto)]

pub mod numbers;

ghost use Rattle.std.specs.Prelude.{◌≡◌};
ghost use Rattle.limits.specs.Limits.{max_reading};
ghost use Rattle.frames_view.specs.ViewNumber.{seen_in};
ghost use Rattle.frames_view.specs.Answer.{frame_of, room_of, Answered};
ghost use Rattle.frames_view.specs.Lists.{lent_in};
ghost use Rattle.frames_bins.specs.Lists.{SameView, SameScratch, SameViewLengths, SameScratchLengths};

use frames_bins::inner::Counts;
use frames_bins::lists::{Points, Scratch, View};
use numbers::{Room, Seen};
use refusal::Refusal;
use tof_scale::{CheckedScale, TofScale};

// Reads the lists of a frame's points.
fn see(points: Points) -> Seen
    ensures { result ≡ seen_in max_reading points.entry.tofs.now points.entry.scans.now points.entry.readings.now }
{
    Seen {
        tofs: points.tofs.len(),
        scans: points.scans.len(),
        readings: points.readings.len(),
        sound_readings: numeric::inner::all_in_range(points.readings, limits::MAX_READING),
        sound_tofs: row_params::inner::all_up_to(limits::MAX_TOF, points.tofs),
        sound_scans: row_params::inner::all_up_to(limits::MAX_SCAN, points.scans),
    }
}

// How long the lent lists are.
fn room_of(view: &View<'_>, scratch: &Scratch<'_>) -> Room
    ensures { result ≡ room_of (lent_in view.now scratch.now) }
{
    Room {
        bins: view.bins.len(),
        offsets: view.offsets.len(),
        scans: view.scans.len(),
        readings: view.readings.len(),
        keys: scratch.keys.len(),
        order: scratch.order.len(),
        spare: scratch.spare.len(),
    }
}

// Puts the points of a frame that have a bin, sorted by bin, to the front of the lists of a view: the distinct bins, where the points of
// each start and behind them where the last end, the absolute scans, cut to `global_num_scans`, and the readings. `base` is how many
// points the index has already, and starts are counted from it on. Answers how many bins and points they are; or refuses and leaves all
// lists as they are.
pub fn build_frame_bin_view(
    points: Points,
    scale: TofScale,
    global_num_scans: u32,
    base: usize,
    view: &mut View<'_>,
    scratch: &mut Scratch<'_>,
) -> Result<Counts, Refusal>
    ensures answer { Answered (frame_of points.entry.tofs.now points.entry.scans.now points.entry.readings.now scale global_num_scans base) (lent_in view.old scratch.old) (lent_in view.new scratch.new) result }
    ensures same_view { SameView view.old view.new }
    ensures same_scratch { SameScratch scratch.old scratch.new }
    ensures view_lengths { SameViewLengths view.old view.new }
    ensures scratch_lengths { SameScratchLengths scratch.old scratch.new }
{
    let room = room_of(view, scratch);
    numbers::check(see(points), global_num_scans, base, scale, room)?;
    let last = global_num_scans.saturating_sub(1);
    let s = CheckedScale::of(scale);
    Ok(frames_bins::inner::put_view(s, points, last, base as u32, view, scratch))
}
