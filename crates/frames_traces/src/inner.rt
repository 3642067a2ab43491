// The steps of traces, whose reading limit a caller gives.
ghost use Rattle.std.specs.Prelude.{◌≡◌, ◌++◌, ◌≤◌, length, drop, IfOk, OnOk};
ghost use Rattle.refusal.specs.Numbered.{number_in};
ghost use Rattle.limits.specs.Limits.{last_row, max_count};
ghost use Rattle.tof_scale.specs.Tof.{Sound};
ghost use Rattle.frames_index.specs.FrameIndex.{frames};
ghost use Rattle.frames_index.specs.IndexNumber.{index_number};
ghost use Rattle.frames_traces.specs.Traces.{trace_of, sound_scans, sound_axes, row_asks, bounds_asks};

use frames_index::numbers::Further;
use frames_index::{CheckedIndex, FrameIndex};
use frames_sums::inner::{FrameRange, Window};
use frames_windows::inner::{Bounds, PaddedRow};
use refusal::Refusal;
use tof_scale::TofScale;

#[tactic(auto, unfolding(crate::specs::Traces::sound_scans))]
fn sound_scans(lo: u32, hi: u32) -> bool
    ensures { result ≡ sound_scans lo hi }
{
    (lo <= limits::MAX_SCAN) & (hi <= limits::MAX_SCAN)
}

#[tactic(auto, unfolding(crate::specs::Traces::sound_axes))]
fn sound_axes(scale: TofScale, b: Bounds) -> bool
    ensures { result ≡ sound_axes scale b }
{
    tof_scale::inner::sound_ends(scale)
        & (b.tof_lo <= limits::MAX_TOF_BOUND)
        & (b.tof_hi <= limits::MAX_TOF_BOUND)
        & sound_scans(b.scan_lo, b.scan_hi)
}

// The index as a checked one, or the lowest number that applies: for readings with patterns to `limit`, where the trace goes to a list of
// `room` places.
pub fn check_row<'a>(
    limit: u32,
    ix: &FrameIndex<'a>,
    r: PaddedRow,
    room: usize,
) -> Result<CheckedIndex<'a>, Refusal>
    ensures number { number_in result ≡ index_number limit ix.now (row_asks ix.now r room) }
    ensures same { IfOk result (λ c. c ≡ ix.now) }
    ensures held { OnOk result ((r.row ≤ last_row) × (r.pad ≤ max_count) × (frames ix.now ≤ room)) }
{
    ix.check(
        limit,
        Further {
            values: (r.row <= limits::LAST_ROW) & (r.pad <= limits::MAX_COUNT),
            axes: sound_scans(r.scan_lo, r.scan_hi),
            room: ix.frames() <= room,
            ..Further::MET
        },
    )
}

// The same by bounds.
#[tactic(auto, using(crate::proofs::Laws::bounds_held))]
pub fn check_bounds<'a>(
    limit: u32,
    ix: &FrameIndex<'a>,
    scale: TofScale,
    b: Bounds,
    room: usize,
) -> Result<CheckedIndex<'a>, Refusal>
    ensures number { number_in result ≡ index_number limit ix.now (bounds_asks ix.now scale b room) }
    ensures same { IfOk result (λ c. c ≡ ix.now) }
    ensures held { OnOk result (Sound scale × (b.pad ≤ max_count) × (frames ix.now ≤ room)) }
{
    ix.check(
        limit,
        Further {
            values: tof_scale::inner::sound_step(scale.tof_step) & (b.pad <= limits::MAX_COUNT),
            axes: sound_axes(scale, b),
            room: ix.frames() <= room,
            scale: tof_scale::inner::agrees(scale),
            ..Further::MET
        },
    )
}

// Puts a sum for each frame to the front of `out`, and answers how many they are.
pub fn put_trace(ix: &CheckedIndex, w: Window, out: &mut [f32]) -> usize
    requires { frames ix.now ≤ length out.old }
    ensures count { result ≡ frames ix.now }
    ensures sums { out.new ≡ trace_of ix.now w ++ drop (frames ix.now) out.old }
{
    let n = ix.frames();
    let all = FrameRange { from: 0, count: n };
    frames_sums::inner::put_frame_sums(ix, all, w, out);
    n
}
