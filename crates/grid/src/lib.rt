// Detection over all rows of a TOF grid.
#![tactic(auto)]

pub mod numbers;

ghost use Rattle.std.specs.Prelude.{◌≡◌};
ghost use Rattle.row_smoothed.specs.SmoothRow.{sound_or_none};
ghost use Rattle.grid_rows.specs.Grid.{used_of};
ghost use Rattle.grid.specs.GridNumber.{seen_in};
ghost use Rattle.grid_rows.specs.Steps.{call_grid};
ghost use Rattle.grid.specs.Answer.{Answered};

use grid_rows::call::{GridCall, Terms};
use numbers::Seen;
use refusal::Refusal;
use row_params::{FrameBounds, ImDetectParams};
use row_record::PeakId;
use tof_scale::TofScale;

// The readings that are worked on: the raw ones where there are any, else the smoothed ones.
fn used_of<'a>(raw: &'a [f32], smooth: &'a [f32]) -> &'a [f32]
    ensures { result.now ≡ used_of raw.now smooth.now }
{
    if raw.is_empty() { smooth } else { raw }
}

fn sound_weights(weights: &[f32]) -> bool
    ensures { result ≡ sound_or_none weights.now }
{
    weights.is_empty() | row_smoothing::inner::sound_weights(weights)
}

// Reads the lists of a grid. That of lists in bytes is in c_grid_stitch, with the tests of grid_word_bytes: a reader over row's `Column` would need tests
// over it besides.
fn see(raw: &[f32], smooth: &[f32], scans: &[u32], mobility: &[f32], weights: &[f32]) -> Seen
    ensures { result ≡ seen_in (used_of raw.now smooth.now) scans.now mobility.now weights.now }
{
    let used = used_of(raw, smooth);
    Seen {
        readings: used.len(),
        scans: scans.len(),
        mobility: mobility.len(),
        sound_readings: numeric::inner::all_in_range(used, limits::MAX_READING),
        sound_mobility: numeric::inner::all_in_range(mobility, limits::MAX_MOBILITY),
        sound_scans: row_params::inner::all_up_to(limits::MAX_SCAN, scans),
        rising_scans: row_params::inner::is_rising(scans),
        sound_weights: sound_weights(weights),
    }
}

// Writes the records of the peaks of all rows to the front of `out`, or refuses and leaves `out` and `scratch` as
// they are. It has the parameters of the Rust's function.
pub fn detect_im_peaks_from_tof_scan_grid<'a>(
    rows: usize,
    cols: usize,
    data: &'a [f32],
    data_raw: &'a [f32],
    scans: &'a [u32],
    scale: TofScale,
    bounds: FrameBounds,
    mobility: &'a [f32],
    p: ImDetectParams,
    weights: &'a [f32],
    first: PeakId,
    out: &mut [u32],
    scratch: &mut [f32],
) -> Result<usize, Refusal>
    ensures { Answered (call_grid cols data_raw.now «data».now scans.now scale bounds mobility.now p weights.now first) rows out.old out.new scratch.old scratch.new result }
{
    let call = GridCall {
        raw: data_raw,
        smooth: data,
        scans,
        mobility,
        terms: Terms {
            cols,
            scale,
            bounds,
            params: p,
            first,
        },
    };
    let seen = see(data_raw, data, scans, mobility, weights);
    numbers::check(seen, rows, call.terms, out.len(), scratch.len())?;
    Ok(grid_rows::sized::detect(&call, weights, 0..rows, out, scratch))
}
