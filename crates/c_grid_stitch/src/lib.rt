// Grid detection as a C function on numbers and byte slices; stitching stands in a module of its own. Each list is
// an argument of its own.
#![tactic(auto)]

pub mod stitching;

ghost use Rattle.std.specs.Prelude.{◌≡◌, ◌||◌, eqb, ltb, ◌/◌, ◌<◌, ◌^◌, length};
ghost use Rattle.refusal.specs.Numbered.{number_in, says};
ghost use Rattle.c_word.specs.Word.{word_of, itself};
ghost use Rattle.grid_byte_rows.specs.Call.{bytes_in};
ghost use Rattle.row_smoothed.specs.SmoothRow.{sound_or_none};
ghost use Rattle.grid.specs.GridNumber.{seen_in};
ghost use Rattle.grid_word_bytes.specs.Bytes.{words_of, floats_of};
ghost use Rattle.c_grid_stitch.specs.Entry.{entry_number, used_bytes, all_whole, group_of, bounds_of, scale_of, params_of, Answered};
ghost use Rattle.grid_bytes.specs.ByteGrid.{byte_grid};

use grid::numbers::Seen;
use grid_byte_rows::call::ByteCall;
use grid_rows::call::Terms;
use refusal::Refusal;
use row_params::{FrameBounds, ImDetectParams};
use row_record::PeakId;
use tof_scale::TofScale;

// ---- the numbers

fn sound_weights(weights: &[u8]) -> bool
    ensures { result ≡ sound_or_none (floats_of weights.now) }
{
    let m = weights.len() / 4;
    if m == 0 {
        return true;
    }
    if m > limits::MAX_WEIGHTS {
        return false;
    }
    if !grid_word_bytes::inner::all_words_up_to(weights, limits::MAX_WEIGHT) {
        return false;
    }
    let mut ws = [0f32; limits::MAX_WEIGHTS];
    grid_word_bytes::inner::decode_floats(weights, 0, &mut ws[..m]);
    row_smoothing::inner::sound_weights(&ws[..m])
}

// Reads the lists of a grid, each by the test of its field: those of lists in bytes are other functions than those of lists in words, which
// the reader of a grid in words calls. Over row's `Column` each test would be a third function, that reads a value at a time.
fn see(used: &[u8], scans: &[u8], mobility: &[u8], weights: &[u8]) -> Seen
    ensures { result ≡ seen_in (floats_of used.now) (words_of scans.now) (floats_of mobility.now) (floats_of weights.now) }
{
    let rising_scans = grid_word_bytes::inner::is_rising(scans);
    Seen {
        readings: used.len() / 4,
        scans: scans.len() / 4,
        mobility: mobility.len() / 4,
        sound_readings: grid_word_bytes::inner::all_words_up_to(used, limits::MAX_READING),
        sound_mobility: grid_word_bytes::inner::all_words_up_to(mobility, limits::MAX_MOBILITY),
        sound_scans: grid_word_bytes::inner::axis_up_to(scans, rising_scans, limits::MAX_SCAN),
        rising_scans,
        sound_weights: sound_weights(weights),
    }
}

// Whether no number up to 4 refuses.
fn is_past_four(found: Result<(), Refusal>) -> bool
    ensures { result ≡ (eqb (number_in found) 0 || ltb 4 (number_in found)) }
{
    found.err().is_none_or(|refusal| refusal > Refusal::Value)
}

// Whether the lists of a call are whole words; `room` is the length of the lent list, in bytes.
fn are_whole(call: &ByteCall<'_>, weights: &[u8], room: usize) -> bool
    ensures { result ≡ all_whole (length call.now.used.now) (length call.now.scans.now) (length call.now.mobility.now) (length weights.now) room }
{
    (call.used.len() % 4 == 0)
        & (call.scans.len() % 4 == 0)
        & (call.mobility.len() % 4 == 0)
        & (weights.len() % 4 == 0)
        & (room % 4 == 0)
}

// Refuses a call with the lowest number that applies.
fn check(
    call: &ByteCall<'_>,
    weights: &[u8],
    rows: usize,
    flag: u32,
    room: usize,
) -> Result<(), Refusal>
    ensures { number_in result ≡ entry_number (all_whole (length call.now.used.now) (length call.now.scans.now) (length call.now.mobility.now) (length weights.now) room) flag (bytes_in call.now (floats_of weights.now)) rows (room / 4) }
{
    if !are_whole(call, weights, room) {
        return Err(Refusal::Lengths);
    }
    let seen = see(call.used, call.scans, call.mobility, weights);
    let found = grid::numbers::check(seen, rows, call.terms, room / 4, call.terms.cols);
    if (flag > 1) & is_past_four(found) {
        return Err(Refusal::Value);
    }
    found
}

// The count of the peaks of all rows, whose records are then at the front of `out`.
fn detect(
    call: &ByteCall<'_>,
    weights: &[u8],
    rows: usize,
    flag: u32,
    out: &mut [u8],
) -> Result<usize, Refusal>
    ensures answered { Answered (all_whole (length call.now.used.now) (length call.now.scans.now) (length call.now.mobility.now) (length weights.now) (length out.old)) flag (bytes_in call.now (floats_of weights.now)) rows out.old out.new (word_of itself (says result)) }
    ensures word { word_of itself (says result) < 2 ^ 64 }
{
    check(call, weights, rows, flag, out.len())?;
    Ok(grid_bytes::sized::detect_bytes(call, weights, 0..rows, out))
}

// The flag is a word, as the entry is handed it: the check refuses one above 1, and its bounds are made before that.
fn group_of(flag: u32, group: u32) -> Option<u32>
    ensures { result ≡ group_of flag group }
{
    (flag != 0).then_some(group)
}

// Writes the records of the peaks of all rows to the front of `out` and answers 64 times their count, or answers with a number
// and leaves `out` as it is. Lists are words in bytes, the lowest byte first; empty raw readings, an empty mobility table and
// empty weights mean that there are none.
#[unsafe(no_mangle)]
pub extern "C" fn rubzolena_detect_im_peaks<'a>(
    rows: usize,
    cols: usize,
    data: &'a [u8],
    data_raw: &'a [u8],
    scans: &'a [u8],
    tof_min: u32,
    tof_max: u32,
    tof_step: u32,
    num_bins: u32,
    rt_lo: u32,
    rt_hi: u32,
    frame_id_lo: u32,
    frame_id_hi: u32,
    group_flag: u32,
    window_group: u32,
    mobility: &'a [u8],
    min_prom: f32,
    min_distance_scans: u32,
    min_width_scans: u32,
    weights: &'a [u8],
    first: PeakId,
    out: &mut [u8],
) -> u64
    ensures { Answered
        (all_whole (length (used_bytes data_raw.now «data».now)) (length scans.now) (length mobility.now) (length weights.now) (length out.old))
        group_flag
        (byte_grid cols (used_bytes data_raw.now «data».now) scans.now (scale_of tof_min tof_max tof_step num_bins) (bounds_of rt_lo rt_hi frame_id_lo frame_id_hi group_flag window_group) mobility.now (params_of min_prom min_distance_scans min_width_scans) weights.now first)
        rows out.old out.new result }
{
    let call = ByteCall {
        used: if data_raw.is_empty() { data } else { data_raw },
        scans,
        mobility,
        terms: Terms {
            cols,
            scale: TofScale {
                tof_min,
                tof_max,
                tof_step,
                num_bins,
            },
            bounds: FrameBounds {
                rt_lo,
                rt_hi,
                frame_id_lo,
                frame_id_hi,
                window_group: group_of(group_flag, window_group),
            },
            params: ImDetectParams {
                min_prom,
                min_distance_scans,
                min_width_scans,
            },
            first,
        },
    };
    c_word::word_of(detect(&call, weights, rows, group_flag, out))
}
