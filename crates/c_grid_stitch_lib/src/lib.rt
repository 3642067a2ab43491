// The C entries of grid detection and stitching, which the archive libc_grid_stitch.a exports under the names of include/rubzolena.h. Each
// calls the function of c_grid_stitch of the same name and states its clauses again.
#![tactic(auto)]

pub mod stitching;

ghost use Rattle.std.specs.Prelude.{length};
ghost use Rattle.c_grid_stitch.specs.Entry.{used_bytes, all_whole, bounds_of, scale_of, params_of, Answered};
ghost use Rattle.grid_bytes.specs.ByteGrid.{byte_grid};

use row_record::PeakId;

// Writes the records of the peaks of all rows to the front of `out` and answers 64 times their count, or answers with a number
// and leaves `out` as it is. Lists are words in bytes, the lowest byte first; empty raw readings, an empty mobility table and
// empty weights mean that there are none.
#[unsafe(no_mangle)]
pub extern "C" fn rubzolena_detect_im_peaks(
    rows: usize,
    cols: usize,
    data: &[u8],
    data_raw: &[u8],
    scans: &[u8],
    tof_min: u32,
    tof_max: u32,
    tof_step: u32,
    num_bins: u32,
    rt_lo: u32,
    rt_hi: u32,
    frame_id_lo: u32,
    frame_id_hi: u32,
    group_flag: u32,
    window_group: u32,
    mobility: &[u8],
    min_prom: f32,
    min_distance_scans: u32,
    min_width_scans: u32,
    weights: &[u8],
    first: PeakId,
    out: &mut [u8],
) -> u64
    ensures { Answered
        (all_whole (length (used_bytes data_raw.now «data».now)) (length scans.now) (length mobility.now) (length weights.now) (length out.old))
        group_flag
        (byte_grid cols (used_bytes data_raw.now «data».now) scans.now (scale_of tof_min tof_max tof_step num_bins) (bounds_of rt_lo rt_hi frame_id_lo frame_id_hi group_flag window_group) mobility.now (params_of min_prom min_distance_scans min_width_scans) weights.now first)
        rows out.old out.new result }
{
    c_grid_stitch::rubzolena_detect_im_peaks(
        rows,
        cols,
        data,
        data_raw,
        scans,
        tof_min,
        tof_max,
        tof_step,
        num_bins,
        rt_lo,
        rt_hi,
        frame_id_lo,
        frame_id_hi,
        group_flag,
        window_group,
        mobility,
        min_prom,
        min_distance_scans,
        min_width_scans,
        weights,
        first,
        out,
    )
}
