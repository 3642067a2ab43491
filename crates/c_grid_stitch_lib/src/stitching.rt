// Stitching.
ghost use Rattle.stitch.specs.Answer.{lent};
ghost use Rattle.c_grid_stitch.specs.Stitching.{params_of, are_flags, Answered};

// Writes the records of the stitched peaks to the front of `out` and each peak's owner to the front of `owners`, and answers 64
// times the count of stitched peaks; or answers with a number and leaves all six lists as they are.
#[unsafe(no_mangle)]
pub extern "C" fn rubzolena_stitch_im_peaks(
    list: &[u32],
    min_overlap_frames: u32,
    max_scan_delta: u32,
    jaccard_min: f32,
    max_tof_row_delta: u32,
    allow_cross_groups: u32,
    min_im_overlap_scans: u32,
    im_jaccard_min: f32,
    require_mutual_apex_inside: u32,
    out: &mut [u32],
    owners: &mut [u32],
    order: &mut [u32],
    groups: &mut [u32],
    keys: &mut [u32],
    merged: &mut [u32],
) -> u64
    ensures { Answered (are_flags allow_cross_groups require_mutual_apex_inside) list.now
        (params_of min_overlap_frames max_scan_delta jaccard_min max_tof_row_delta allow_cross_groups min_im_overlap_scans im_jaccard_min require_mutual_apex_inside)
        (lent out.old owners.old order.old groups.old keys.old merged.old)
        (lent out.new owners.new order.new groups.new keys.new merged.new)
        result }
{
    c_grid_stitch::stitching::rubzolena_stitch_im_peaks(
        list,
        min_overlap_frames,
        max_scan_delta,
        jaccard_min,
        max_tof_row_delta,
        allow_cross_groups,
        min_im_overlap_scans,
        im_jaccard_min,
        require_mutual_apex_inside,
        out,
        owners,
        order,
        groups,
        keys,
        merged,
    )
}
