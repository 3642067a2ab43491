// Stitching as a C function on numbers and lists of words. Each list is an argument of its own.
ghost use Rattle.std.specs.Prelude.{◌≡◌};
ghost use Rattle.stitch.specs.Answer.{lent};
ghost use Rattle.c_grid_stitch.specs.Stitching.{params_of, are_flags, Answered};

use stitch_matching::StitchParams;
use stitch_passes::Lent;

// Writes the records of the stitched peaks to the front of `out` and each peak's owner to the front of `owners`, and answers 64
// times the count of stitched peaks; or answers with a number and leaves all six lists as they are.
#[unsafe(no_mangle)]
pub extern "C" fn rubzolena_stitch_im_peaks(
    list: &[u32],
    min_overlap_frames: u32,
    max_scan_delta: u32,
    jaccard_min: f32,
    max_tof_row_delta: u32,
    allow_cross_groups: u32,
    min_im_overlap_scans: u32,
    im_jaccard_min: f32,
    require_mutual_apex_inside: u32,
    out: &mut [u32],
    owners: &mut [u32],
    order: &mut [u32],
    groups: &mut [u32],
    keys: &mut [u32],
    merged: &mut [u32],
) -> u64
    ensures { Answered (are_flags allow_cross_groups require_mutual_apex_inside) list.now
        (params_of min_overlap_frames max_scan_delta jaccard_min max_tof_row_delta allow_cross_groups min_im_overlap_scans im_jaccard_min require_mutual_apex_inside)
        (lent out.old owners.old order.old groups.old keys.old merged.old)
        (lent out.new owners.new order.new groups.new keys.new merged.new)
        result }
{
    let flags = (allow_cross_groups <= 1) & (require_mutual_apex_inside <= 1);
    let params = flags.then_some(StitchParams {
        min_overlap_frames,
        max_scan_delta,
        jaccard_min,
        max_tof_row_delta,
        allow_cross_groups: allow_cross_groups == 1,
        min_im_overlap_scans,
        im_jaccard_min,
        require_mutual_apex_inside: require_mutual_apex_inside == 1,
    });
    let mut lists = Lent {
        out,
        owners,
        order,
        groups,
        keys,
        merged,
    };
    c_word::word_of(stitch::inner::stitch_told(list, params, &mut lists))
}
