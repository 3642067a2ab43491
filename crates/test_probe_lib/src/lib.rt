// The C entries of test_probe, which the archive libtest_probe.a exports for the comparison with the Rust (oracle/). Each calls the function of
// probe of the same name and states its clauses again.
#![tactic(auto)]

ghost use Rattle.std.specs.Prelude.{◌≡◌, cond, ◌&&◌, length, pos};
ghost use Rattle.std.specs.Float.{binary32};
ghost use Rattle.std.specs.Float.Ieee.{of_int, of_bits, to_bits};
ghost use Rattle.numeric.specs.Numeric.{max_f, min_f, abs_f, clamp_f, cast_f, lerp_f, quad_f};
ghost use Rattle.rounding.specs.Rounding.{floor_f, ceil_f, round_f};
ghost use Rattle.refusal.specs.Answers.{answer_by};
ghost use Rattle.c_word.specs.Word.{word_of, itself};
ghost use Rattle.row_area.specs.Area.{area_f, area_number};
ghost use Rattle.row_record.specs.Record.{peak_at, with_peak};
ghost use Rattle.row_smoothing.specs.Smoothing.{smooth_number};
ghost use Rattle.row_search.specs.Qualifying.{kept};
ghost use Rattle.row.specs.RowNumber.{row_number};
ghost use Rattle.test_probe.specs.Probe.{area_word, candidate_at, apex_f, has_place, sound_word};
ghost use Rattle.test_probe.specs.Probe.{group_of, place_of, bounds_of, params_of};

#[unsafe(no_mangle)]
pub extern "C" fn probe_max(a: f32, b: f32) -> f32
    ensures { result ≡ max_f a b }
{
    test_probe::probe_max(a, b)
}

#[unsafe(no_mangle)]
pub extern "C" fn probe_min(a: f32, b: f32) -> f32
    ensures { result ≡ min_f a b }
{
    test_probe::probe_min(a, b)
}

#[unsafe(no_mangle)]
pub extern "C" fn probe_abs(x: f32) -> f32
    ensures { result ≡ abs_f x }
{
    test_probe::probe_abs(x)
}

#[unsafe(no_mangle)]
pub extern "C" fn probe_clamp(x: f32, lo: f32, hi: f32) -> f32
    ensures { result ≡ clamp_f x lo hi }
{
    test_probe::probe_clamp(x, lo, hi)
}

#[unsafe(no_mangle)]
pub extern "C" fn probe_floor(x: f32) -> f32
    ensures { result ≡ floor_f x }
{
    test_probe::probe_floor(x)
}

#[unsafe(no_mangle)]
pub extern "C" fn probe_ceil(x: f32) -> f32
    ensures { result ≡ ceil_f x }
{
    test_probe::probe_ceil(x)
}

#[unsafe(no_mangle)]
pub extern "C" fn probe_round(x: f32) -> f32
    ensures { result ≡ round_f x }
{
    test_probe::probe_round(x)
}

#[unsafe(no_mangle)]
pub extern "C" fn probe_cast_sat(x: f32) -> u32
    ensures { result ≡ cast_f x }
{
    test_probe::probe_cast_sat(x)
}

#[unsafe(no_mangle)]
pub extern "C" fn probe_of_u32(n: u32) -> f32
    ensures { result ≡ of_int binary32 (pos n) }
{
    test_probe::probe_of_u32(n)
}

#[unsafe(no_mangle)]
pub extern "C" fn probe_word_of(x: f32) -> u32
    ensures { result ≡ to_bits binary32 x }
{
    test_probe::probe_word_of(x)
}

#[unsafe(no_mangle)]
pub extern "C" fn probe_float_of(w: u32) -> f32
    ensures { result ≡ of_bits binary32 w }
{
    test_probe::probe_float_of(w)
}

#[unsafe(no_mangle)]
pub extern "C" fn probe_lerp(a: f32, b: f32, t: f32) -> f32
    ensures { result ≡ lerp_f a b t }
{
    test_probe::probe_lerp(a, b, t)
}

#[unsafe(no_mangle)]
pub extern "C" fn probe_quad_subsample(y0: f32, y1: f32, y2: f32) -> f32
    ensures { result ≡ quad_f y0 y1 y2 }
{
    test_probe::probe_quad_subsample(y0, y1, y2)
}

// The number times 2 ^ 32, or the area's bit pattern.
#[unsafe(no_mangle)]
pub extern "C" fn probe_area(y: &[f32], x0: f32, x1: f32) -> u64
    ensures { result ≡ area_word (answer_by (area_number y.now x0 x1) (area_f y.now x0 x1)) }
{
    test_probe::probe_area(y, x0, x1)
}

// Of an index with a neighbour on either side.
#[unsafe(no_mangle)]
pub extern "C" fn probe_is_candidate(y: &[f32], i: usize) -> bool
    ensures { result ≡ candidate_at y.now i }
{
    test_probe::probe_is_candidate(y, i)
}

// Of an index: 19 its prominence, 20 the left crossing of its half height, any other number the right crossing; 0 past the row.
#[unsafe(no_mangle)]
pub extern "C" fn probe_apex(function: u32, y: &[f32], i: usize) -> f32
    ensures { result ≡ apex_f function y.now i }
{
    test_probe::probe_apex(function, y, i)
}

// Reads the record at place k of a list and writes it at place j of another, where both are there.
#[unsafe(no_mangle)]
pub extern "C" fn probe_move(list: &[u32], k: usize, out: &mut [u32], j: usize) -> bool
    ensures value { result ≡ (has_place list.now k && has_place out.old j) }
    ensures out_after { out.new ≡ cond result (with_peak out.old j (peak_at list.now k)) out.old }
{
    test_probe::probe_move(list, k, out, j)
}

// 1 where the record at place k is sound, 0 where it is not, 2 where there is none.
#[unsafe(no_mangle)]
pub extern "C" fn probe_sound(list: &[u32], k: usize) -> u32
    ensures { result ≡ sound_word list.now k }
{
    test_probe::probe_sound(list, k)
}

// The number, 0 for none.
#[unsafe(no_mangle)]
pub extern "C" fn probe_smooth(v: &mut [f32], weights: &[f32], scratch: &mut [f32]) -> u32
    ensures { result ≡ smooth_number v.old weights.now (length scratch.old) }
{
    test_probe::probe_smooth(v, weights, scratch)
}

// 64 times the count of peaks, and the number.
#[unsafe(no_mangle)]
pub extern "C" fn probe_find_im_peaks_row(
    y: &[f32],
    z: &[f32],
    tof_row: u32,
    tof_center: u32,
    tof_lo: u32,
    tof_hi: u32,
    rt_lo: u32,
    rt_hi: u32,
    frame_id_lo: u32,
    frame_id_hi: u32,
    grouped: bool,
    window_group: u32,
    mobility: &[f32],
    min_prom: f32,
    min_distance: u32,
    min_width: u32,
    axis: &[u32],
    first: u32,
    out: &mut [u32],
) -> u64
    ensures { result ≡ word_of itself (answer_by (row_number y.now z.now (place_of tof_row tof_center tof_lo tof_hi) (bounds_of rt_lo rt_hi frame_id_lo frame_id_hi (group_of grouped window_group)) mobility.now (params_of min_prom min_distance min_width) axis.now first (length out.old)) (length (kept (params_of min_prom min_distance min_width) y.now z.now))) }
{
    test_probe::probe_find_im_peaks_row(
        y,
        z,
        tof_row,
        tof_center,
        tof_lo,
        tof_hi,
        rt_lo,
        rt_hi,
        frame_id_lo,
        frame_id_hi,
        grouped,
        window_group,
        mobility,
        min_prom,
        min_distance,
        min_width,
        axis,
        first,
        out,
    )
}
