// Reading and writing records in lists that the caller has checked.
ghost use Rattle.std.specs.Prelude.{◌≡◌, ◌++◌, ◌≤◌, ◌+◌, ◌*◌, ◌/◌, ltb, eqb, length, take, drop, Bool, not, ◌||◌, Float};
ghost use Rattle.std.specs.Bool.{then_some};
ghost use Rattle.row_record.specs.Record.{size, id_at, words_of, peak_from, peak_at, with_peak};
ghost use Rattle.row_record.specs.Record.{modest, sound_tof, sound_frames, sound_options, sound_scans, sound_shape, sound, all_sound};

use super::{ImPeak1D, PeakId};

// Whether an identity is below another, and whether two are the same: `<` and `==`, under names that have promises of their own.
pub fn id_lt(a: PeakId, b: PeakId) -> bool
    ensures { result ≡ ltb a b }
{
    a < b
}

pub fn id_eq(a: PeakId, b: PeakId) -> bool
    ensures { result ≡ eqb a b }
{
    a == b
}

// The identity of the peak at place k of a list.
pub fn im_id(list: &[u32], k: usize) -> PeakId
    requires { k * size + size ≤ length list.now }
    ensures { result ≡ id_at list.now k }
{
    list[k * ImPeak1D::WORDS + ImPeak1D::ID]
}

// The peak of a record.
fn peak_from(words: &[u32; ImPeak1D::WORDS]) -> ImPeak1D
    ensures { result ≡ peak_from words.now 0 }
{
    ImPeak1D {
        tof_row: words[ImPeak1D::TOF_ROW],
        tof_center: words[ImPeak1D::TOF_CENTER],
        tof_lo: words[ImPeak1D::TOF_LO],
        tof_hi: words[ImPeak1D::TOF_HI],
        rt_lo: words[ImPeak1D::RT_LO],
        rt_hi: words[ImPeak1D::RT_HI],
        frame_id_lo: words[ImPeak1D::FRAME_ID_LO],
        frame_id_hi: words[ImPeak1D::FRAME_ID_HI],
        flags: words[ImPeak1D::FLAGS],
        window_group: words[ImPeak1D::WINDOW_GROUP],
        scan: words[ImPeak1D::SCAN],
        left: words[ImPeak1D::LEFT],
        right: words[ImPeak1D::RIGHT],
        scan_abs: words[ImPeak1D::SCAN_ABS],
        left_abs: words[ImPeak1D::LEFT_ABS],
        right_abs: words[ImPeak1D::RIGHT_ABS],
        scan_sigma: numeric::float_of(words[ImPeak1D::SCAN_SIGMA]),
        mobility: numeric::float_of(words[ImPeak1D::MOBILITY]),
        apex_smoothed: numeric::float_of(words[ImPeak1D::APEX_SMOOTHED]),
        apex_raw: numeric::float_of(words[ImPeak1D::APEX_RAW]),
        prominence: numeric::float_of(words[ImPeak1D::PROMINENCE]),
        left_x: numeric::float_of(words[ImPeak1D::LEFT_X]),
        right_x: numeric::float_of(words[ImPeak1D::RIGHT_X]),
        width_scans: words[ImPeak1D::WIDTH_SCANS],
        area_raw: numeric::float_of(words[ImPeak1D::AREA_RAW]),
        subscan: numeric::float_of(words[ImPeak1D::SUBSCAN]),
        id: im_id(words, 0),
    }
}

// The peak at place k of a list.
pub fn peak_at(list: &[u32], k: usize) -> ImPeak1D
    requires { k * size + size ≤ length list.now }
    ensures { result ≡ peak_at list.now k }
{
    let (records, _) = list.as_chunks::<{ ImPeak1D::WORDS }>();
    peak_from(&records[k])
}

// The record of a peak.
fn words_of(p: ImPeak1D) -> [u32; ImPeak1D::WORDS]
    ensures { result ≡ words_of p }
{
    [
        p.tof_row,
        p.tof_center,
        p.tof_lo,
        p.tof_hi,
        p.rt_lo,
        p.rt_hi,
        p.frame_id_lo,
        p.frame_id_hi,
        p.flags,
        p.window_group,
        p.scan,
        p.left,
        p.right,
        p.scan_abs,
        p.left_abs,
        p.right_abs,
        numeric::word_of(p.scan_sigma),
        numeric::word_of(p.mobility),
        numeric::word_of(p.apex_smoothed),
        numeric::word_of(p.apex_raw),
        numeric::word_of(p.prominence),
        numeric::word_of(p.left_x),
        numeric::word_of(p.right_x),
        p.width_scans,
        numeric::word_of(p.area_raw),
        numeric::word_of(p.subscan),
        p.id,
    ]
}

// Writes a peak to place k of a list.
pub fn put_peak(out: &mut [u32], k: usize, p: ImPeak1D)
    requires { k * size + size ≤ length out.old }
    ensures { out.new ≡ with_peak out.old k p }
{
    let at = k * ImPeak1D::WORDS;
    out[at..at + ImPeak1D::WORDS].copy_from_slice(&words_of(p));
}

// What number 9 asks of the fields, by the words of its record: a float from 0 to a limit has a word up
// to the limit's, every other float a higher one, and floats from 0 on compare as their words.
#[tactic(auto, unfolding(crate::specs::Record::sound_tof, crate::specs::Record::peak_from))]
fn sound_tof(w: &[u32; ImPeak1D::WORDS]) -> bool
    ensures { result ≡ sound_tof (peak_from w.now 0) }
{
    (w[ImPeak1D::TOF_ROW] <= limits::LAST_ROW)
        & (w[ImPeak1D::TOF_CENTER] <= limits::MAX_TOF_BOUND)
        & (w[ImPeak1D::TOF_LO] <= w[ImPeak1D::TOF_HI])
        & (w[ImPeak1D::TOF_HI] <= limits::MAX_TOF_BOUND)
}

#[tactic(auto, unfolding(crate::specs::Record::sound_frames, crate::specs::Record::peak_from))]
fn sound_frames(w: &[u32; ImPeak1D::WORDS]) -> bool
    ensures { result ≡ sound_frames (peak_from w.now 0) }
{
    (w[ImPeak1D::RT_LO] <= w[ImPeak1D::RT_HI])
        & (w[ImPeak1D::RT_HI] <= limits::LAST_FRAME)
        & (w[ImPeak1D::FRAME_ID_LO] <= w[ImPeak1D::FRAME_ID_HI])
}

// Whether a value is not above the highest mobility, or is missing.
fn is_modest(value: Option<f32>) -> bool
    ensures { (there : Bool) (x : Float) → value ≡ then_some there x → result ≡ (not there || modest x) }
{
    value.is_none_or(|x| numeric::in_range(x, limits::MAX_MOBILITY))
}

fn sound_options(w: &[u32; ImPeak1D::WORDS]) -> bool
    ensures { result ≡ sound_options (peak_from w.now 0) }
{
    let p = peak_from(w);
    (p.flags <= 7) & is_modest(p.sigma()) & is_modest(p.mobility())
}

#[tactic(auto, unfolding(crate::specs::Record::sound_scans, crate::specs::Record::peak_from))]
fn sound_scans(w: &[u32; ImPeak1D::WORDS]) -> bool
    ensures { result ≡ sound_scans (peak_from w.now 0) }
{
    (w[ImPeak1D::SCAN] <= limits::LAST_SAMPLE)
        & (w[ImPeak1D::LEFT] <= w[ImPeak1D::RIGHT])
        & (w[ImPeak1D::RIGHT] <= limits::LAST_SAMPLE)
        & (w[ImPeak1D::SCAN_ABS] <= limits::MAX_SCAN)
        & (w[ImPeak1D::LEFT_ABS] <= w[ImPeak1D::RIGHT_ABS])
        & (w[ImPeak1D::RIGHT_ABS] <= limits::MAX_SCAN)
}

fn sound_shape(w: &[u32; ImPeak1D::WORDS]) -> bool
    ensures { result ≡ sound_shape (peak_from w.now 0) }
{
    let w = w.as_slice();
    (w[ImPeak1D::APEX_SMOOTHED] <= limits::MAX_HEIGHT)
        & (w[ImPeak1D::APEX_RAW] <= limits::MAX_HEIGHT)
        & (w[ImPeak1D::PROMINENCE] <= limits::MAX_HEIGHT)
        & (w[ImPeak1D::RIGHT_X] <= limits::MAX_PLACE)
        & (w[ImPeak1D::LEFT_X] <= w[ImPeak1D::RIGHT_X])
        & (w[ImPeak1D::WIDTH_SCANS] <= limits::MAX_WIDTH)
        & (w[ImPeak1D::AREA_RAW] <= limits::MAX_AREA)
        & (w[ImPeak1D::SUBSCAN] % 0x8000_0000 <= limits::MAX_OFFSET)
}

// Whether number 9 does not apply to a record: every field in range, and no low bound above its high one.
#[tactic(auto, unfolding(crate::specs::Record::sound))]
fn sound_words(w: &[u32; ImPeak1D::WORDS]) -> bool
    ensures { result ≡ sound (peak_from w.now 0) }
{
    sound_tof(w) & sound_frames(w) & sound_options(w) & sound_scans(w) & sound_shape(w)
}

// Whether it does not apply to a peak.
pub fn is_sound(p: ImPeak1D) -> bool
    ensures { result ≡ sound p }
{
    sound_words(&words_of(p))
}

// Whether it applies to none of the peaks of a list.
pub fn all_sound(list: &[u32]) -> bool
    ensures { result ≡ all_sound list.now (length list.now / size) }
{
    let (records, _) = list.as_chunks::<{ ImPeak1D::WORDS }>();
    records.iter().all(|words| sound_words(words))
}
