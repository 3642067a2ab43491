// Reading and writing records in lists that the caller has checked. Both kinds of records have the same few functions: a trait over
// both would have more lines than they have.
ghost use Rattle.std.specs.Prelude.{◌≡◌, ◌≤◌, ◌+◌, ◌*◌, length};
ghost use Rattle.rt_record.specs.RtRecord.{apex_size, rt_size, local_size, apex_words, rt_own_words, local_own_words};
ghost use Rattle.rt_record.specs.RtRecord.{apex_from, rt_parent_at, rt_id_at, rt_peak_from, rt_peak_at, local_from, local_at, with_rt_peak, with_local};
ghost use Rattle.rt_record.specs.RtRecord.{rt_peak_of};

use super::{PeakId, RtApex, RtBounds, RtLocalPeak, RtPeak1D};
use row_record::ImPeak1D;

// ---- what a retention peak takes over from its mobility peak

// The retention peak of a mobility peak with this apex, these bounds and this identity.
#[tactic(auto, unfolding(crate::specs::RtRecord::rt_peak_of))]
pub fn rt_peak_of(apex: RtApex, b: RtBounds, parent: ImPeak1D, id: PeakId) -> RtPeak1D
    ensures { result ≡ rt_peak_of apex b parent id }
{
    let group = parent.group();
    RtPeak1D {
        apex,
        rt_lo: b.rt_lo,
        rt_hi: b.rt_hi,
        frame_id_lo: b.frame_id_lo,
        frame_id_hi: b.frame_id_hi,
        flags: u32::from(group.is_some()) * RtPeak1D::HAS_GROUP,
        window_group: group.unwrap_or(0),
        tof_row: parent.tof_row,
        tof_center: parent.tof_center,
        tof_lo: parent.tof_lo,
        tof_hi: parent.tof_hi,
        parent_im_id: parent.id,
        id,
    }
}

// ---- identities

// The identity of the mobility peak from which the retention peak at place k of a list was expanded.
pub fn rt_parent(list: &[u32], k: usize) -> PeakId
    requires { k * rt_size + rt_size ≤ length list.now }
    ensures { result ≡ rt_parent_at list.now k }
{
    list[k * RtPeak1D::WORDS + RtPeak1D::PARENT_IM_ID]
}

// Its own identity.
pub fn rt_id(list: &[u32], k: usize) -> PeakId
    requires { k * rt_size + rt_size ≤ length list.now }
    ensures { result ≡ rt_id_at list.now k }
{
    list[k * RtPeak1D::WORDS + RtPeak1D::ID]
}

// ---- reading

// The apex at the front of a list.
#[tactic(auto, unfolding(crate::specs::RtRecord::apex_from))]
fn first_apex(list: &[u32]) -> RtApex
    requires { apex_size ≤ length list.now }
    ensures { result ≡ apex_from list.now 0 }
{
    RtApex {
        rt_idx: list[RtApex::RT_IDX],
        rt_sec: numeric::float_of(list[RtApex::RT_SEC]),
        apex_smoothed: numeric::float_of(list[RtApex::APEX_SMOOTHED]),
        apex_raw: numeric::float_of(list[RtApex::APEX_RAW]),
        prominence: numeric::float_of(list[RtApex::PROMINENCE]),
        left_x: numeric::float_of(list[RtApex::LEFT_X]),
        right_x: numeric::float_of(list[RtApex::RIGHT_X]),
        width_frames: list[RtApex::WIDTH_FRAMES],
        area_raw: numeric::float_of(list[RtApex::AREA_RAW]),
        subframe: numeric::float_of(list[RtApex::SUBFRAME]),
    }
}

// The retention peak at the front of a list.
#[tactic(auto, unfolding(crate::specs::RtRecord::rt_peak_from))]
fn first_rt_peak(list: &[u32]) -> RtPeak1D
    requires { rt_size ≤ length list.now }
    ensures { result ≡ rt_peak_from list.now 0 }
{
    let apex = first_apex(list);
    RtPeak1D {
        apex,
        rt_lo: list[RtPeak1D::RT_LO],
        rt_hi: list[RtPeak1D::RT_HI],
        frame_id_lo: list[RtPeak1D::FRAME_ID_LO],
        frame_id_hi: list[RtPeak1D::FRAME_ID_HI],
        flags: list[RtPeak1D::FLAGS],
        window_group: list[RtPeak1D::WINDOW_GROUP],
        tof_row: list[RtPeak1D::TOF_ROW],
        tof_center: list[RtPeak1D::TOF_CENTER],
        tof_lo: list[RtPeak1D::TOF_LO],
        tof_hi: list[RtPeak1D::TOF_HI],
        parent_im_id: rt_parent(list, 0),
        id: rt_id(list, 0),
    }
}

// The retention peak at place k of a list.
pub fn rt_peak_at(list: &[u32], k: usize) -> RtPeak1D
    requires { k * rt_size + rt_size ≤ length list.now }
    ensures { result ≡ rt_peak_at list.now k }
{
    let at = k * RtPeak1D::WORDS;
    first_rt_peak(&list[at..])
}

// The local peak at the front of a list.
#[tactic(auto, unfolding(crate::specs::RtRecord::local_from))]
fn first_local(list: &[u32]) -> RtLocalPeak
    requires { local_size ≤ length list.now }
    ensures { result ≡ local_from list.now 0 }
{
    let apex = first_apex(list);
    RtLocalPeak {
        apex,
        left_sec: numeric::float_of(list[RtLocalPeak::LEFT_SEC]),
        right_sec: numeric::float_of(list[RtLocalPeak::RIGHT_SEC]),
        width_sec: numeric::float_of(list[RtLocalPeak::WIDTH_SEC]),
    }
}

// The local peak at place k of a list.
pub fn local_at(list: &[u32], k: usize) -> RtLocalPeak
    requires { k * local_size + local_size ≤ length list.now }
    ensures { result ≡ local_at list.now k }
{
    let at = k * RtLocalPeak::WORDS;
    first_local(&list[at..])
}

// ---- writing

// The words of an apex.
fn apex_words(a: RtApex) -> [u32; RtApex::WORDS]
    ensures { result ≡ apex_words a }
{
    [
        a.rt_idx,
        numeric::word_of(a.rt_sec),
        numeric::word_of(a.apex_smoothed),
        numeric::word_of(a.apex_raw),
        numeric::word_of(a.prominence),
        numeric::word_of(a.left_x),
        numeric::word_of(a.right_x),
        a.width_frames,
        numeric::word_of(a.area_raw),
        numeric::word_of(a.subframe),
    ]
}

// The words of a retention peak behind its apex.
fn rt_own_words(p: RtPeak1D) -> [u32; RtPeak1D::WORDS - RtApex::WORDS]
    ensures { result ≡ rt_own_words p }
{
    [
        p.rt_lo,
        p.rt_hi,
        p.frame_id_lo,
        p.frame_id_hi,
        p.flags,
        p.window_group,
        p.tof_row,
        p.tof_center,
        p.tof_lo,
        p.tof_hi,
        p.parent_im_id,
        p.id,
    ]
}

// Writes a retention peak to place k of a list.
pub fn put_rt_peak(out: &mut [u32], k: usize, p: RtPeak1D)
    requires { k * rt_size + rt_size ≤ length out.old }
    ensures { out.new ≡ with_rt_peak out.old k p }
{
    let at = k * RtPeak1D::WORDS;
    let own = at + RtApex::WORDS;
    out[at..own].copy_from_slice(&apex_words(p.apex));
    out[own..at + RtPeak1D::WORDS].copy_from_slice(&rt_own_words(p));
}

// The words of a local peak behind its apex.
fn local_own_words(p: RtLocalPeak) -> [u32; RtLocalPeak::WORDS - RtApex::WORDS]
    ensures { result ≡ local_own_words p }
{
    [
        numeric::word_of(p.left_sec),
        numeric::word_of(p.right_sec),
        numeric::word_of(p.width_sec),
    ]
}

// Writes a local peak to place k of a list.
pub fn put_local(out: &mut [u32], k: usize, p: RtLocalPeak)
    requires { k * local_size + local_size ≤ length out.old }
    ensures { out.new ≡ with_local out.old k p }
{
    let at = k * RtLocalPeak::WORDS;
    let own = at + RtApex::WORDS;
    out[at..own].copy_from_slice(&apex_words(p.apex));
    out[own..at + RtLocalPeak::WORDS].copy_from_slice(&local_own_words(p));
}
