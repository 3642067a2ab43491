// The mobility peaks of one TOF row over its scans.
#![tactic(auto)]

pub mod column;
pub mod inner;
pub mod written;

ghost use Rattle.std.specs.Prelude.{◌≡◌, length};
ghost use Rattle.refusal.specs.Answers.{answer_by};
ghost use Rattle.refusal.specs.Numbered.{number_in, says};
ghost use Rattle.row_search.specs.Qualifying.{kept};
ghost use Rattle.row.specs.RowNumber.{same_lengths, sound_readings, sound_values, sound_axis, row_number, row_list};

use inner::WordRow;
use refusal::Refusal;
use row_params::ImDetectParams;
use row_record::{ImPeak1D, PeakId};

// The parts of the numbers 1, 3, 4 and 5.
#[tactic(auto, unfolding(crate::specs::RowNumber::same_lengths))]
fn same_lengths(row: &WordRow<'_>) -> bool
    ensures { result ≡ same_lengths row.now.y.now row.now.z.now row.now.mobility.now row.now.axis.now }
{
    let n = row.y.len();
    (row.z.len() == n) & (row.axis.len() == n) & row_params::inner::lent_or_empty(n, row.mobility)
}

#[tactic(auto, unfolding(crate::specs::RowNumber::sound_readings))]
fn sound_readings(row: &WordRow<'_>) -> bool
    ensures { result ≡ sound_readings row.now.y.now row.now.z.now }
{
    numeric::inner::all_in_range(row.y, limits::MAX_HEIGHT)
        & numeric::inner::all_in_range(row.z, limits::MAX_READING)
}

#[tactic(auto, unfolding(crate::specs::RowNumber::sound_values))]
fn sound_values(row: &WordRow<'_>, p: ImDetectParams, first: PeakId) -> bool
    ensures { result ≡ sound_values (length row.now.y.now) row.now.place row.now.bounds row.now.mobility.now p first }
{
    p.is_sound()
        & numeric::inner::all_in_range(row.mobility, limits::MAX_MOBILITY)
        & row.bounds.is_sound()
        & (row.place.tof_row <= limits::LAST_ROW)
        & row_params::inner::enough_ids(first, row_params::inner::most_peaks(row.y.len()))
}

#[tactic(auto, unfolding(crate::specs::RowNumber::sound_axis))]
fn sound_axis(row: &WordRow<'_>) -> bool
    ensures { result ≡ sound_axis row.now.place row.now.axis.now }
{
    row_params::inner::all_up_to(limits::MAX_SCAN, row.axis) & row.place.is_sound()
}

// Refuses with the lowest number that applies; `room` is the length of the lent list.
#[tactic(auto, unfolding(crate::specs::RowNumber::row_number, refusal::specs::Refusal::first_of))]
fn check(row: &WordRow<'_>, p: ImDetectParams, first: PeakId, room: usize) -> Result<(), Refusal>
    ensures { number_in result ≡ row_number row.now.y.now row.now.z.now row.now.place row.now.bounds row.now.mobility.now p row.now.axis.now first room }
{
    if !same_lengths(row) {
        return Err(Refusal::Lengths);
    }
    if row.y.len() > limits::MAX_SAMPLES {
        return Err(Refusal::Size);
    }
    if !sound_readings(row) {
        return Err(Refusal::Reading);
    }
    if !sound_values(row, p, first) {
        return Err(Refusal::Value);
    }
    if !sound_axis(row) {
        return Err(Refusal::Axis);
    }
    if !row_params::inner::is_rising(row.axis) {
        return Err(Refusal::Order);
    }
    if room < row_params::inner::most_peaks(row.y.len()) * ImPeak1D::WORDS {
        return Err(Refusal::Room);
    }
    Ok(())
}

// Writes the records of a row's peaks to the front of `out`, or refuses and leaves `out` as it is.
pub fn find_im_peaks_row(
    row: &WordRow<'_>,
    p: ImDetectParams,
    first: PeakId,
    out: &mut [u32],
) -> Result<usize, Refusal>
    ensures answer { says result ≡ answer_by (row_number row.now.y.now row.now.z.now row.now.place row.now.bounds row.now.mobility.now p row.now.axis.now first (length out.old)) (length (kept p row.now.y.now row.now.z.now)) }
    ensures words { out.new ≡ row_list row.now.y.now row.now.z.now row.now.place row.now.bounds row.now.mobility.now p row.now.axis.now first out.old }
{
    check(row, p, first, out.len())?;
    Ok(inner::find_im_peaks_row(row, p, first, out))
}
