// The numbers of expansion's second call.
ghost use Rattle.std.specs.Prelude.{◌≡◌, ◌&&◌, ◌/◌, ◌%◌, eqb, length, IfOk};
ghost use Rattle.refusal.specs.Numbered.{number_in};
ghost use Rattle.row_record.specs.Record.{size};
ghost use Rattle.expand_numbers.specs.ExpandNumber.{sums_to, paired_axes};
ghost use Rattle.expand_many.specs.Calls.{many_lent};
ghost use Rattle.expand.specs.ExpandCall.{many_asks, many_number};
ghost use Rattle.expand.specs.Lists.{lent_in};

use super::lent::Lent;
use expand_many::peaks::PeakList;
use expand_one::run::Run;
use frames_index::CheckedIndex;
use frames_index::numbers::Further;
use refusal::Refusal;
use row_record::ImPeak1D;
use rt_params::RtExpandParams;

// Whether lists that belong together have lengths that agree; `starts` is the count of starts.
fn same_lengths(run: &Run<'_>, starts: usize, peaks: &PeakList<'_>) -> bool
    ensures { result ≡ (eqb (length peaks.now.list.now % size) 0 && eqb (length peaks.now.lengths.now) (length peaks.now.list.now / size) && sums_to peaks.now.lengths.now (length peaks.now.weights.now) && paired_axes starts (length run.now.ids.now) (length run.now.times.now)) }
{
    (peaks.list.len() % ImPeak1D::WORDS == 0)
        & (peaks.lengths.len() == peaks.list.len() / ImPeak1D::WORDS)
        & expand_numbers::inner::sums_to(peaks.lengths, peaks.weights.len())
        & expand_numbers::inner::paired_axes(starts, run.ids.len(), run.times.len())
}

// What a call is asked besides its index; `counts` is the length of the column of counts.
#[tactic(auto, unfolding(crate::specs::ExpandCall::many_asks, expand_numbers::specs::ExpandNumber::rising_axes))]
fn many_asks(
    run: &Run<'_>,
    e: RtExpandParams,
    peaks: &PeakList<'_>,
    lent: &Lent<'_>,
    counts: usize,
) -> Further
    ensures { result ≡ many_asks (many_lent run.now e peaks.now) (lent_in lent.now) counts }
{
    let n = peaks.list.len() / ImPeak1D::WORDS;
    let f = run.ids.len();
    let most = expand_numbers::inner::most_of(f);
    let index = run.index;
    let scale = run.scale;
    Further {
        lengths: same_lengths(run, index.starts.len(), peaks),
        sizes: n <= limits::MAX_LIST,
        values: expand_numbers::inner::sound_values(
            e,
            scale.tof_step,
            run.times,
            peaks.first,
            n,
            most,
        ),
        axes: tof_scale::inner::sound_ends(scale),
        weights: expand_numbers::inner::all_weights(peaks.lengths, peaks.weights),
        order: rt_time::inner::rising_axes(run.ids, run.times),
        records: row_record::inner::all_sound(peaks.list),
        room: expand_numbers::inner::enough_room(n, most, lent.out.len()) & (n <= counts),
        scratch: expand_numbers::inner::enough_scratch(
            f,
            lent.raw.len(),
            lent.smooth.len(),
            lent.order.len(),
        ),
        scale: tof_scale::inner::agrees(scale),
    }
}

// The index as a checked one, or the lowest number that applies.
pub fn check<'a>(
    run: &Run<'a>,
    e: RtExpandParams,
    peaks: &PeakList<'_>,
    lent: &Lent<'_>,
    counts: usize,
) -> Result<CheckedIndex<'a>, Refusal>
    ensures number { number_in result ≡ many_number (many_lent run.now e peaks.now) (lent_in lent.now) counts }
    ensures same { IfOk result (λ ix. ix ≡ run.now.index.now) }
{
    run.index.check(limits::MAX_READING, many_asks(run, e, peaks, lent, counts))
}
