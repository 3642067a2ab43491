// Expansion: mobility peaks followed along retention time.
#![tactic(auto)]

pub mod inner;
pub mod lent;
mod numbers;
mod sized;

ghost use Rattle.std.specs.Prelude.{◌≡◌};
ghost use Rattle.expand_one.specs.Runs.{run_lent};
ghost use Rattle.expand_many.specs.Calls.{many_lent};
ghost use Rattle.expand.specs.Lists.{lent_in, SameLists, SameLengths};
ghost use Rattle.expand.specs.ExpandCall.{ManyAnswered, OneAnswered};

use expand_many::peaks::PeakList;
use expand_one::run::{FollowedRun, Run};
use lent::Lent;
use refusal::Refusal;
use row_record::PeakId;
use rt_params::RtExpandParams;

// Writes the retention peaks of all mobility peaks of a list, one after another, to the front of `out`, and for each mobility peak how
// many it has to the front of `counts`; answers how many there are in all. Or refuses and leaves all five lists as they are.
pub fn expand_many_im_peaks_along_rt(
    run: &Run<'_>,
    e: RtExpandParams,
    peaks: PeakList<'_>,
    lent: &mut Lent<'_>,
    counts: &mut [u32],
) -> Result<usize, Refusal>
    ensures answer { ManyAnswered (many_lent run.now e peaks.entry) (lent_in lent.old) (lent_in lent.new) counts.old counts.new result }
    ensures same { SameLists lent.old lent.new }
    ensures lengths { SameLengths lent.old lent.new }
{
    let index = numbers::check(run, e, &peaks, lent, counts.len())?;
    let followed = FollowedRun {
        index: &index,
        ids: run.ids,
        times: run.times,
        scale: run.scale,
        params: e,
    };
    Ok(inner::expand_lent(&followed, &peaks, lent, counts))
}

// Writes the retention peaks of the mobility peak whose record is handed in to the front of `out` and answers how many there are; or
// refuses and leaves all four lists as they are. As many of the first weights are handed on as tell whether they are sound.
pub fn expand_im_peak_along_rt(
    run: &Run<'_>,
    e: RtExpandParams,
    peak: &[u32],
    weights: &[f32],
    first: PeakId,
    lent: &mut Lent<'_>,
) -> Result<usize, Refusal>
    ensures answer { OneAnswered (run_lent run.now) e peak.now weights.now first (lent_in lent.old) (lent_in lent.new) result }
    ensures same { SameLists lent.old lent.new }
    ensures lengths { SameLengths lent.old lent.new }
{
    let k = weights.len().min(258);
    let lengths = [k as u32];
    let mut counts = [0u32; 1];
    let peaks = PeakList {
        list: peak,
        weights: &weights[..k],
        lengths: &lengths,
        first,
    };
    expand_many_im_peaks_along_rt(run, e, peaks, lent, &mut counts)
}
