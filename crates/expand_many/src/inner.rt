// Mobility peaks expanded one after another over a run that the caller has checked.
ghost use Rattle.std.specs.Prelude.{◌≡◌, ◌≤◌, length, take, drop};
ghost use Rattle.row_record.specs.Record.{peak_at};
ghost use Rattle.expand_peak.specs.Expanded.{expanded};
ghost use Rattle.expand_one.specs.Runs.{run_in};
ghost use Rattle.expand_many.specs.Calls.{many_in};
ghost use Rattle.expand_many.specs.Steps.{Ready, Done, Reachable, PutBehind};

use super::peaks::PeakList;
use expand_one::run::FollowedRun;
use expand_one::scratch::RunScratch;
use row_record::PeakId;
use rt_record::RtPeak1D;

// The turn of the mobility peak at a place: its weights are the `len` ones from `at` on, its first identity, and how many retention peaks
// come before its own.
#[derive(Clone, Copy)]
struct Turn {
    place: usize,
    at: usize,
    len: usize,
    first: PeakId,
    total: usize,
}

// Writes the retention peaks of the mobility peak whose turn it is behind those before them and answers how many there are.
fn expand_at(
    run: &FollowedRun<'_>,
    peaks: &PeakList<'_>,
    turn: Turn,
    scratch: &mut RunScratch<'_, '_, '_>,
    out: &mut [u32],
) -> usize
    requires { Reachable (run_in run.now) peaks.now.list.now turn.place peaks.now.weights.now turn.at turn.len turn.first turn.total (length out.old)
        × (length run.now.ids.now ≤ scratch.old.trace.search.samples) }
    ensures put { PutBehind (expanded (run_in run.now) run.now.params (take turn.len (drop turn.at peaks.now.weights.now)) (peak_at peaks.now.list.now turn.place) turn.first) out.old turn.total result out.new }
    ensures samples { scratch.new.trace.search.samples ≡ scratch.old.trace.search.samples }
{
    let p = row_record::inner::peak_at(peaks.list, turn.place);
    let end = turn.at + turn.len;
    let from = turn.total * RtPeak1D::WORDS;
    let weights = &peaks.weights[turn.at..end];
    expand_one::inner::expand_peak(run, weights, p, turn.first, scratch, &mut out[from..])
}

// Writes the retention peaks of all mobility peaks of a list to the front of `out`, one peak's after another's, with identities that run
// on, and how many each has to the front of `counts`. Answers how many there are in all. The number i tells the record too, so that with a
// `zip` of lengths and counts the loop would count besides. `at` is kept, and no rest of the weights as in `all_weights` of expand_numbers:
// the sums of counts and lengths so far are what the facts about a turn speak of.
pub fn expand_peaks(
    run: &FollowedRun<'_>,
    peaks: &PeakList<'_>,
    scratch: &mut RunScratch<'_, '_, '_>,
    out: &mut [u32],
    counts: &mut [u32],
) -> usize
    requires { Ready (many_in run.now peaks.now) (length peaks.now.lengths.now) (length out.old) (length counts.old)
        × (length run.now.ids.now ≤ scratch.old.trace.search.samples) }
    ensures done { Done (many_in run.now peaks.now) (length peaks.now.lengths.now) out.old counts.old result out.new counts.new }
    ensures samples { scratch.new.trace.search.samples ≡ scratch.old.trace.search.samples }
{
    let mut total = 0usize;
    let mut at = 0usize;
    for (i, &length) in peaks.lengths.iter().enumerate() {
        let len = length as usize;
        let turn = Turn {
            place: i,
            at,
            len,
            first: peaks.first + total as PeakId,
            total,
        };
        let r = expand_at(run, peaks, turn, scratch, out);
        counts[i] = r as u32;
        total += r;
        at += len;
    }
    total
}
