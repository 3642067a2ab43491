// The retention peaks of a mobility peak over a run that the caller has checked.
ghost use Rattle.std.specs.Prelude.{◌≡◌, map, ◌≤◌, length};
ghost use Rattle.row_smoothing.specs.Smoothing.{smoothed};
ghost use Rattle.rt_listing.specs.Places.{index_at};
ghost use Rattle.expand_trace.specs.FallbackPeaks.{Put};
ghost use Rattle.expand_peak.specs.Steps.{apexes_of, placed_apexes, followed, Listable, Searchable, Smoothable, Followable};

use super::scratch::TraceScratch;
use expand_trace::inner::{Placing, Way};
use row_record::PeakId;
use row_search::scratch::Scratch;
use rt_apex::inner::Trace;
use rt_params::RtExpandParams;
use rt_search::inner::Sought;

// Writes the retention peaks of the apexes of an order to the front of `out`.
fn put_listed(trace: Trace, found: &[u32], order: &[u32], at: Placing, out: &mut [u32])
    requires { Listable trace.smoothed.now trace.raw.now trace.times.now found.now order.now at.lo at.ids.now at.first (length out.old) }
    ensures { Put (placed_apexes at.entry.lo at.entry.ids.now at.entry.peak trace.entry.smoothed.now trace.entry.raw.now trace.entry.times.now (map (index_at found.now) order.now) at.entry.first) out.old (length order.now) out.new }
{
    let n = trace.smoothed.len();
    for (k, &p) in order.iter().enumerate() {
        let l = rt_search::inner::local_peak(trace, found, p);
        let id = at.first + k as PeakId;
        let q = expand_placed::inner::place_apex(at.lo, n, at.ids, at.peak, l.apex, id);
        rt_record::inner::put_rt_peak(out, k, q);
    }
}

// Searches a trace and writes the retention peaks of its listed apexes to the front of `out`. Answers how many there are. The scratch and
// the order stand apart, since the trace borrows the smoothed list of the same struct.
fn search_smoothed(
    trace: Trace,
    e: RtExpandParams,
    at: Placing,
    scratch: &mut Scratch<'_>,
    order: &mut [u32],
    out: &mut [u32],
) -> usize
    requires { Searchable trace.smoothed.now trace.raw.now trace.times.now at.lo at.ids.now at.first (length out.old) scratch.old.samples (length order.old) }
    ensures put { Put (apexes_of e at.entry.lo at.entry.ids.now at.entry.peak trace.entry.smoothed.now trace.entry.raw.now trace.entry.times.now at.entry.first) out.old result out.new }
    ensures samples { scratch.new.samples ≡ scratch.old.samples }
{
    let noise = rt_noise::inner::robust_noise_mad(trace.smoothed);
    let sought = Sought {
        floor: e.min_prom.effective(noise),
        sep: e.min_sep_sec,
        min_width: e.min_width_sec,
    };
    let n = rt_search::inner::find_rt_apexes(trace, sought, scratch, order);
    put_listed(trace, scratch.found, &order[..n], at, out);
    n
}

// A mobility peak's trace over its window: the readings and the times of these frames, what is asked of their apexes, the weights that the
// readings are smoothed with, and where the peak's retention peaks are placed.
#[derive(Clone, Copy)]
pub struct WindowTrace<'a> {
    pub readings: &'a [f32],
    pub times: &'a [f32],
    pub params: RtExpandParams,
    pub weights: &'a [f32],
    pub at: Placing<'a>,
}

impl<'a> WindowTrace<'a> {
    // Smooths the trace and does the same.
    fn search(self, scratch: &mut TraceScratch<'_, '_>, out: &mut [u32]) -> usize
        requires { Smoothable self.readings.now self.times.now self.weights.now self.at.lo self.at.ids.now self.at.first (length out.old) scratch.old.search.samples }
        ensures put { Put (apexes_of self.entry.params self.entry.at.lo self.entry.at.ids.now self.entry.at.peak (smoothed self.entry.weights.now self.entry.readings.now) self.entry.readings.now self.entry.times.now self.entry.at.first) out.old result out.new }
        ensures samples { scratch.new.search.samples ≡ scratch.old.search.samples }
    {
        row_smoothing::inner::smooth(self.readings, self.weights, scratch.smooth);
        let n = self.readings.len();
        let trace = Trace {
            smoothed: &scratch.smooth[..n],
            raw: self.readings,
            times: self.times,
        };
        search_smoothed(
            trace,
            self.params,
            self.at,
            &mut scratch.search,
            scratch.order,
            out,
        )
    }

    // Follows the mobility peak by the way that the trace takes: writes its retention peaks to the front of `out` and answers how many
    // they are.
    pub fn follow(self, scratch: &mut TraceScratch<'_, '_>, out: &mut [u32]) -> usize
        requires { Followable self.readings.now self.times.now self.weights.now self.at.lo self.at.ids.now self.at.times.now self.at.first (length out.old) scratch.old.search.samples }
        ensures put { Put (followed self.entry.params self.entry.weights.now self.entry.at.ids.now self.entry.at.times.now self.entry.at.peak self.entry.at.lo self.entry.readings.now self.entry.times.now self.entry.at.first) out.old result out.new }
        ensures samples { scratch.new.search.samples ≡ scratch.old.search.samples }
    {
        let frac = self.params.fallback_frac_width;
        match expand_trace::inner::way_of(self.readings, self.params.fallback_if_frames_lt) {
            Way::AllZero => 0,
            Way::TooShort => self.at.put_fallback(self.readings, frac, out),
            Way::Smoothed => {
                let n = self.search(scratch, out);
                if n == 0 {
                    return self.at.put_fallback(self.readings, frac, out);
                }
                n
            }
        }
    }
}
