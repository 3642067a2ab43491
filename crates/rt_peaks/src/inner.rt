// The records of the retention peaks of a trace that the caller has checked.
ghost use Rattle.std.specs.Prelude.{◌≡◌, ◌++◌, ◌≤◌, ◌*◌, length, drop};
ghost use Rattle.limits.specs.Limits.{max_frames};
ghost use Rattle.row_params.specs.Params.{most_peaks};
ghost use Rattle.row_search.specs.Room.{Sizes};
ghost use Rattle.row_search.specs.SameLists.{SameLists};
ghost use Rattle.rt_record.specs.RtRecord.{local_size};
ghost use Rattle.rt_search.specs.Steps.{RtSearchable};
ghost use Rattle.rt_peaks.specs.Trace.{peak_words};
ghost use Rattle.rt_peaks.specs.Steps.{peaks_at, Writable, Checked, Listed};

use row_search::scratch::{Arrays, Scratch};
use rt_apex::inner::Trace;
use rt_search::inner::Sought;

// Writes the records of the apexes of an order to the front of `out`.
pub fn put_rt_peaks(trace: Trace, found: &[u32], order: &[u32], out: &mut [u32])
    requires { Writable trace.smoothed.now trace.raw.now trace.times.now found.now order.now (length order.now) (length out.old) }
    ensures { out.new ≡ peak_words (peaks_at trace.entry.smoothed.now trace.entry.raw.now trace.entry.times.now found.now order.now) ++ drop (length order.now * local_size) out.old }
{
    for (k, &p) in order.iter().enumerate() {
        rt_record::inner::put_local(out, k, rt_search::inner::local_peak(trace, found, p));
    }
}

// Writes the records of the peaks of a trace to the front of `out` and answers how many there are. The order is scratch too. It and `out`
// stay two parameters: the records are written by an order that is only read.
pub fn list_rt_peaks(
    trace: Trace,
    asked: Sought,
    scratch: &mut Scratch<'_>,
    order: &mut [u32],
    out: &mut [u32],
) -> usize
    requires { RtSearchable trace.smoothed.now trace.raw.now trace.times.now scratch.old.samples (length order.old) × (most_peaks (length trace.smoothed.now) * local_size ≤ length out.old) }
    ensures listed { Listed asked trace.entry.smoothed.now trace.entry.raw.now trace.entry.times.now out.old out.new result }
    ensures samples { scratch.new.samples ≡ scratch.old.samples }
    ensures lists { SameLists scratch.old scratch.new }
{
    let n = rt_search::inner::find_rt_apexes(trace, asked, scratch, order);
    put_rt_peaks(trace, scratch.found, &order[..n], out);
    n
}

// The same with room for a trace of N frames, in arrays of their own, since one is filled before it is used. It is no part of its caller,
// so that shorter traces do not pay for the frame of longer ones: 89 KiB for 4,096 frames, 353 KiB for 16,384.
#[inline(never)]
fn list_in<const N: usize, const B: usize>(
    trace: Trace,
    asked: Sought,
    order: &mut [u32],
    out: &mut [u32],
) -> usize
    requires trace { Checked trace.smoothed.now trace.raw.now trace.times.now (length order.old) (length out.old) × (length trace.smoothed.now ≤ N) }
    requires sizes { Sizes N B }
    ensures { Listed asked trace.entry.smoothed.now trace.entry.raw.now trace.entry.times.now out.old out.new result }
{
    let mut lists = Arrays::<N, B>::new();
    list_rt_peaks(trace, asked, &mut lists.lend(N), order, out)
}

// The same for any trace of at most 16,384 frames.
pub fn find_rt_peaks(trace: Trace, asked: Sought, order: &mut [u32], out: &mut [u32]) -> usize
    requires { Checked trace.smoothed.now trace.raw.now trace.times.now (length order.old) (length out.old) × (length trace.smoothed.now ≤ max_frames) }
    ensures { Listed asked trace.entry.smoothed.now trace.entry.raw.now trace.entry.times.now out.old out.new result }
{
    let n = trace.smoothed.len();
    if n <= 128 {
        return list_in::<128, 96>(trace, asked, order, out);
    }
    if n <= 1024 {
        return list_in::<1024, 800>(trace, asked, order, out);
    }
    if n <= 4096 {
        return list_in::<4096, 2336>(trace, asked, order, out);
    }
    list_in::<16384, 8480>(trace, asked, order, out)
}
