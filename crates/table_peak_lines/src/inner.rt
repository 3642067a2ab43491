// For a row that the caller has checked.
ghost use Rattle.std.specs.Prelude.{◌≡◌, true, List, ◌++◌, ℕ, ◌≤◌, ◌+◌, ◌-◌, length, take, drop};
ghost use Rattle.table_text.specs.Sizes.{line_room, max_fields, put_room};
ghost use Rattle.numeric.specs.Arith.{𝟎};
ghost use Rattle.row_params.specs.Params.{most_peaks};
ghost use Rattle.row_search.specs.Qualifying.{highest_reading, reaches, kept};
ghost use Rattle.row_search.specs.Found.{Searchable, Standing};
ghost use Rattle.row_search.specs.Room.{Sizes};
ghost use Rattle.row_search.specs.SameLists.{SameLists};
ghost use Rattle.table_text.specs.Print.{peak_line};
ghost use Rattle.table_text.specs.Table.{verdict};
ghost use Rattle.table_peak_lines.specs.RowLines.{place_of, no_frames, no_axes, Printable, Printed};
ghost use Rattle.table_peak_lines.specs.TableText.{peaks_text, text_of, line_text, Counted, Sound};

use row::inner::{OnAxes, Row};
use row_params::{FrameBounds, ImDetectParams, RowPlace};
use row_record::ImPeak1D;
use row_search::scratch::{Arrays, Scratch};
use table_text::{Progress, RowsSoFar, Verdict};

// A place, frames and axes for what no line prints. They are no `Default` of their types: in row and row_params, where those stand, zeros are
// values like others.
fn place_of(tof_row: u32) -> RowPlace
    ensures { result ≡ place_of tof_row }
{
    RowPlace {
        tof_row,
        tof_center: 0,
        tof_lo: 0,
        tof_hi: 0,
    }
}

fn no_frames() -> FrameBounds
    ensures { result ≡ no_frames }
{
    FrameBounds {
        rt_lo: 0,
        rt_hi: 0,
        frame_id_lo: 0,
        frame_id_hi: 0,
        window_group: None,
    }
}

fn no_axes() -> OnAxes
    ensures { result ≡ no_axes }
{
    OnAxes {
        scan: 0,
        left: 0,
        right: 0,
        mobility: None,
    }
}

// Writes the line of a peak at a place of `out` and answers the place behind it.
fn append_line(out: &mut [u8], at: usize, p: ImPeak1D) -> usize
    requires { at + put_room ≤ length out.old }
    ensures value { result ≡ at + length (peak_line p) }
    ensures out_after { out.new ≡ take at out.old ++ (peak_line p ++ drop result out.old) }
{
    at + table_text::inner::put_peak_line(&mut out[at..], p)
}

// Writes the lines of the n apexes that stand in `found` to the front of `out`, the oldest first, and answers how many bytes they are. By
// place: of chunks of `found`, which is longer than the apexes, each apex would be read at place 0 of the one at hand, in no fewer lines.
// `found` and n are no `Apexes` as in rt_listing, where six functions take both: here one does, from the search that told them.
fn put_peak_lines(found: &[u32], n: usize, y: &[f32], tof_row: u32, out: &mut [u8]) -> usize
    requires { Printable y.now (length out.old) × (n ≤ most_peaks (length y.now)) × ((ks : List ℕ) × Standing y.now y.now found.now n ks) }
    ensures { (ks : List ℕ) → Standing y.now y.now found.now n ks → Printed tof_row y.now out.old out.new result ks }
{
    let place = place_of(tof_row);
    let bounds = no_frames();
    let row = Row {
        y,
        z: y,
        place,
        bounds,
        mobility: (),
        axis: (),
    };
    let on = no_axes();
    let mut at = 0usize;
    for j in 0..n {
        let a = row_search::inner::measured_at(found, j);
        let peak = row.peak_on(on, a, 0);
        at = append_line(out, at, peak);
    }
    at
}

// Writes the lines of the listed peaks of a row that reaches the floor to the front of `out` and answers how many bytes they are.
fn put_lines_by(
    y: &[f32],
    tof_row: u32,
    p: ImDetectParams,
    scratch: &mut Scratch<'_>,
    out: &mut [u8],
) -> usize
    requires { Printable y.now (length out.old) × Searchable p y.now y.now scratch.old.samples }
    ensures printed { Printed tof_row y.now out.old out.new result (kept p y.now y.now) }
    ensures samples { scratch.new.samples ≡ scratch.old.samples }
    ensures lists { SameLists scratch.old scratch.new }
{
    let n = row_search::inner::find_apexes(y, y, p, scratch);
    put_peak_lines(scratch.found, n, y, tof_row, out)
}

// The same with scratch of its own, for a row of at most N samples. It is no part of its callers, so that each has the stack of one size
// alone. There is no heap, so the lists stand in the frame of this function, as those of `row::inner::list_in` do.
#[inline(never)]
fn put_lines_in<const N: usize, const B: usize>(
    y: &[f32],
    tof_row: u32,
    p: ImDetectParams,
    out: &mut [u8],
) -> usize
    requires row { Printable y.now (length out.old) × (reaches p.min_prom (highest_reading 𝟎 y.now) ≡ true) × (length y.now ≤ N) }
    requires sizes { Sizes N B }
    ensures { Printed tof_row y.now out.old out.new result (kept p y.now y.now) }
{
    let mut lists = Arrays::<N, B>::new();
    put_lines_by(y, tof_row, p, &mut lists.lend(N), out)
}

// Writes the lines of a row's listed peaks to the front of `out` and answers how many bytes they are: a row that does not reach the
// floor has none.
pub fn put_row_lines(y: &[f32], tof_row: u32, p: ImDetectParams, out: &mut [u8]) -> usize
    requires { Printable y.now (length out.old) }
    ensures { Printed tof_row y.now out.old out.new result (kept p y.now y.now) }
{
    if !row_search::inner::reaches_floor(y, p.min_prom) {
        return 0;
    }
    if y.len() <= 64 {
        return put_lines_in::<64, 68>(y, tof_row, p, out);
    }
    if y.len() <= 1024 {
        return put_lines_in::<1024, 800>(y, tof_row, p, out);
    }
    put_lines_in::<4096, 2336>(y, tof_row, p, out)
}

// Writes the lines of the peaks of an accepted row, whose readings stand at the front of `row`.
fn put_row(s: RowsSoFar, row: &[f32], out: &mut [u8]) -> usize
    requires { Counted s row.now × (max_fields ≤ length row.now) × (line_room ≤ length out.old) }
    ensures count { result ≡ length (peaks_text s.params (s.rows - 1) (take s.count row.now)) }
    ensures front { out.new ≡ peaks_text s.params (s.rows - 1) (take s.count row.now) ++ drop result out.old }
{
    let n = s.count;
    put_row_lines(&row[..n], s.rows - 1, s.params, out)
}

// Writes what is printed for a line with a verdict to the front of `out` and answers how many bytes that are. Each verdict holds what its
// own text needs, and the text is chosen here alone.
fn put_text(v: Verdict, row: &[f32], out: &mut [u8]) -> usize
    requires { Sound row.now v × (max_fields ≤ length row.now) × (line_room ≤ length out.old) }
    ensures count { result ≡ length (text_of row.now v) }
    ensures front { out.new ≡ text_of row.now v ++ drop result out.old }
{
    match v {
        Verdict::Heading(_) => table_text::inner::put_heading(out),
        Verdict::Row(s) => put_row(s, row, out),
        Verdict::Refused => table_text::inner::put_refusal(out),
    }
}

// What a line is answered with, and how many bytes are printed for it.
#[derive(Clone, Copy)]
pub struct LineDone {
    pub verdict: Verdict,
    pub used: usize,
}

// Writes what is printed for the next line, given without its CR LF, to the front of `out`. Of `row` the first 4,096 places may
// have been written. The two lists stand apart, since callers lend a part of `out`.
pub fn put_line(s: Progress, line: &[u8], row: &mut [f32], out: &mut [u8]) -> LineDone
    requires { (max_fields ≤ length row.old) × (line_room ≤ length out.old) }
    ensures verdict { result.verdict ≡ verdict s line.now }
    ensures count { result.used ≡ length (line_text line.now result.verdict) }
    ensures room { result.used ≤ length out.old }
    ensures front { out.new ≡ line_text line.now result.verdict ++ drop result.used out.old }
{
    let v = table_text::inner::accept(s, line, row);
    LineDone {
        verdict: v,
        used: put_text(v, row, out),
    }
}
