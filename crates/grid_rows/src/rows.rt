// The rows of a grid, one after another.
ghost use Rattle.std.specs.Prelude.{◌≡◌, ℕ, ◌≤◌, ◌+◌, ◌*◌, [], length, take, drop};
ghost use Rattle.grid_rows.specs.Grid.{used_of};
ghost use Rattle.grid_rows.specs.Steps.{grid_in, with_weights, numbered, Handed, RowPut, RowReady, RowDone, Ready, Done};
ghost use Rattle.grid_rows.specs.Lent.{Lent, SameRowScratch};
ghost use Rattle.row_search.specs.SameLists.{SameLists};

use super::call::{GridCall, Terms};
use super::lent::RowScratch;
use super::source::Source;
use row::column::Column;
use row::inner::Row;
use row::written::{AsWords, Written};
use row_params::ImDetectParams;
use row_record::PeakId;
use row_search::scratch::Scratch;
use row_smoothed::kernel::Kernel;
use std::ops::Range;
use tof_scale::CheckedScale;

// The n readings from `at` on of those that are worked on: the raw ones where there are any, else the smoothed ones.
pub fn row_part<'a>(raw: &'a [f32], smooth: &'a [f32], at: usize, n: usize) -> &'a [f32]
    requires { at + n ≤ length (used_of raw.now smooth.now) }
    ensures { result.now ≡ take n (drop at (used_of raw.now smooth.now)) }
{
    if raw.is_empty() {
        return &smooth[at..at + n];
    }
    &raw[at..at + n]
}

// The readings are taken where they stand.
impl<'a> Source for GridCall<'a> {
    type Mobility = &'a [f32];

    type Axis = &'a [u32];

    type Form = AsWords;

    ghost grid = { λ c. grid_in c [] };

    ghost spare = { λ c. 0 };

    ghost Reads = { λ c r z. length z ≡ 0 };

    fn terms(&self) -> Terms {
        self.terms
    }

    fn read(&self, _r: usize, _z: &mut [f32]) {}

    fn row<'r>(&'r self, r: usize, _z: &'r [f32]) -> Row<'r, &'a [f32], &'a [u32]> {
        let cols = self.terms.cols;
        let z = row_part(self.raw, self.smooth, r * cols, cols);
        Row {
            y: z,
            z,
            place: tof_scale::inner::row_place(CheckedScale::of(self.terms.scale), r as u32),
            bounds: self.terms.bounds,
            mobility: self.mobility,
            axis: self.scans,
        }
    }
}

// Writes the records of the peaks of a row, smoothed into `y` where weights are given, to the front of `out`, and answers how many there
// are. What the row is searched with, what is written and what is lent stay apart: a struct of them would serve `detect_row` alone, whose
// own parameters are apart.
fn list_row<M: Column<f32>, S: Column<u32>, W: Written>(
    row: &Row<'_, M, S>,
    p: ImDetectParams,
    kernel: &Kernel<'_>,
    first: PeakId,
    out: &mut [W::Place],
    y: &mut [f32],
    scratch: &mut Scratch<'_>,
) -> usize
    requires { (room : ℕ) × (room * W.form.unit ≤ length out.old) × Handed row.now.z.now (S.items row.now.axis) kernel.now.weights.now first room (length y.old) scratch.old.samples }
    ensures listed { RowPut W.form row.now.place row.now.bounds (M.items row.now.mobility) p (S.items row.now.axis) kernel.now.weights.now row.now.z.now first out.old out.new result }
    ensures past { drop (length row.now.z.now) y.new ≡ drop (length row.now.z.now) y.old }
    ensures samples { scratch.new.samples ≡ scratch.old.samples }
    ensures lists { SameLists scratch.old scratch.new }
{
    let Some(n) = row_smoothed::inner::search_row(row.z, p, kernel, y, scratch) else {
        return 0;
    };
    let searched = Row {
        y: row_smoothed::inner::samples(kernel, row.z, y),
        ..*row
    };
    searched.put_peaks::<W>(scratch.found, n, first, out);
    n
}

// The records of the peaks of row r, with identities from `first` on; z is scratch for its readings. The lists are apart: the borrow
// checker has no rule for a row that borrows a list of a lent struct.
pub fn detect_row<G: Source>(
    grid: &G,
    kernel: &Kernel<'_>,
    r: usize,
    first: PeakId,
    out: &mut [<G::Form as Written>::Place],
    z: &mut [f32],
    y: &mut [f32],
    scratch: &mut Scratch<'_>,
) -> usize
    requires row { (room : ℕ) × (room * G.Form.form.unit ≤ length out.old) × RowReady (numbered (with_weights kernel.now.weights.now (G.grid grid.now)) first) r room }
    requires lent { (length z.old ≡ G.spare grid.now) × ((G.grid grid.now).cols ≤ length y.old) × ((G.grid grid.now).cols ≤ scratch.old.samples) }
    ensures done { RowDone G.Form.form (numbered (with_weights kernel.now.weights.now (G.grid grid.now)) first) r out.old out.new result }
    ensures past { drop (G.grid grid.now).cols y.new ≡ drop (G.grid grid.now).cols y.old }
    ensures samples { scratch.new.samples ≡ scratch.old.samples }
    ensures lists { SameLists scratch.old scratch.new }
{
    grid.read(r, z);
    let row = grid.row(r, z);
    list_row::<_, _, G::Form>(&row, grid.params(), kernel, first, out, y, scratch)
}

// The records of the peaks of some rows, one row after another. A row is asked for by its number: there is no list of
// rows to walk over.
pub fn detect_rows<G: Source>(
    grid: &G,
    kernel: &Kernel<'_>,
    rows: Range<usize>,
    out: &mut [<G::Form as Written>::Place],
    lent: &mut RowScratch<'_, '_>,
) -> usize
    requires rows { (room : ℕ) × (room * G.Form.form.unit ≤ length out.old) × Ready (with_weights kernel.now.weights.now (G.grid grid.now)) rows.start rows.end room }
    requires lent { Lent (G.spare grid.now) (G.grid grid.now).cols lent.old }
    ensures done { Done G.Form.form (with_weights kernel.now.weights.now (G.grid grid.now)) rows.start rows.end out.old out.new result }
    ensures past { drop (G.grid grid.now).cols lent.new.y.now ≡ drop (G.grid grid.now).cols lent.old.y.now }
    ensures same { SameRowScratch lent.old lent.new }
    ensures lengths { (length lent.new.z.now ≡ length lent.old.z.now) × (length lent.new.y.now ≡ length lent.old.y.now) }
    ensures samples { lent.new.search.now.samples ≡ lent.old.search.now.samples }
{
    let mut n = 0usize;
    for r in rows.start..rows.end {
        let at = n * G::Form::PLACES;
        let id = grid.first() + n as PeakId;
        n += detect_row(
            grid,
            kernel,
            r,
            id,
            &mut out[at..],
            lent.z,
            lent.y,
            lent.search,
        );
    }
    n
}
