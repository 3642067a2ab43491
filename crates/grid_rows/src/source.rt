// What the rows of a grid are read from, and how their records are written.
ghost use Rattle.std.specs.Prelude.{◌≡◌, List, ℕ, Float, length};
ghost use Rattle.tof_scale.specs.Tof.{row_place};
ghost use Rattle.grid_rows.specs.Grid.{Grid, row_of};
ghost use Rattle.grid_rows.specs.Steps.{Held};

use super::call::Terms;
use row::column::Column;
use row::inner::Row;
use row::written::Written;
use row_params::ImDetectParams;
use row_record::PeakId;

pub trait Source {
    type Mobility: Column<f32>;

    type Axis: Column<u32>;

    type Form: Written;

    // The grid, without weights; the length of the scratch that a row is read into, and what stands there then.
    ghost grid: { Self → Grid };

    ghost spare: { Self → ℕ };

    ghost Reads: { Self → ℕ → List Float → Type 0 };

    // What the grid has besides its lists.
    fn terms(&self) -> Terms
        ensures params { result.params ≡ (grid self.now).params }
        ensures first { result.first ≡ (grid self.now).first };

    fn params(&self) -> ImDetectParams
        ensures { result ≡ (grid self.now).params }
    {
        self.terms().params
    }

    fn first(&self) -> PeakId
        ensures { result ≡ (grid self.now).first }
    {
        self.terms().first
    }

    // Reads row r into z, where its readings do not stand in memory as they are.
    fn read(&self, r: usize, z: &mut [f32])
        requires { Held (grid self.now) r × (length z.old ≡ spare self.now) }
        ensures { Reads self.now r z.new };

    // Row r, with the readings themselves as what is searched.
    fn row<'r>(&'r self, r: usize, z: &'r [f32]) -> Row<'r, Self::Mobility, Self::Axis>
        requires { Held (grid self.now) r × Reads self.now r z.now }
        ensures searched { result.y.now ≡ row_of (grid self.now) r }
        ensures readings { result.z.now ≡ row_of (grid self.now) r }
        ensures place { result.place ≡ row_place (grid self.now).scale r }
        ensures bounds { result.bounds ≡ (grid self.now).bounds }
        ensures mobility { Self.Mobility.items result.mobility ≡ (grid self.now).mobility }
        ensures axis { Self.Axis.items result.axis ≡ (grid self.now).scans };
}
