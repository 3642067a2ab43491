// The scratch of the search of a retention trace.
ghost use Rattle.std.specs.Prelude.{◌≤◌, length};
ghost use Rattle.row_params.specs.Params.{most_peaks};

use row_search::scratch::Scratch;

// Lent lists for traces of at most `search.samples` frames: the smoothed trace, what its search needs, and the order of the apexes.
#[derive(Drop)]
pub struct TraceScratch<'a, 'b> {
    pub smooth: &'a mut [f32],
    pub search: Scratch<'b>,
    pub order: &'a mut [u32],
    pub ghost room: { (search.samples ≤ length smooth.now) × (most_peaks search.samples ≤ length order.now) },
}
