// The scratch of expansion.
ghost use Rattle.std.specs.Prelude.{◌≤◌, length};

use expand_peak::scratch::TraceScratch;

// Lent lists for runs of as many frames as the traces of `trace` have at most: the raw trace, where the search of each frame begins, and
// what the search of the trace needs.
#[derive(Drop)]
pub struct RunScratch<'a, 'b, 'c> {
    pub raw: &'a mut [f32],
    pub near: &'a mut [u32],
    pub trace: TraceScratch<'b, 'c>,
    pub ghost room: { (trace.search.samples ≤ length raw.now) × (trace.search.samples ≤ length near.now) },
}
