// The lists of a frame: its points, and what is lent for its part of an index.

// The TOF value, the absolute scan and the reading of each point. That they are as many is no invariant: an entry fills the struct before
// it compares them. Beside it a checked one would hold the same three lists for two functions, `put_view` and `put_sorted`. What these ask
// of a view and of scratch is how many points there are, which lie in another struct.
#[derive(Clone, Copy)]
pub struct Points<'a> {
    pub tofs: &'a [u32],
    pub scans: &'a [u32],
    pub readings: &'a [f32],
}

// The lists of the frame's part: its distinct bins, where the points of each start, and their scans and readings.
#[derive(Drop)]
pub struct View<'a> {
    pub bins: &'a mut [u32],
    pub offsets: &'a mut [u32],
    pub scans: &'a mut [u32],
    pub readings: &'a mut [f32],
}

// Three lists of scratch, a word a point.
#[derive(Drop)]
pub struct Scratch<'a> {
    pub keys: &'a mut [u32],
    pub order: &'a mut [u32],
    pub spare: &'a mut [u32],
}
