// What detection over a grid in bytes is handed.
use grid_rows::call::Terms;

// The same as a grid's call has, in lists of bytes, four a word: readings, the scan of each column, the mobility of each or none. No
// weights: the rows are read from this, and are handed a kernel that is made of the weights, as those of a `GridCall` are.
#[derive(Clone, Copy)]
pub struct ByteCall<'a> {
    pub used: &'a [u8],
    pub scans: &'a [u8],
    pub mobility: &'a [u8],
    pub terms: Terms,
}
