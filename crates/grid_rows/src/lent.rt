// What is lent for the rows of a grid.
use row_search::scratch::Scratch;

// A row's readings where they are decoded, a smoothed row, and the scratch of its search.
#[derive(Drop)]
pub struct RowScratch<'a, 'b> {
    pub z: &'a mut [f32],
    pub y: &'a mut [f32],
    pub search: &'a mut Scratch<'b>,
}
