// The lists that are lent to expansion.
// One for the retention peaks, and three of scratch.
#[derive(Drop)]
pub struct Lent<'a> {
    pub out: &'a mut [u32],
    pub raw: &'a mut [f32],
    pub smooth: &'a mut [f32],
    pub order: &'a mut [u32],
}
