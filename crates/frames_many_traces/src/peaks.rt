// Lists of mobility peaks over whose bins and scans traces are summed.
ghost use Rattle.std.specs.Prelude.{◌≡◌, ◌/◌, length};
ghost use Rattle.row_record.specs.Record.{size};

use row_record::ImPeak1D;
use tof_scale::TofScale;

// The words of the records, the scale of their TOF bounds, and how many bins more are taken on either side. The scale is no `CheckedScale`:
// an entry fills the struct before it is checked, and then two functions ask that it is sound, `put_traces` and `put_windows`.
#[derive(Clone, Copy)]
pub struct PaddedPeaks<'a> {
    pub list: &'a [u32],
    pub scale: TofScale,
    pub pad: u32,
}

impl<'a> PaddedPeaks<'a> {
    // How many peaks they are.
    pub fn count(self) -> usize
        ensures { result ≡ length self.entry.list.now / size }
    {
        self.list.len() / ImPeak1D::WORDS
    }
}
