// Lists of peaks: the records of a list of words, and the definitions and laws of what of them is read and what is written (specs/,
// proofs/).
#![tactic(auto)]

ghost use Rattle.std.specs.Prelude.{◌≡◌, ◌≤◌, ◌<◌, ◌*◌, ◌/◌, length};
ghost use Rattle.row_record.specs.Record.{size, peak_at, id_at};

use row_record::{ImPeak1D, PeakId};

// The first records of a list of words. Their count stands beside the words: else these would be divided by those of a record wherever it
// is asked for.
#[derive(Clone, Copy)]
pub struct Records<'a> {
    pub words: &'a [u32],
    pub count: usize,
    pub ghost fit: { count * size ≤ length words.now },
}

impl<'a> Records<'a> {
    // All that a list has.
    pub fn of(words: &'a [u32]) -> Records<'a>
        ensures words { result.words.now ≡ words.now }
        ensures count { result.count ≡ length words.now / size }
    {
        Records {
            words,
            count: words.len() / ImPeak1D::WORDS,
        }
    }

    pub fn peak(self, k: usize) -> ImPeak1D
        requires { k < self.count }
        ensures { result ≡ peak_at self.entry.words.now k }
    {
        row_record::inner::peak_at(self.words, k)
    }

    pub fn id(self, k: usize) -> PeakId
        requires { k < self.count }
        ensures { result ≡ id_at self.entry.words.now k }
    {
        row_record::inner::im_id(self.words, k)
    }
}
