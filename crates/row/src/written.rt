// How records are written to a lent list: as words, or as bytes.
ghost use Rattle.std.specs.Prelude.{◌≡◌, refl, ℕ, ◌≤◌, ◌+◌, ◌*◌, length};
ghost use Rattle.row_record.specs.Record.{size};
ghost use Rattle.row.specs.Written.{Written, as_words, stride, with_record};

use row_record::ImPeak1D;

pub trait Written {
    // What stands at a place of the list, and how many places a record takes.
    type Place: Copy;

    const PLACES: usize;

    ghost PLACES: { ℕ };

    ghost form: { Written Self.Place };

    // Writes the record of a peak to place k.
    fn put_record(out: &mut [Self::Place], k: usize, p: ImPeak1D)
        requires { k * stride form + stride form ≤ length out.old }
        ensures { out.new ≡ with_record form out.old k p };

    ghost places: { PLACES ≡ stride form };
}

// A word to a place.
pub struct AsWords;

impl Written for AsWords {
    type Place = u32;

    const PLACES: usize = ImPeak1D::WORDS;

    ghost PLACES = { size };

    ghost form = { as_words };

    fn put_record(out: &mut [u32], k: usize, p: ImPeak1D) {
        row_record::inner::put_peak(out, k, p);
    }

    ghost places = { refl };
}
