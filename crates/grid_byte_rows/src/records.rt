// Axes that are read from bytes, and records that are written as bytes, four a word.
ghost use Rattle.std.specs.Prelude.{◌≡◌, refl, List, ℕ, Float, ◌<◌, ◌+◌, ◌*◌, ◌/◌, length};
ghost use Rattle.row_record.specs.Record.{size_in_bytes};
ghost use Rattle.grid_word_bytes.specs.Bytes.{words_of, floats_of};
ghost use Rattle.grid_byte_rows.specs.AsBytes.{as_bytes};

use row::column::Column;
use row::written::Written;
use row_record::ImPeak1D;

// Values in bytes, each read where it is asked for.
#[derive(Clone, Copy)]
pub struct Bytes<'a> {
    pub list: &'a [u8],
}

impl<'a> Column<u32> for Bytes<'a> {
    ghost items = { λ b. words_of b.list.now };

    fn count(self) -> usize {
        self.list.len() / 4
    }

    fn item(self, i: usize) -> u32 {
        grid_word_bytes::inner::word_at(self.list, i)
    }
}

impl<'a> Column<f32> for Bytes<'a> {
    ghost items = { λ b. floats_of b.list.now };

    fn count(self) -> usize {
        self.list.len() / 4
    }

    fn item(self, i: usize) -> f32 {
        numeric::float_of(grid_word_bytes::inner::word_at(self.list, i))
    }
}

// Four bytes to a word.
pub struct AsBytes;

impl Written for AsBytes {
    type Place = u8;

    const PLACES: usize = ImPeak1D::BYTES;

    ghost PLACES = { size_in_bytes };

    ghost form = { as_bytes };

    fn put_record(out: &mut [u8], k: usize, p: ImPeak1D) {
        let mut ws = [0u32; ImPeak1D::WORDS];
        row_record::inner::put_peak(&mut ws, 0, p);
        let at = k * ImPeak1D::BYTES;
        grid_word_bytes::inner::put_words(&mut out[at..], &ws);
    }

    ghost places = { refl };
}
