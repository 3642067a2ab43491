// The rows of a grid in bytes, one after another.
ghost use Rattle.std.specs.Prelude.{◌≡◌, []};
ghost use Rattle.grid_word_bytes.specs.Bytes.{words_of, floats_of};
ghost use Rattle.grid_rows.specs.Grid.{row_of};
ghost use Rattle.grid_byte_rows.specs.Call.{bytes_in};

use super::call::ByteCall;
use super::records::{AsBytes, Bytes};
use grid_rows::call::Terms;
use grid_rows::source::Source;
use row::inner::Row;
use tof_scale::CheckedScale;

// The readings are decoded into scratch, scans and mobilities where a record needs them.
impl<'a> Source for ByteCall<'a> {
    type Mobility = Bytes<'a>;

    type Axis = Bytes<'a>;

    type Form = AsBytes;

    ghost grid = { λ c. bytes_in c [] };

    ghost spare = { λ c. c.terms.cols };

    ghost Reads = { λ c r z. z ≡ row_of (bytes_in c []) r };

    fn terms(&self) -> Terms {
        self.terms
    }

    fn read(&self, r: usize, z: &mut [f32]) {
        grid_word_bytes::inner::decode_floats(self.used, r * self.terms.cols, z);
    }

    fn row<'r>(&'r self, r: usize, z: &'r [f32]) -> Row<'r, Bytes<'a>, Bytes<'a>> {
        Row {
            y: z,
            z,
            place: tof_scale::inner::row_place(CheckedScale::of(self.terms.scale), r as u32),
            bounds: self.terms.bounds,
            mobility: Bytes {
                list: self.mobility,
            },
            axis: Bytes { list: self.scans },
        }
    }
}
