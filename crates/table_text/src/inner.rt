// Reading and writing in buffers that the caller has sized. In each contract, here and above, `row` is a slice of at least `MAX_FIELDS`
// places: an array would ask more of a caller whose row is longer, and a struct that holds the list would need a clause as well, that it
// holds the same list afterwards.
ghost use Rattle.std.specs.Prelude.{◌≡◌, true, ◌&&◌, ◌++◌, ◌≤◌, ◌<◌, ◌+◌, leb, ltb, length, drop};
ghost use Rattle.table_text.specs.Sizes.{max_number, max_fields, put_room};
ghost use Rattle.table_text.specs.Text.{fields, is_row, readings, row_text};
ghost use Rattle.table_text.specs.declared.RowsSoFar.{RowsSoFar};
ghost use Rattle.table_text.specs.declared.Verdict.{Verdict};
ghost use Rattle.table_text.specs.Table.{verdict};
ghost use Rattle.row_record.specs.Record.{word};
ghost use Rattle.table_text.specs.Print.{decimal, hex_digit, hex8, heading, refusal, followed, ended, places_of, floats_of, peak_line, put_at};

use super::{Progress, RowsSoFar, Verdict};
use row_record::ImPeak1D;

// The readings of a line, given without its CR LF, to the front of `row`, and how many there are. Where the line is no row, some of the
// first 4,096 places of `row` may have been written.
pub fn parse_row(line: &[u8], row: &mut [f32]) -> Option<usize>
    requires { max_fields ≤ length row.old }
    ensures text { result ≡ row_text line.now }
    ensures front { is_row line.now ≡ true → row.new ≡ readings line.now ++ drop (length (fields line.now)) row.old }
    ensures rest { drop max_fields row.new ≡ drop max_fields row.old }
{
    // The count is the answer and the place of the next reading: a `try_fold` over the fields would have to write the lent row as well.
    let mut from = 0usize;
    for count in 0..super::MAX_FIELDS {
        let rest = &line[from..];
        // The longest number decides how far a comma is looked for: a field that is longer is no number, however long it is.
        let end = super::comma_at(&rest[..rest.len().min(super::MAX_DIGITS + 1)]);
        let field = &rest[..end];
        row[count] = numeric::of_u32(super::number(field, super::MAX_NUMBER)?);
        if end == rest.len() {
            return Some(count + 1);
        }
        from += end + 1;
    }
    None
}

// The verdict on the next line, given without its CR LF. The readings of an accepted row stand at the front of `row`; after
// any other verdict some of its first 4,096 places may have been written.
pub fn accept(s: Progress, line: &[u8], row: &mut [f32]) -> Verdict
    requires { max_fields ≤ length row.old }
    ensures verdict { result ≡ verdict s line.now }
    ensures front { (t : RowsSoFar) → result ≡ Verdict.Row t → row.new ≡ readings line.now ++ drop t.count row.old }
    ensures rest { drop max_fields row.new ≡ drop max_fields row.old }
{
    match s {
        Progress::Start => super::opened(super::parse_params(line)),
        Progress::Rows(t) => super::counted(t, parse_row(line, row)),
    }
}

// ---- writing

// Writes a text to the front of `out`.
fn put_text(out: &mut [u8], text: &[u8]) -> usize
    requires { length text.now ≤ length out.old }
    ensures value { result ≡ length text.now }
    ensures out_after { out.new ≡ text.now ++ drop (length text.now) out.old }
{
    out[..text.len()].copy_from_slice(text);
    text.len()
}

// Writes the heading to the front of `out`.
pub fn put_heading(out: &mut [u8]) -> usize
    requires { put_room ≤ length out.old }
    ensures value { result ≡ length heading }
    ensures out_after { out.new ≡ heading ++ drop result out.old }
{
    put_text(
        out,
        b"tof_row,scan,left,right,width_scans,apex_raw,prominence,area_raw,subscan\r\n",
    )
}

// Writes the answer to a bad line to the front of `out`.
pub fn put_refusal(out: &mut [u8]) -> usize
    requires { put_room ≤ length out.old }
    ensures value { result ≡ length refusal }
    ensures out_after { out.new ≡ refusal ++ drop result out.old }
{
    put_text(out, b"refused,10\r\n")
}

// Writes a number, without leading zeros, at a place of `out`, and says where it ends. The place is a number from call to call: a
// struct that holds it with the `&mut` would say the same clauses of two fields. No `write!`, for the reasons beside `put_hex`.
fn put_decimal(out: &mut [u8], at: usize, n: u32) -> usize
    requires { at + 10 ≤ length out.old }
    ensures value { result ≡ at + length (decimal n) }
    ensures out_after { out.new ≡ put_at out.old at (decimal n) }
{
    if n < 10 {
        out[at] = b'0' + n as u8;
        return at + 1;
    }
    let end = put_decimal(out, at, n / 10);
    out[end] = b'0' + (n % 10) as u8;
    end + 1
}

// Writes a number and a comma.
fn put_number(out: &mut [u8], at: usize, n: u32) -> usize
    requires { at + 11 ≤ length out.old }
    ensures value { result ≡ at + length (followed (decimal n)) }
    ensures out_after { out.new ≡ put_at out.old at (followed (decimal n)) }
{
    let end = put_decimal(out, at, n);
    out[end] = b',';
    end + 1
}

fn hex_digit(d: u32) -> u8
    requires { d < 16 }
    ensures { result ≡ hex_digit d }
{
    b"0123456789abcdef"[d as usize]
}

// Writes the eight digits of a word to the front of `out`: a line for each, as the definition has them. `write!` would need a writer over
// the list, and give a Result whose Err cannot be.
fn put_hex(out: &mut [u8], w: u32)
    requires { 8 ≤ length out.old }
    ensures { out.new ≡ hex8 w ++ drop 8 out.old }
{
    out[0] = hex_digit(w / 0x1000_0000 % 16);
    out[1] = hex_digit(w / 0x100_0000 % 16);
    out[2] = hex_digit(w / 0x10_0000 % 16);
    out[3] = hex_digit(w / 0x1_0000 % 16);
    out[4] = hex_digit(w / 0x1000 % 16);
    out[5] = hex_digit(w / 0x100 % 16);
    out[6] = hex_digit(w / 0x10 % 16);
    out[7] = hex_digit(w % 16);
}

// Writes a word at a place of `out`, and says where it ends.
fn put_word(out: &mut [u8], at: usize, w: u32) -> usize
    requires { at + 8 ≤ length out.old }
    ensures value { result ≡ at + 8 }
    ensures out_after { out.new ≡ put_at out.old at (hex8 w) }
{
    put_hex(&mut out[at..], w);
    at + 8
}

// Writes a float's word and a comma.
fn put_float(out: &mut [u8], at: usize, x: f32) -> usize
    requires { at + 9 ≤ length out.old }
    ensures value { result ≡ at + 9 }
    ensures out_after { out.new ≡ put_at out.old at (followed (hex8 (word x))) }
{
    let end = put_word(out, at, numeric::word_of(x));
    out[end] = b',';
    end + 1
}

// Writes a float's word and CR LF.
fn put_last(out: &mut [u8], at: usize, x: f32) -> usize
    requires { at + 10 ≤ length out.old }
    ensures value { result ≡ at + 10 }
    ensures out_after { out.new ≡ put_at out.old at (ended (hex8 (word x))) }
{
    let end = put_word(out, at, numeric::word_of(x));
    out[end] = b'\r';
    out[end + 1] = b'\n';
    end + 2
}

// Writes the first five fields of a peak's line to the front of `out`.
fn put_places(out: &mut [u8], p: ImPeak1D) -> usize
    requires { put_room ≤ length out.old }
    ensures value { result ≡ length (places_of p) }
    ensures out_after { out.new ≡ put_at out.old 0 (places_of p) }
{
    let a = put_number(out, 0, p.tof_row);
    let b = put_number(out, a, p.scan);
    let c = put_number(out, b, p.left);
    let d = put_number(out, c, p.right);
    put_number(out, d, p.width_scans)
}

// Writes the last four fields of a peak's line at a place of `out`.
fn put_floats(out: &mut [u8], at: usize, p: ImPeak1D) -> usize
    requires { at + 37 ≤ length out.old }
    ensures value { result ≡ at + 37 }
    ensures out_after { out.new ≡ put_at out.old at (floats_of p) }
{
    let a = put_float(out, at, p.apex_raw);
    let b = put_float(out, a, p.prominence);
    let c = put_float(out, b, p.area_raw);
    put_last(out, c, p.subscan)
}

// Writes the line of a peak to the front of `out`: at most `LINE_BYTES` bytes.
pub fn put_peak_line(out: &mut [u8], p: ImPeak1D) -> usize
    requires { put_room ≤ length out.old }
    ensures value { result ≡ length (peak_line p) }
    ensures out_after { out.new ≡ peak_line p ++ drop result out.old }
{
    let at = put_places(out, p);
    put_floats(out, at, p)
}
