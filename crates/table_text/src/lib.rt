// The text of the printed table: lines read, lines written.
#![tactic(auto)]

pub mod inner;

ghost use Rattle.std.specs.Prelude.{◌≡◌, ◌==◌, [], ◌∷◌, MatchOption, ◌&&◌, ◌≤◌, ◌<◌, ◌+◌, ◌-◌, ◌*◌, leb, length};
ghost use Rattle.std.specs.List.{position};
ghost use Rattle.table_text.specs.Text.{comma_at, fields, number_text, params_of, next_line};
ghost use Rattle.table_text.specs.Table.{ends_in_cr, opened, is_next, counted};

use row_params::ImDetectParams;

// ---- numbers that belong to the table alone

// The highest number of a row, and the highest floor.
pub const MAX_NUMBER: u32 = 16777215;

// The most fields that a row may have.
pub const MAX_FIELDS: usize = 4096;

// The most digits of a number that is read.
const MAX_DIGITS: usize = 8;

// The bytes of the longest row, with its CR: as many fields of the most digits, each with one byte behind it.
pub const MAX_LINE: usize = MAX_FIELDS * (MAX_DIGITS + 1);

// The most bytes that the line of a peak has: five numbers of 10 digits and four words of 8, each with a comma, the last with
// CR LF.
pub const LINE_BYTES: usize = 92;

// The room that is asked for where the heading, the refusal or the line of a peak is written.
pub const PUT_ROOM: usize = 96;

// The room that the text for any line that is read fits in: the lines of as many peaks as a row can have, and `PUT_ROOM`.
pub const LINE_ROOM: usize = (MAX_FIELDS - 1) / 2 * LINE_BYTES + PUT_ROOM;

// ---- what lines are

// What has been accepted behind the heading: the parameters, the count of fields of each row (0 before the first row) and the
// count of rows. No row has 0 fields, and the count is no Option: who prints an accepted row would have to take it out of one that is
// never `None` there.
#[derive(Clone, Copy)]
pub struct RowsSoFar {
    pub params: ImDetectParams,
    pub count: usize,
    pub rows: u32,
}

// Before the first line, and after it. No Option: it names states, and a `None` in its place would not say which.
#[derive(Clone, Copy)]
pub enum Progress {
    Start,
    Rows(RowsSoFar),
}

// What a line is answered with: the heading, a row's peaks or a refusal; but for the refusal, with what has been accepted then.
// No Result: of the two that accept each prints another text.
#[derive(Clone, Copy)]
pub enum Verdict {
    Heading(RowsSoFar),
    Row(RowsSoFar),
    Refused,
}

// The number that a digit continues.
fn with_digit(value: u32, b: u8) -> u32
    requires { (value < 10000000) × (48 ≤ b) }
    ensures { result ≡ value * 10 + (b - 48) }
{
    value * 10 + u32::from(b - b'0')
}

// The place of the first such byte.
fn place_of(byte: u8, bytes: &[u8]) -> Option<usize>
    ensures { result ≡ position (λ b. b == byte) bytes.now }
{
    bytes.iter().position(|b| *b == byte)
}

// The place of the first comma, or the length.
pub fn comma_at(line: &[u8]) -> usize
    ensures { result ≡ comma_at line.now }
{
    place_of(b',', line).unwrap_or(line.len())
}

// Whether a field has as many bytes as a number that is read.
fn has_number_length(field: &[u8]) -> bool
    ensures { result ≡ (leb 1 (length field.now) && leb (length field.now) 8) }
{
    (0 < field.len()) & (field.len() <= MAX_DIGITS)
}

// The number of a field of 1 to 8 digits, to a limit. A loop: by `try_fold` the proof does not close, for the library has no lemma from
// its run to the bytes of a slice, and the closure would have to be told that its value is still below 10,000,000.
pub fn number(field: &[u8], limit: u32) -> Option<u32>
    ensures { result ≡ number_text limit field.now }
{
    if !has_number_length(field) {
        return None;
    }
    let mut value = 0u32;
    for &b in field {
        if !b.is_ascii_digit() {
            return None;
        }
        value = with_digit(value, b);
    }
    (value <= limit).then_some(value)
}

// The field in front of the first comma of a line, and what stands behind that.
#[tactic(auto, using(crate::proofs::Laws::cut_fields, crate::proofs::Laws::whole_field))]
fn cut(line: &[u8]) -> Option<(&[u8], &[u8])>
    ensures { MatchOption result (fields line.now ≡ line.now ∷ []) (λ p. fields line.now ≡ p.0.now ∷ fields p.1.now) }
{
    let i = place_of(b',', line)?;
    Some((&line[..i], &line[i + 1..]))
}

// The parameters on a line, given without its CR LF.
#[tactic(auto, unfolding(crate::specs::Text::params_of, crate::specs::Text::params_from))]
pub fn parse_params(line: &[u8]) -> Option<ImDetectParams>
    ensures { result ≡ params_of line.now }
{
    let (floor, rest) = cut(line)?;
    let (distance, width) = cut(rest)?;
    if cut(width).is_some() {
        return None;
    }
    Some(ImDetectParams {
        min_prom: numeric::of_u32(number(floor, MAX_NUMBER)?),
        min_distance_scans: number(distance, limits::MAX_COUNT)?,
        min_width_scans: number(width, limits::MAX_COUNT)?,
    })
}

// The place of the first LF at `from` or after it.
pub fn next_line(bytes: &[u8], from: usize) -> Option<usize>
    ensures { result ≡ next_line bytes.now from }
{
    if bytes.len() < from {
        return None;
    }
    let k = place_of(b'\n', &bytes[from..])?;
    Some(from + k)
}

// Whether a text, which the caller takes up to an LF, ends in CR.
pub fn ends_in_cr(text: &[u8]) -> bool
    ensures { result ≡ ends_in_cr text.now }
{
    text.last().is_some_and(|b| *b == b'\r')
}

// The verdict on the first line.
fn opened(p: Option<ImDetectParams>) -> Verdict
    ensures { result ≡ opened p }
{
    p.map_or(Verdict::Refused, |params| {
        Verdict::Heading(RowsSoFar {
            params,
            count: 0,
            rows: 0,
        })
    })
}

impl RowsSoFar {
    // Whether a row of n fields may come next.
    #[tactic(auto, unfolding(crate::specs::Table::is_next))]
    fn is_next(self, n: usize) -> bool
        ensures { result ≡ is_next self n }
    {
        ((self.count == 0) | (n == self.count)) & (self.rows <= limits::LAST_ROW)
    }
}

// The verdict on a further line.
#[tactic(auto, using(crate::proofs::Laws::next_room))]
fn counted(s: RowsSoFar, row: Option<usize>) -> Verdict
    ensures { result ≡ counted s row }
{
    match row {
        Some(n) if s.is_next(n) => Verdict::Row(RowsSoFar {
            count: n,
            rows: s.rows + 1,
            ..s
        }),
        _ => Verdict::Refused,
    }
}
