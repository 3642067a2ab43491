// Why a line is refused, for a word on standard error. A fault is found exactly where the line is refused (specs/Facts.antt). Which one is
// told, in which field or at which column, is proved too: specs/Faults.antt says it. What is printed is decided by `table_text` alone.
#![tactic(auto)]

ghost use Rattle.std.specs.Prelude.{◌≡◌, ◌≤◌, ◌<◌, ◌+◌, length, drop, is_ok, is_some, IfOk};
ghost use Rattle.std.specs.Result.{result_err};
ghost use Rattle.table_text.specs.Text.{fields, is_number};
ghost use Rattle.table_faults.specs.Faults.{limit_of, all_within, bad_field, field_fault, fields_fault, params_fault, row_fault, line_fault};
ghost use Rattle.table_faults.specs.Faults.{ended_fault, last_text, last_line_fault, last_fault_of, end_fault_of, refused_at_end};

use std::fmt;
use table_text::{Progress, RowsSoFar};

// What is wrong with a line, and where: in which field or with how many of them, and at which column, both counted from 1. `Unlike` is
// told of a line with none of the others, and no line that is refused is one.
#[derive(Clone, Copy, Debug, PartialEq, Eq)]
pub enum Fault {
    Unlike,
    NoLine,
    NoEnd,
    BareLf,
    Blank,
    OtherByte { column: usize, byte: u8 },
    EmptyField { field: usize },
    Digits { field: usize },
    TooHigh { field: usize, limit: u32 },
    NotThree { fields: usize },
    ManyFields { fields: usize },
    OtherCount { fields: usize, before: usize },
    ManyRows,
}

// A byte that is neither a digit nor a comma.
fn write_byte<W: fmt::Write>(f: &mut fmt::Formatter<W>, byte: u8) -> fmt::Result {
    match byte {
        b'\r' => f.write_str("a CR that no LF follows"),
        b'!'..=b'~' => write!(
            f,
            "byte {byte} ({}) is neither a digit nor a comma",
            char::from(byte)
        ),
        _ => write!(f, "byte {byte} is neither a digit nor a comma"),
    }
}

impl fmt::Display for Fault {
    fn fmt<W: fmt::Write>(&self, f: &mut fmt::Formatter<W>) -> fmt::Result {
        match *self {
            Fault::Unlike => f.write_str("it is not as docs/INPUT.md has it"),
            Fault::NoLine => f.write_str("there is no first line"),
            Fault::NoEnd => write!(f, "it has no end within {NO_END} bytes"),
            Fault::BareLf => f.write_str("it ends in LF alone, not in CR LF"),
            Fault::Blank => f.write_str("it is blank"),
            Fault::OtherByte { column, byte } => {
                write!(f, "column {column}: ")?;
                write_byte(f, byte)
            }
            Fault::EmptyField { field } => write!(f, "field {field} is empty"),
            Fault::Digits { field } => write!(f, "field {field} has more than 8 digits"),
            Fault::TooHigh { field, limit } => write!(f, "field {field} is above {limit}"),
            Fault::NotThree { fields } => write!(
                f,
                "{fields} fields, not 3 (floor, least distance, least width)"
            ),
            Fault::ManyFields { fields } => write!(f, "{fields} fields, above 4096"),
            Fault::OtherCount { fields, before } => {
                write!(f, "{fields} fields, the rows before have {before}")
            }
            Fault::ManyRows => f.write_str("a row past 4194304"),
        }
    }
}

// The bytes after which a line without an end is refused.
pub const NO_END: usize = 65536;

// The two kinds of a line: the parameters, which stand first, and a row.
#[derive(Clone, Copy, Debug, PartialEq, Eq)]
pub enum Kind {
    Params,
    Row,
}

// The highest number of a field: that of a reading or of the floor, or that of least distance and least width.
pub fn limit_of(kind: Kind, field: usize) -> u32
    ensures { result ≡ limit_of kind field }
{
    match kind {
        Kind::Params if 1 < field => limits::MAX_COUNT,
        _ => table_text::MAX_NUMBER,
    }
}

// What is wrong with a field that is no number to its limit, and starts at a place.
fn bad_field(text: &[u8], at: usize, field: usize, limit: u32) -> Fault
    requires { at + length text.now < 0x1_0000_0000_0000_0000 }
    ensures { result ≡ bad_field limit field at text.now }
{
    if text.is_empty() {
        return Fault::EmptyField { field };
    }
    if let Some(i) = text.iter().position(|b| !b.is_ascii_digit()) {
        return Fault::OtherByte {
            column: at + i + 1,
            byte: text[i],
        };
    }
    if text.len() > 8 {
        return Fault::Digits { field };
    }
    Fault::TooHigh { field, limit }
}

// The number of a field, to its limit.
fn check_field(text: &[u8], at: usize, kind: Kind, field: usize) -> Result<u32, Fault>
    requires { at + length text.now < 0x1_0000_0000_0000_0000 }
    ensures good { is_ok result ≡ is_number (limit_of kind field) text.now }
    ensures fault { result_err result ≡ field_fault kind field at text.now }
{
    let limit = limit_of(kind, field);
    table_text::number(text, limit).ok_or_else(|| bad_field(text, at, field, limit))
}

// How many fields a line has, or what is wrong with the first bad one.
fn count_fields(line: &[u8], kind: Kind) -> Result<usize, Fault>
    ensures good { is_ok result ≡ all_within kind 1 (fields line.now) }
    ensures count { IfOk result (λ n. n ≡ length (fields line.now)) }
    ensures fault { result_err result ≡ fields_fault kind 1 0 (fields line.now) }
{
    // The count is the answer: as a `try_fold` the place and the count would be a pair that each turn makes anew.
    let mut at = 0usize;
    let mut count = 0usize;
    for text in line.split(|b| *b == b',') {
        count += 1;
        check_field(text, at, kind, count)?;
        at += text.len() + 1;
    }
    Ok(count)
}

fn check_params(line: &[u8]) -> Result<(), Fault>
    ensures { result_err result ≡ params_fault line.now }
{
    let fields = count_fields(line, Kind::Params)?;
    if fields != 3 {
        return Err(Fault::NotThree { fields });
    }
    Ok(())
}

fn check_row(s: RowsSoFar, line: &[u8]) -> Result<(), Fault>
    ensures { result_err result ≡ row_fault s line.now }
{
    let fields = count_fields(line, Kind::Row)?;
    if fields > table_text::MAX_FIELDS {
        return Err(Fault::ManyFields { fields });
    }
    if (s.count != 0) & (fields != s.count) {
        return Err(Fault::OtherCount {
            fields,
            before: s.count,
        });
    }
    if s.rows > limits::LAST_ROW {
        return Err(Fault::ManyRows);
    }
    Ok(())
}

// What is wrong with a line, given without its CR LF.
fn check_line(s: Progress, line: &[u8]) -> Result<(), Fault>
    ensures { result_err result ≡ line_fault s line.now }
{
    if line.is_empty() {
        return Err(Fault::Blank);
    }
    match s {
        Progress::Start => check_params(line),
        Progress::Rows(t) => check_row(t, line),
    }
}

// The place behind the last LF, or 0.
fn line_start(bytes: &[u8]) -> usize
    ensures within { result ≤ length bytes.now }
    ensures behind { drop result bytes.now ≡ last_text bytes.now }
{
    bytes.iter().rposition(|b| *b == b'\n').map_or(0, |i| i + 1)
}

// What is wrong with a line that an LF ends, given without the LF.
fn check_ended(s: Progress, text: &[u8]) -> Result<(), Fault>
    ensures { result_err result ≡ ended_fault s text.now }
{
    match text.split_last() {
        Some((b'\r', line)) => check_line(s, line),
        _ => Err(Fault::BareLf),
    }
}

// What is wrong with the last line of some bytes, where s has been accepted before it.
fn check_last(s: Progress, bytes: &[u8]) -> Result<(), Fault>
    ensures { result_err result ≡ last_line_fault s bytes.now }
{
    let Some((&last, text)) = bytes.split_last() else {
        return Err(Fault::NoLine);
    };
    if last == b'\n' {
        return check_ended(s, &text[line_start(text)..]);
    }
    let line = &bytes[line_start(bytes)..];
    if line.len() >= NO_END {
        return Err(Fault::NoEnd);
    }
    check_line(s, line)
}

// The same of a line that is refused; of one that is not, `Unlike`.
pub fn last_fault(s: Progress, bytes: &[u8]) -> Fault
    ensures { result ≡ last_fault_of s bytes.now }
{
    check_last(s, bytes).err().unwrap_or(Fault::Unlike)
}

// What is wrong at the end of the input, if anything: with the bytes behind the last line that has an end, or in that there is no line.
pub fn end_fault(s: Progress, bytes: &[u8]) -> Option<Fault>
    ensures fault { result ≡ end_fault_of s bytes.now }
    ensures refused { is_some result ≡ refused_at_end s bytes.now }
{
    if !bytes.is_empty() {
        return check_line(s, bytes).err();
    }
    match s {
        Progress::Start => Some(Fault::NoLine),
        Progress::Rows(_) => None,
    }
}
