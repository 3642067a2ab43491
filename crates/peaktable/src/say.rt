// Words on standard error, for people: the first one of a line tells what the program installed as `peaktable` answers as its exit
// status (docs/TABLE.md).
ghost use Rattle.std.specs.Prelude.{◌≡◌};
ghost use Rattle.table_lines.specs.Refused.{line_number};

use std::fmt;
use std::io::{self, ErrorKind};
use table_faults::Fault;
use table_text::Progress;

// What keeps the table from being whole.
#[derive(Clone, Copy, Debug, PartialEq, Eq)]
pub(crate) enum Failure {
    Read,
    Write,
    ReaderGone,
}

impl From<io::Error> for Failure {
    // Of a write.
    fn from(e: io::Error) -> Self {
        match e.kind() {
            ErrorKind::BrokenPipe => Failure::ReaderGone,
            _ => Failure::Write,
        }
    }
}

impl fmt::Display for Failure {
    fn fmt<W: fmt::Write>(&self, f: &mut fmt::Formatter<W>) -> fmt::Result {
        f.write_str(match self {
            Failure::Read => "the input cannot be read",
            Failure::Write => "the table cannot be written",
            Failure::ReaderGone => "the table cannot be written: its reader closed the pipe",
        })
    }
}

// The number of the input line that comes next: the rows count from the second line on.
fn line_number(s: Progress) -> u64
    ensures { result ≡ line_number s }
{
    match s {
        Progress::Start => 1,
        Progress::Rows(t) => u64::from(t.rows) + 2,
    }
}

// Which input line is refused, and why.
pub(crate) fn refused(rt: &impl Eprint, s: Progress, fault: Fault) {
    let line = line_number(s);
    let _ = eprintln!(rt; "peaktable: refused, input line {line}: {fault}");
}

pub(crate) fn failed(rt: &impl Eprint, failure: Failure) {
    let _ = eprintln!(rt; "peaktable: failed, {failure}");
}
