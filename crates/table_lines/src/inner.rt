// For buffers that the caller has sized: the room for a line's text is `LINE_ROOM` bytes, that for a row `MAX_FIELDS` readings. The two
// stand apart: a line is handed the room behind the text of those before it, so a struct of both would be made anew for each.
ghost use Rattle.std.specs.Prelude.{◌≡◌, true, Some, List, [], ◌∷◌, ◌++◌, ℕ, ◌≤◌, ◌<◌, ◌+◌, length, take, drop};
ghost use Rattle.table_text.specs.declared.Progress.{Progress};
ghost use Rattle.table_text.specs.Sizes.{max_fields, max_line, line_room};
ghost use Rattle.table_text.specs.Text.{lf, next_line};
ghost use Rattle.table_text.specs.Lines.{no_lf};
ghost use Rattle.table_lines.specs.Bytes.{text_from, Put, Through, after_line};

use table_text::{Progress, Verdict};

// What some bytes give: what has been accepted then, whether the table goes on, the place behind the lines that were worked
// through, and how many bytes are printed for them. `goes_on` stands beside the progress: that is told of a refused line too.
#[derive(Clone, Copy)]
pub struct Fed {
    pub progress: Progress,
    pub goes_on: bool,
    pub from: usize,
    pub used: usize,
}

fn after_line(s: Progress, verdict: Verdict, from: usize, used: usize) -> Fed
    ensures { result ≡ after_line s verdict from used }
{
    match verdict {
        Verdict::Heading(t) | Verdict::Row(t) => Fed {
            progress: Progress::Rows(t),
            goes_on: true,
            from,
            used,
        },
        Verdict::Refused => Fed {
            progress: s,
            goes_on: false,
            from,
            used,
        },
    }
}

// A line that an LF ends, given without the LF; the byte before it must be CR.
fn put_ended(s: Progress, text: &[u8], row: &mut [f32], out: &mut [u8]) -> Fed
    requires { (no_lf text.now ≡ true) × (max_fields ≤ length row.old) × (line_room ≤ length out.old) }
    ensures put { Put s (text.now ++ (lf ∷ [])) out.old out.new result }
    ensures from_value { result.from ≡ length text.now + 1 }
{
    let from = text.len() + 1;
    if table_text::ends_in_cr(text) {
        let n = text.len() - 1;
        let p = table_peak_lines::inner::put_line(s, &text[..n], row, out);
        return after_line(s, p.verdict, from, p.used);
    }
    let used = table_text::inner::put_refusal(out);
    after_line(s, Verdict::Refused, from, used)
}

// One line more, which ends at the LF at place i.
fn put_next(f: Fed, bytes: &[u8], i: usize, row: &mut [f32], out: &mut [u8]) -> Fed
    requires { (f.goes_on ≡ true) × (next_line bytes.now f.from ≡ Some i) × (max_fields ≤ length row.old) × (f.used + line_room ≤ length out.old) }
    ensures put { (s : Progress) (out₀ : List ℕ) → Put s bytes.now out₀ out.old f → Put s bytes.now out₀ out.new result }
    ensures from_lt_from { f.from < result.from }
{
    let p = put_ended(f.progress, &bytes[f.from..i], row, &mut out[f.used..]);
    Fed {
        from: f.from + p.from,
        used: f.used + p.used,
        ..p
    }
}

// Works through lines that have an end, as long as the room in `out` is enough for any line's text, and writes what is printed
// for them to the front of `out`. Among the first `seen` bytes there is no LF: they are not searched again.
pub fn put_lines(s: Progress, bytes: &[u8], seen: usize, row: &mut [f32], out: &mut [u8]) -> Fed
    requires { (no_lf (take seen bytes.now) ≡ true) × (max_fields ≤ length row.old) }
    ensures put { Put s bytes.now out.old out.new result }
    ensures through { Through bytes.now out.old result }
{
    let mut f = Fed {
        progress: s,
        goes_on: true,
        from: 0,
        used: 0,
    };
    let mut look = seen;
    // A `while`: it ends where the room does, and no list has the lines.
    while table_text::LINE_ROOM <= out.len() - f.used {
        let Some(i) = table_text::next_line(bytes, look) else {
            return f;
        };
        f = put_next(f, bytes, i, row, out);
        if !f.goes_on {
            return f;
        }
        look = f.from;
    }
    f
}

// The last line, which has no LF, and the end of the table: for no bytes, what is printed at the end.
pub fn put_last(s: Progress, bytes: &[u8], row: &mut [f32], out: &mut [u8]) -> usize
    requires { (no_lf bytes.now ≡ true) × (max_fields ≤ length row.old) × (line_room ≤ length out.old) }
    ensures count { result ≡ length (text_from s bytes.now) }
    ensures room { result ≤ length out.old }
    ensures front { out.new ≡ text_from s bytes.now ++ drop result out.old }
{
    if !bytes.is_empty() {
        return table_peak_lines::inner::put_line(s, bytes, row, out).used;
    }
    match s {
        Progress::Start => table_text::inner::put_refusal(out),
        Progress::Rows(_) => 0,
    }
}

// Bytes without LF that are more than any accepted line has: the refusal, whatever follows.
pub fn put_overlong(s: Progress, bytes: &[u8], out: &mut [u8]) -> usize
    requires { (no_lf bytes.now ≡ true) × (max_line < length bytes.now) × (line_room ≤ length out.old) }
    ensures count { (rest : List ℕ) → result ≡ length (text_from s (bytes.now ++ rest)) }
    ensures room { result ≤ length out.old }
    ensures front { (rest : List ℕ) → out.new ≡ text_from s (bytes.now ++ rest) ++ drop result out.old }
{
    table_text::inner::put_refusal(out)
}
