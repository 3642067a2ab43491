// For buffers that the caller has sized: `buf` has room for any line, `row` for its readings, `out` for its text. They stand apart: each
// call lends the part of `buf` that is held and the part of `out` behind the text that waits, so a struct of them would be made anew.
ghost use Rattle.std.specs.Prelude.{◌≡◌, true, false, List, ◌++◌, ℕ, ◌≤◌, ◌<◌, ◌+◌, ◌-◌, length, take, drop};
ghost use Rattle.table_text.specs.Sizes.{max_fields, max_line, line_room};
ghost use Rattle.table_text.specs.Print.{refusal};
ghost use Rattle.table_text.specs.Lines.{no_lf};
ghost use Rattle.table_lines.specs.Bytes.{text_from};
ghost use Rattle.table_lines.specs.Refused.{RefusedLast};
ghost use Rattle.table_job.specs.Stands.{first, held, at_front, with_bytes, handed_over, over, Within, Ready, Added, Stands, Ends};

use table_text::Progress;

// What has been accepted; the bytes that are held, from a place to another, the first `seen` of which have no LF; how many bytes of
// text wait at the front of their buffer; and whether the table goes on, which is no Option: a table at its end has the rest too.
#[derive(Clone, Copy)]
pub struct Job {
    pub progress: Progress,
    pub from: usize,
    pub have: usize,
    pub seen: usize,
    pub waiting: usize,
    pub goes_on: bool,
}

// Moves the bytes from a place on to the front, unless they stand there, and answers how many there are.
fn to_front(buf: &mut [u8], from: usize, have: usize) -> usize
    requires { (from ≤ have) × (have ≤ length buf.old) }
    ensures value { result ≡ have - from }
    ensures buf_after { take result buf.new ≡ take (have - from) (drop from buf.old) }
{
    if from > 0 {
        buf.copy_within(from..have, 0);
    }
    have - from
}

impl Job {
    // Before the first read.
    pub fn start() -> Self
        ensures { result ≡ first }
    {
        Job {
            progress: Progress::Start,
            from: 0,
            have: 0,
            seen: 0,
            waiting: 0,
            goes_on: true,
        }
    }

    // After a read that put k bytes behind those that are held.
    pub fn with_bytes(self, k: usize) -> Self
        requires { self.have + k < 0x1_0000_0000_0000_0000 }
        ensures { result ≡ with_bytes self k }
    {
        Job {
            have: self.have + k,
            ..self
        }
    }

    // After a write of all text that waited.
    pub fn handed_over(self) -> Self
        ensures { result ≡ handed_over self }
    {
        Job { waiting: 0, ..self }
    }

    // At the end of the table, with n more bytes of text.
    fn over(self, n: usize) -> Self
        requires { self.waiting + n < 0x1_0000_0000_0000_0000 }
        ensures { result ≡ over self n }
    {
        Job {
            from: self.have,
            seen: 0,
            waiting: self.waiting + n,
            goes_on: false,
            ..self
        }
    }

    // Lines that have an end, as many as there is room for.
    fn lines(self, buf: &[u8], row: &mut [f32], out: &mut [u8]) -> Self
        requires { Within buf.now (length out.old) self × (self.goes_on ≡ true) × (max_fields ≤ length row.old) }
        ensures within { Within buf.now (length out.old) result }
        ensures keeps { (input gone : List ℕ) → Stands input gone buf.now out.old self → Stands input gone buf.now out.new result }
        ensures through { result.goes_on ≡ true → result.waiting + line_room ≤ length out.old → no_lf (held buf.now result) ≡ true }
        ensures refused { result.goes_on ≡ false → RefusedLast result.progress (take result.from buf.now) }
    {
        let f = table_lines::inner::put_lines(
            self.progress,
            &buf[self.from..self.have],
            self.seen,
            row,
            &mut out[self.waiting..],
        );
        Job {
            progress: f.progress,
            from: self.from + f.from,
            seen: 0,
            waiting: self.waiting + f.used,
            goes_on: f.goes_on,
            ..self
        }
    }

    // The bytes that are held, which have no LF, stand at the front then.
    fn at_front(self, buf: &mut [u8]) -> Self
        requires { (self.from ≤ self.have) × (self.have ≤ length buf.old) }
        ensures value { result ≡ at_front self }
        ensures buf_after { take (self.have - self.from) buf.new ≡ held buf.old self }
    {
        let left = to_front(buf, self.from, self.have);
        Job {
            from: 0,
            have: left,
            seen: left,
            goes_on: true,
            ..self
        }
    }

    // A line that has no end in all the room for one.
    fn overlong(self, buf: &[u8], out: &mut [u8]) -> Self
        requires { (no_lf buf.now ≡ true) × (max_line < length buf.now) × (self.waiting + line_room ≤ length out.old) }
        ensures { (rest : List ℕ) → (result ≡ over self (length (text_from self.progress (buf.now ++ rest)))) × Added out.old out.new (text_from self.progress (buf.now ++ rest)) self.waiting result.waiting }
    {
        let used = table_lines::inner::put_overlong(self.progress, buf, &mut out[self.waiting..]);
        self.over(used)
    }

    // Works through the bytes that are held: all lines that have an end, or as many as there is room for. With room for more text, and
    // where the table goes on, a read is due. Where it does not, the bytes before `from` end with the line that is refused.
    pub fn work(self, buf: &mut [u8], row: &mut [f32], out: &mut [u8]) -> Self
        requires { Within buf.old (length out.old) self × (self.goes_on ≡ true) × (max_line < length buf.old) × (max_fields ≤ length row.old) }
        ensures within { Within buf.new (length out.old) result }
        ensures keeps { (input gone : List ℕ) → Stands input gone buf.old out.old self → Stands input gone buf.new out.new result }
        ensures ready { result.goes_on ≡ true → result.waiting + line_room ≤ length out.old → Ready buf.new (length out.old) result }
        ensures refused { result.goes_on ≡ false → RefusedLast result.progress (take result.from buf.new) }
    {
        let t = self.lines(buf, row, out);
        if !t.goes_on {
            return t;
        }
        if out.len() - t.waiting < table_text::LINE_ROOM {
            return t;
        }
        let f = t.at_front(buf);
        if f.have == buf.len() {
            return f.overlong(buf, out);
        }
        f
    }

    // At the end of the input: its last line, which lacks its end, and the end of the table.
    pub fn ended(self, buf: &[u8], row: &mut [f32], out: &mut [u8]) -> Self
        requires { Ready buf.now (length out.old) self × (self.goes_on ≡ true) × (max_fields ≤ length row.old) }
        ensures within { Within buf.now (length out.old) result }
        ensures ends { (input gone : List ℕ) → Stands input gone buf.now out.old self → Ends input gone out.new result }
        ensures progress_unchanged { result.progress ≡ self.progress }
    {
        let used = table_lines::inner::put_last(
            self.progress,
            &buf[..self.have],
            row,
            &mut out[self.waiting..],
        );
        self.over(used)
    }

    // Where reading failed: the refusal, which no byte gives.
    pub fn refused(self, out: &mut [u8]) -> Self
        requires { self.waiting + line_room ≤ length out.old }
        ensures { (result ≡ over self (length refusal)) × Added out.old out.new refusal self.waiting result.waiting }
    {
        let used = table_text::inner::put_refusal(&mut out[self.waiting..]);
        self.over(used)
    }
}
