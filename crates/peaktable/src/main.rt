// Reads RFC 4180 lines from standard input, parameters first and then rows of readings, and prints the table of their mobility
// peaks to standard output. It holds a line at a time. What lies between a read and a write is `table_job`: here are the calls.
#![tactic(auto)]

mod say;

ghost use Rattle.std.specs.Prelude.{◌≡◌, ◌≢◌, true, Some, List, ℕ, ◌≤◌, ◌<◌, ◌+◌, length, take, IfOk};
ghost use Rattle.table_text.specs.Sizes.{max_fields, max_line, line_room};
ghost use Rattle.table_text.specs.Lines.{no_lf};
ghost use Rattle.table_faults.specs.declared.Fault.{Fault};
ghost use Rattle.table_faults.specs.Faults.{last_line_fault, last_fault_of, end_fault_of};
ghost use Rattle.table_lines.specs.Refused.{RefusedLast};
ghost use Rattle.table_job.specs.Stands.{held, Reached, Ends};

use say::Failure;
use std::io::{self, Read, Stdin};
use table_faults::Fault;
use table_job::inner::Job;

// Reads bytes behind those that are there, and says how many: 0 at the end of the input.
fn more_bytes(input: &mut Stdin, buf: &mut [u8], have: usize) -> io::Result<usize>
    requires { have < length buf.old }
    ensures buf_unchanged { take have buf.new ≡ take have buf.old }
    ensures result_in_bounds { IfOk result (λ k. have + k ≤ length buf.old) }
{
    input.read(&mut buf[have..])
}

// Writes the end of the table of all that was read, after a word on standard error where it is a refusal: of the line that comes behind
// those that have been accepted.
fn finish(
    rt: &(impl Print + Eprint),
    j: Job,
    fault: Option<Fault>,
    out: &[u8],
) -> Result<(), Failure>
    requires { (j.waiting ≤ length out.now) × ((input : List ℕ) × (gone : List ℕ) × (left : List ℕ) × Ends input gone out.now j × Reached input j.progress left) }
{
    if let Some(fault) = fault {
        say::refused(rt, j.progress, fault);
    }
    rt.write_all(&out[..j.waiting])?;
    Ok(())
}

// The fault of the line that ended the table, whatever comes behind it.
fn fault_behind(j: Job, buf: &[u8]) -> Fault
    requires { (j.from ≤ length buf.now) × RefusedLast j.progress (take j.from buf.now) }
    ensures value { result ≡ last_fault_of j.progress (take j.from buf.now) }
    ensures found { last_line_fault j.progress (take j.from buf.now) ≡ Some result }
    ensures named { result ≢ Fault.Unlike }
{
    table_faults::last_fault(j.progress, &buf[..j.from])
}

// The fault at the end of the input, if there is one: of all that is held, which is one line or none.
fn fault_at_end(j: Job, buf: &[u8]) -> Option<Fault>
    requires { (j.from ≡ 0) × (j.have ≤ length buf.now) × (no_lf (held buf.now j) ≡ true) }
    ensures { result ≡ end_fault_of j.progress (take j.have buf.now) }
{
    table_faults::end_fault(j.progress, &buf[..j.have])
}

// Writes what waits where reading failed: the refusal behind it.
fn give_up(rt: &(impl Print + Eprint), j: Job, out: &mut [u8]) -> Result<(), Failure>
    requires { j.waiting + line_room ≤ length out.old }
{
    let r = j.refused(out);
    say::failed(rt, Failure::Read);
    rt.write_all(&out[..r.waiting])?;
    Ok(())
}

fn run(
    rt: &(impl Print + Eprint),
    input: &mut Stdin,
    buf: &mut [u8],
    row: &mut [f32],
    out: &mut [u8],
) -> Result<(), Failure>
    requires { (max_line < length buf.old) × (max_fields ≤ length row.old) × (line_room ≤ length out.old) }
{
    let mut job = Job::start();
    // A `loop` would need a measure, and an input has none.
    for _ in 0..u64::MAX {
        job = job.work(buf, row, out);
        if !job.goes_on {
            let fault = fault_behind(job, buf);
            return finish(rt, job, Some(fault), out);
        }
        if out.len() - job.waiting < table_text::LINE_ROOM {
            rt.write_all(&out[..job.waiting])?;
            job = job.handed_over();
        } else {
            match more_bytes(input, buf, job.have) {
                Ok(0) => {
                    let fault = fault_at_end(job, buf);
                    job = job.ended(buf, row, out);
                    return finish(rt, job, fault, out);
                }
                Ok(k) => job = job.with_bytes(k),
                Err(_) => return give_up(rt, job, out),
            }
        }
    }
    Err(Failure::Read)
}

fn main(rt: HostRuntime) {
    let mut buf = [0u8; 65536];
    let mut row = [0f32; table_text::MAX_FIELDS];
    let mut out = [0u8; 262144];
    if let Err(failure) = run(&rt, &mut rt.stdin(), &mut buf, &mut row, &mut out) {
        say::failed(&rt, failure);
    }
}
