// The call of a line, and whether the line has its answer.
ghost use Rattle.std.specs.Prelude.{◌≡◌};
ghost use Rattle.stitch.specs.Answer.{rooms_of};
ghost use Rattle.stitch.specs.Answer.{lent as lists};
ghost use Rattle.c_grid_stitch.specs.Stitching.{Answered};
ghost use Rattle.test_replay_stitching.specs.Replay.{params_in, told_in, agrees_in, agrees};
ghost use Rattle.test_replay_stitching.specs.Steps.{owners_by, has_in};

use super::words::{ROOM, lent, part};
use test_hex_lines::parts::{float, word};

// The answer of the C entry, which takes its six lists one by one.
fn answer(
    line: &[u32],
    list: &[u32],
    out: &mut [u32],
    owners: &mut [u32],
    order: &mut [u32],
    groups: &mut [u32],
    keys: &mut [u32],
    merged: &mut [u32],
) -> u64
    ensures { Answered (told_in line.now) list.now (params_in line.now)
        (lists out.old owners.old order.old groups.old keys.old merged.old)
        (lists out.new owners.new order.new groups.new keys.new merged.new)
        result }
{
    c_grid_stitch::stitching::rubzolena_stitch_im_peaks(
        list,
        word(line, 7),
        word(line, 8),
        float(line, 9),
        word(line, 10),
        word(line, 11),
        word(line, 12),
        float(line, 13),
        word(line, 14),
        out,
        owners,
        order,
        groups,
        keys,
        merged,
    )
}

// How many owners there are.
fn owners_by(r: u64, words: usize) -> usize
    ensures { result ≡ owners_by r words }
{
    if r % 64 == 0 { words / 27 } else { 0 }
}

// Whether the rest of a line has an answer.
fn has(rest: &[u32], r: u64, out: &[u32], owners: &[u32], m: usize) -> bool
    ensures { result ≡ has_in rest.now r out.now owners.now m }
{
    let head: &[u32] = &[(r % 64) as u32, (r / 64 % 4294967296) as u32];
    let k = (r / 64) as usize * 27;
    (part(rest, 0, 2) == head)
        & (part(rest, 2, k) == part(out, 0, k))
        & (part(rest, 2 + k, rest.len()) == part(owners, 0, m))
}

// Whether a line has its answer, with those lists lent: one by one, as the entry takes them, for it alone gets them.
fn judged(
    line: &[u32],
    out: &mut [u32],
    owners: &mut [u32],
    order: &mut [u32],
    groups: &mut [u32],
    keys: &mut [u32],
    merged: &mut [u32],
) -> bool
    ensures { result ≡ agrees_in line.now (rooms_of
        (lists out.old owners.old order.old groups.old keys.old merged.old)) }
{
    let n = word(line, 0) as usize;
    let list = part(line, 15, n);
    let r = answer(line, list, out, owners, order, groups, keys, merged);
    let rest = part(line, 15 + n, line.len());
    has(rest, r, out, owners, owners_by(r, list.len()))
}

// Whether a line has its answer.
pub(crate) fn is_right(line: &[u32]) -> bool
    ensures { result ≡ agrees line.now }
{
    let mut out = [0u32; ROOM];
    let mut owners = [0u32; ROOM];
    let mut order = [0u32; ROOM];
    let mut groups = [0u32; ROOM];
    let mut keys = [0u32; ROOM];
    let mut merged = [0u32; ROOM];
    let a = lent(line, 1);
    let b = lent(line, 2);
    let c = lent(line, 3);
    let d = lent(line, 4);
    let e = lent(line, 5);
    let f = lent(line, 6);
    judged(
        line,
        &mut out[..a],
        &mut owners[..b],
        &mut order[..c],
        &mut groups[..d],
        &mut keys[..e],
        &mut merged[..f],
    )
}
