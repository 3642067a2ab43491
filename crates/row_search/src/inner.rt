// The search for the kept apexes of a row that the caller has checked.
ghost use Rattle.std.specs.Prelude.{◌≡◌, true, cond, ◌&&◌, ◌++◌, List, ℕ, ◌≤◌, ◌<◌, ◌+◌, ◌-◌, ◌*◌, ltb, length, drop};
ghost use Rattle.limits.specs.Limits.{exact_index};
ghost use Rattle.numeric.specs.Arith.{𝟎};
ghost use Rattle.row_spans.specs.Memo.{Memo};
ghost use Rattle.row_baselines.specs.Searched.{Searched};
ghost use Rattle.row_search.specs.SameLists.{SameLists};
ghost use Rattle.row_search.specs.Qualifying.{highest_reading, reaches};
ghost use Rattle.row_search.specs.Found.{found_size, word, measured_words, measured_at, with_measured, Fits, Found, keep_if, Keeps, Spot, kept_of, Searchable, Done};

use super::scratch::Scratch;
use row_params::ImDetectParams;
use row_spans::inner::Apex;

// The words of an apex that is found.
const FOUND: usize = 8;

// What is measured of an apex.
#[derive(Clone, Copy)]
pub struct Measured {
    pub index: usize,
    pub left: u32,
    pub right: u32,
    pub width: u32,
    pub prominence: f32,
    pub left_x: f32,
    pub right_x: f32,
    pub area: f32,
}

// How many apexes are kept so far, the newest of them, and how many spans the memo has. There is a newest one where the count is not 0;
// an `Option` of it would say that twice.
#[derive(Clone, Copy, Default)]
pub struct Keeping {
    pub count: usize,
    pub last: usize,
    pub depth: usize,
}

// Whether the highest reading of a row, or 0, reaches the floor.
pub fn reaches_floor(z: &[f32], floor: f32) -> bool
    ensures { result ≡ reaches floor (highest_reading 𝟎 z.now) }
{
    z.iter()
        .fold(!(0.0 < floor), |any, &reading| any | (floor <= reading))
}

// ---- what is measured, as words

// Writes the words of an apex to the front of `out`.
fn put_words(out: &mut [u32], m: Measured)
    requires { (found_size ≤ length out.old) × (m.index ≤ exact_index) }
    ensures words { out.new ≡ measured_words m ++ drop found_size out.old }
    ensures fit { Fits m }
{
    out[..FOUND].copy_from_slice(&[
        m.index as u32,
        m.left,
        m.right,
        m.width,
        numeric::inner::kept_word(m.prominence),
        numeric::inner::kept_word(m.left_x),
        numeric::inner::kept_word(m.right_x),
        numeric::inner::kept_word(m.area),
    ]);
}

// Writes an apex to place j of a list.
fn put_measured(out: &mut [u32], j: usize, m: Measured)
    requires { (j * found_size + found_size ≤ length out.old) × (m.index ≤ exact_index) }
    ensures words { out.new ≡ with_measured out.old j m }
    ensures fit { Fits m }
{
    let at = j * FOUND;
    put_words(&mut out[at..], m);
}

// The apex at place j of a list.
pub fn measured_at(found: &[u32], j: usize) -> Measured
    requires { j * found_size + found_size ≤ length found.now }
    ensures { result ≡ measured_at found.now j }
{
    let at = j * FOUND;
    Measured {
        index: found[at] as usize,
        left: found[at + 1],
        right: found[at + 2],
        width: found[at + 3],
        prominence: numeric::float_of(found[at + 4]),
        left_x: numeric::float_of(found[at + 5]),
        right_x: numeric::float_of(found[at + 6]),
        area: numeric::float_of(found[at + 7]),
    }
}

// ---- the search

// Whether an apex at i is nearer to the newest of `count` kept ones than the least distance.
fn is_near(count: usize, last: usize, i: usize, distance: u32) -> bool
    requires { 0 < count → last < i }
    ensures { result ≡ (ltb 0 count && ltb (i - last) distance) }
{
    count > 0 && i - last < distance as usize
}

// The place of an apex that is kept: behind the others, or that of the newest one if it is near.
fn place_for(count: usize, near: bool) -> usize
    requires { near ≡ true → 0 < count }
    ensures { result ≡ cond near (count - 1) count }
{
    if near { count - 1 } else { count }
}

// Looks at the next apex, at i, whose baseline is known, and keeps it if it qualifies and no newest one is in its way: behind
// the newest kept one or, if it is near and higher, in its place. The rows and what is asked of an apex are no struct: the reason stands at
// `Look` in row_spans.
fn keep_next(
    y: &[f32],
    z: &[f32],
    base: f32,
    i: usize,
    p: ImDetectParams,
    s: Keeping,
    memo: &mut [u32],
    found: &mut [u32],
) -> Keeping
    requires { Spot y.now z.now base i × Memo y.now z.now memo.old s.depth i × (s.count * found_size + found_size ≤ length found.old) × (0 < s.count → s.last < i) }
    ensures { Memo y.now z.now memo.new result.depth (i + 1) × ((ks : List ℕ) → Keeps y.now z.now found.old i s ks → Keeps y.now z.now found.new (i + 1) result (keep_if p y.now ks i)) }
{
    let count = s.count;
    let last = s.last;
    let prominence = y[i] - base;
    if prominence < p.min_prom {
        return s;
    }
    let near = is_near(count, last, i, p.min_distance_scans);
    if near {
        if y[i] <= y[last] {
            return s;
        }
    }
    let apex = Apex {
        y,
        z,
        h: base + 0.5 * prominence,
        i,
    };
    let seen = apex.look_at(p.min_width_scans, memo, s.depth);
    let depth = seen.depth;
    let Some(a) = seen.span else {
        return Keeping { count, last, depth };
    };
    let place = place_for(count, near);
    put_measured(
        found,
        place,
        Measured {
            index: i,
            left: a.left,
            right: a.right,
            width: a.width,
            prominence,
            left_x: a.left_x,
            right_x: a.right_x,
            area: a.area,
        },
    );
    Keeping {
        count: place + 1,
        last: i,
        depth,
    }
}

// The apexes of a row that are kept, of the m candidates whose baselines are known. Answers how many there are; what is measured of them
// stands at the front of `found`. What `bases` holds behind the baselines is the memo. The three lists are no `Scratch`: one is read while
// the two others are written, and the search for the candidates has used one of them as its stack.
fn keep_all(
    y: &[f32],
    z: &[f32],
    turns: &[u32],
    bases: &mut [u32],
    m: usize,
    p: ImDetectParams,
    found: &mut [u32],
) -> usize
    requires { Searched y.now turns.now bases.old m × (length y.now ≤ exact_index) × (length z.now ≤ exact_index) × (m * found_size ≤ length found.old) }
    ensures { (result ≡ length (kept_of p y.now turns.now m)) × Found y.now z.now found.new (kept_of p y.now turns.now m) }
{
    let mut s = Keeping::default();
    // By numbers: the apex k stands at an odd place of `turns`, its baseline at k of `bases`, whose rest is written meanwhile.
    for k in 0..m {
        let i = turns[2 * k + 1] as usize;
        let base = numeric::float_of(bases[k]);
        s = keep_next(y, z, base, i, p, s, &mut bases[m..], found);
    }
    s.count
}

// Finds the kept apexes of a row that reaches the floor: answers how many there are; what is measured of them stands at the front of
// the list `found` of the scratch.
pub fn find_apexes(y: &[f32], z: &[f32], p: ImDetectParams, s: &mut Scratch<'_>) -> usize
    requires { Searchable p y.now z.now s.old.samples }
    ensures done { Done p y.now z.now s.new.found.now result }
    ensures samples { s.new.samples ≡ s.old.samples }
    ensures lists { SameLists s.old s.new }
{
    numeric::inner::all_fit(y);
    let m = row_baselines::inner::find(y, s.turns, s.bases, s.found);
    keep_all(y, z, s.turns, s.bases, m, p, s.found)
}
