// The checks of a frame index. Each takes any lists.
ghost use Rattle.std.specs.Prelude.{◌≡◌, true, ◌≤◌, ◌+◌, ◌-◌, eqb, length};
ghost use Rattle.row_params.specs.Params.{rising};
ghost use Rattle.frames_index.specs.FrameIndex.{climbs_to, bins_between, frames_rise, sound_lists, seen_in};

// What reading an index shows: lengths that agree (number 1), a size above its limit (2), readings (3) and scans (5) in range, and
// whether it is sound (23). A flag for each rung of the ladder, of which any may be set: no enum of cases stands for them.
#[derive(Clone, Copy)]
pub struct Seen {
    pub agreeing: bool,
    pub too_large: bool,
    pub readings: bool,
    pub scans: bool,
    pub sound: bool,
}

// How many frames there are, by the count of starts.
pub fn frames(starts: usize) -> usize
    ensures { result ≡ starts - 1 }
{
    starts.saturating_sub(1)
}

// Whether numbers start at 0, never fall and end at n.
#[tactic(auto, unfolding(crate::specs::FrameIndex::climbs_to))]
fn climbs_to(n: usize, list: &[u32]) -> bool
    ensures { result ≡ climbs_to n list.now }
{
    let Some((&first, rest)) = list.split_first() else {
        return false;
    };
    let climbs = row_params::inner::all_neighbours(list, |last, x| last <= x);
    (first == 0) & climbs & (list[rest.len()] as usize == n)
}

// Whether the bins of a frame rise: those from place s on, before place t.
fn rises(bins: &[u32], s: usize, t: usize) -> bool
    requires { (s ≤ t) × (t ≤ length bins.now) }
    ensures { result ≡ rising (bins_between bins.now s t) }
{
    row_params::inner::is_rising(&bins[s..t])
}

// Whether those of each frame do: a frame is two neighbours of the starts. The test may be asked of these alone, whose places are in order
// and in the list; `all_neighbours` takes a test of any two numbers.
#[tactic(auto, unfolding(crate::specs::FrameIndex::frames_rise))]
fn frames_rise(bins: &[u32], starts: &[u32]) -> bool
    requires { climbs_to (length bins.now) starts.now ≡ true }
    ensures { result ≡ frames_rise bins.now starts.now }
{
    let Some((_, rest)) = starts.split_first() else {
        return true;
    };
    starts
        .iter()
        .zip(rest)
        .map(|(&from, &to)| rises(bins, from as usize, to as usize))
        .fold(true, |all, rise| all & rise)
}

// Whether number 23 does not apply.
pub fn is_sound(starts: &[u32], bins: &[u32], offsets: &[u32], points: usize) -> bool
    ensures { result ≡ sound_lists starts.now bins.now offsets.now points }
{
    if climbs_to(bins.len(), starts) & climbs_to(points, offsets) {
        return row_params::inner::all_up_to(limits::LAST_ROW, bins) & frames_rise(bins, starts);
    }
    false
}
