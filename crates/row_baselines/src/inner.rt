// Steps over a row that the caller has checked.
ghost use Rattle.std.specs.Prelude.{◌≡◌, ◌+◌, ◌*◌, ◌≤◌, ◌<◌, min, length};
ghost use Rattle.limits.specs.Limits.{exact_index};
ghost use Rattle.numeric.specs.Plain.{AllPlain};
ghost use Rattle.row_turns.specs.Turns.{Turning};
ghost use Rattle.row_baselines.specs.Lows.{mark_at, Based};
ghost use Rattle.row_baselines.specs.Stack.{Marked, Roomy, Stacked, Walks, Ends, High, Popped, Swept, apex_at, gap_at, stack_low, based};
ghost use Rattle.row_baselines.specs.Searched.{Room, Searched};

// Where a sweep over the m apexes of a row stands: at the apex k, or behind the last one. What stands in `turns` behind the turns of the m
// apexes is left over from other rows. Of `turns[..2 * m + 1]` m would be half of a length in each contract below, all of which speak of m.
#[derive(Clone, Copy)]
struct Sweep<'a> {
    y: &'a [f32],
    turns: &'a [u32],
    m: usize,
    k: usize,
    ghost marked: { Marked y.now turns.now m },
}

impl<'a> Sweep<'a> {
    // The bit pattern of the reading at the valley left of the apex j, or behind the last apex.
    fn valley(self, j: usize) -> u32
        requires { j ≤ self.m }
        ensures { result ≡ mark_at self.entry.y.now self.entry.turns.now (2 * j) }
    {
        f32::to_bits(self.y[self.turns[2 * j] as usize])
    }

    // That of the reading at the apex j.
    fn apex(self, j: usize) -> u32
        requires { j < self.m }
        ensures { result ≡ mark_at self.entry.y.now self.entry.turns.now (2 * j + 1) }
    {
        f32::to_bits(self.y[self.turns[2 * j + 1] as usize])
    }
}

// The stack of a sweep: words of entries, and how many entries are on it.
#[derive(Drop)]
struct Stack<'a> {
    words: &'a mut [u32],
    depth: usize,
}

impl<'a> Stack<'a> {
    // The entry t leaves the stack: the base of its apex is the higher of its left low, which stands there, and its right low. Answers the
    // lowest valley behind the entry below.
    fn settle(&self, bases: &mut [u32], t: usize, low: u32) -> u32
        requires { (2 * t + 1 < length self.now.words.now) × (apex_at self.now.words.now t < length bases.old) }
        ensures { (result ≡ min (gap_at self.now.words.now t) low) × (bases.new ≡ based bases.old self.now.words.now t low) }
    {
        let j = self.words[2 * t] as usize;
        bases[j] = bases[j].max(low);
        self.words[2 * t + 1].min(low)
    }

    // Takes the apexes below h off the stack, where a walk to their right ends at the apex that the sweep is at, and settles their bases.
    // Those that stay are not below h. Answers the lowest valley behind the top one.
    fn pop(&mut self, at: Sweep<'_>, bases: &mut [u32], h: u32, low: u32) -> u32
        requires { Roomy at.m at.k bases.old self.old.words.now × Stacked (mark_at at.y.now at.turns.now) at.m at.k bases.old self.old.words.now self.old.depth low × Walks (mark_at at.y.now at.turns.now) at.k self.old.words.now self.old.depth × Ends (mark_at at.y.now at.turns.now) at.m at.k h }
        ensures popped { Popped (mark_at at.entry.y.now at.entry.turns.now) at.entry.m at.entry.k h bases.new self.new.words.now low self.new.depth result }
        ensures words { self.new.words.now ≡ self.old.words.now }
    {
        let mut least = low;
        // By numbers: one more than the place of the entry on top is how many stay.
        for t in (0..self.depth).rev() {
            if h <= at.apex(self.words[2 * t] as usize) {
                self.depth = t + 1;
                return least;
            }
            least = self.settle(bases, t, least);
        }
        self.depth = 0;
        least
    }

    // The left low of an apex of height h that comes next, where no entry is below h: an equal apex on top is passed, and its left low
    // counts.
    fn left_of(&self, at: Sweep<'_>, bases: &[u32], h: u32, low: u32) -> u32
        requires { Roomy at.m at.k bases.now self.now.words.now × Stacked (mark_at at.y.now at.turns.now) at.m at.k bases.now self.now.words.now self.now.depth low × High (mark_at at.y.now at.turns.now) self.now.words.now self.now.depth h }
        ensures { result ≡ stack_low (mark_at at.entry.y.now at.entry.turns.now) self.now.words.now h low self.now.depth }
    {
        if self.depth == 0 {
            return low;
        }
        let t = self.depth - 1;
        let j = self.words[2 * t] as usize;
        if h < at.apex(j) {
            return low;
        }
        bases[j].min(low)
    }

    // Passes the apex that the sweep is at: those below it leave the stack, and it is put on top.
    fn pass(&mut self, at: Sweep<'_>, bases: &mut [u32])
        requires { (at.k < at.m) × Roomy at.m at.k bases.old self.old.words.now × Swept (mark_at at.y.now at.turns.now) at.m at.k bases.old self.old.words.now self.old.depth }
        ensures swept { Swept (mark_at at.entry.y.now at.entry.turns.now) at.entry.m (at.entry.k + 1) bases.new self.new.words.now self.new.depth }
        ensures long { length self.new.words.now ≡ length self.old.words.now }
    {
        let h = at.apex(at.k);
        let low = self.pop(at, bases, h, at.valley(at.k));
        let left = self.left_of(at, bases, h, low);
        let top = self.depth;
        self.words[2 * top] = at.k as u32;
        self.words[2 * top + 1] = low;
        self.depth = top + 1;
        bases[at.k] = left;
    }

    // Takes all entries off the stack, behind the last apex.
    fn settle_all(&self, at: Sweep<'_>, bases: &mut [u32])
        requires { (at.k ≡ at.m) × Roomy at.m at.m bases.old self.now.words.now × Stacked (mark_at at.y.now at.turns.now) at.m at.m bases.old self.now.words.now self.now.depth (mark_at at.y.now at.turns.now (2 * at.m)) }
        ensures { Based (mark_at at.entry.y.now at.entry.turns.now) at.entry.m bases.new }
    {
        let mut least = at.valley(at.m);
        // By numbers: `settle` takes an entry by its place, which `pop` needs.
        for t in (0..self.depth).rev() {
            least = self.settle(bases, t, least);
        }
    }
}

// Fills the bases of the m apexes.
fn fill_bases(y: &[f32], turns: &[u32], m: usize, bases: &mut [u32], stack: &mut [u32])
    requires { AllPlain y.now × Turning y.now turns.now m × (m ≤ length bases.old) × (2 * m ≤ length stack.old) × (m ≤ exact_index) }
    ensures { Based (mark_at y.now turns.now) m bases.new }
{
    let mut stack = Stack {
        words: stack,
        depth: 0,
    };
    // By numbers: k is where the sweep stands.
    for k in 0..m {
        stack.pass(Sweep { y, turns, m, k }, bases);
    }
    stack.settle_all(Sweep { y, turns, m, k: m }, bases);
}

// Finds the candidates of a row and their baselines, and answers how many there are. The stack is scratch.
pub fn find(y: &[f32], turns: &mut [u32], bases: &mut [u32], stack: &mut [u32]) -> usize
    requires { Room y.now turns.old bases.old stack.old }
    ensures { Searched y.now turns.new bases.new result }
{
    let m = row_turns::inner::turns_of(y, turns);
    if m > 0 {
        fill_bases(y, turns, m, bases, stack);
    }
    m
}
