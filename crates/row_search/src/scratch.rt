// The scratch of the search of a row.
ghost use Rattle.std.specs.Prelude.{◌≡◌, ◌≤◌, length, replicate};
ghost use Rattle.row_search.specs.Room.{Room, Sizes};

// Lent lists for the search of a row of at most `samples` samples: a word for each sample, one for every second, and eight for each apex.
// The apexes that are found stand at the front of `found`. The lists are words, since each serves twice: `found` is the stack of the sweep
// before, and behind the baselines `bases` has the memo of spans. Lists of structs would be more arrays, which are filled for each row.
#[derive(Drop)]
pub struct Scratch<'a> {
    pub samples: usize,
    pub turns: &'a mut [u32],
    pub bases: &'a mut [u32],
    pub found: &'a mut [u32],
    pub ghost room: { Room samples (length turns.now) (length bases.now) (length found.now) },
}

// Lists of one's own for rows of at most N samples. There is no heap, so they stand in the frame of the function that makes them. B is half
// of N and what the memo takes: with N for it, a row of 1,025 samples takes up to 15 % longer, since arrays are filled before their
// use.
#[derive(Drop)]
pub struct Arrays<const N: usize, const B: usize> {
    pub turns: [u32; N],
    pub bases: [u32; B],
    pub found: [[u32; 4]; N],
}

impl<const N: usize, const B: usize> Arrays<N, B> {
    // Words that are 0.
    pub fn new() -> Arrays<N, B>
        ensures { result ≡ record { turns = replicate N 0; bases = replicate B 0; found = replicate N (replicate 4 0) } }
    {
        Arrays {
            turns: [0; N],
            bases: [0; B],
            found: [[0; 4]; N],
        }
    }

    // The lists, for rows of at most `samples` samples.
    pub fn lend(&mut self, samples: usize) -> Scratch<'_>
        requires { (samples ≤ N) × Sizes N B }
        ensures { result.samples ≡ samples }
    {
        Scratch {
            samples,
            turns: &mut self.turns,
            bases: &mut self.bases,
            found: self.found.as_flattened_mut(),
        }
    }
}
