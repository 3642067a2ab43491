// The number of a call on an index, by what reading the index shows and by what else the call is asked.
ghost use Rattle.std.specs.Prelude.{◌≡◌, ◌*◌, leb};
ghost use Rattle.refusal.specs.Numbered.{number_in};
ghost use Rattle.refusal.specs.Refusal.{first_of};
ghost use Rattle.frames_index.specs.IndexNumber.{index_checks};

use super::inner::Seen;
use refusal::Refusal;

// What a call is asked besides its index, each true where it is met: lengths that agree (number 1), sizes within their limits (2),
// parameters (4), TOF values and scans (5) and weights (6) in range, numbers and times in order (7), records (9), room for what is
// written (20), scratch (21), and a scale whose numbers agree (22). A flag for each rung of the ladder, of which any may be set: no enum
// of cases stands for them.
#[derive(Clone, Copy)]
pub struct Further {
    pub lengths: bool,
    pub sizes: bool,
    pub values: bool,
    pub axes: bool,
    pub weights: bool,
    pub order: bool,
    pub records: bool,
    pub room: bool,
    pub scratch: bool,
    pub scale: bool,
}

impl Further {
    // All of it: a call names the rungs that it has and takes the others from here.
    pub const MET: Further = Further {
        lengths: true,
        sizes: true,
        values: true,
        axes: true,
        weights: true,
        order: true,
        records: true,
        room: true,
        scratch: true,
        scale: true,
    };
}

// Whether n times m is at most `most`, as of sums, records or identities.
pub fn fits_times(n: usize, m: usize, most: usize) -> bool
    ensures { result ≡ leb (n * m) most }
{
    n.checked_mul(m).is_some_and(|all| all <= most)
}

// Refuses with the lowest number that applies.
#[tactic(auto, unfolding(refusal::specs::Refusal::first_of))]
pub fn check(s: Seen, f: Further) -> Result<(), Refusal>
    ensures { number_in result ≡ first_of (index_checks s f) }
{
    if !(s.agreeing & f.lengths) {
        return Err(Refusal::Lengths);
    }
    if !(!s.too_large & f.sizes) {
        return Err(Refusal::Size);
    }
    if !s.readings {
        return Err(Refusal::Reading);
    }
    if !f.values {
        return Err(Refusal::Value);
    }
    if !(s.scans & f.axes) {
        return Err(Refusal::Axis);
    }
    if !f.weights {
        return Err(Refusal::Weights);
    }
    if !f.order {
        return Err(Refusal::Order);
    }
    if !f.records {
        return Err(Refusal::Record);
    }
    if !f.room {
        return Err(Refusal::Room);
    }
    if !f.scratch {
        return Err(Refusal::Scratch);
    }
    if !f.scale {
        return Err(Refusal::Scale);
    }
    if !s.sound {
        return Err(Refusal::Index);
    }
    Ok(())
}
