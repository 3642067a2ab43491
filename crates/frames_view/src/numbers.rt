// The numbers of a frame's points, by what reading their lists shows.
ghost use Rattle.std.specs.Prelude.{◌≡◌, ◌&&◌, ◌||◌, ◌+◌, ltb, leb, eqb};
ghost use Rattle.refusal.specs.Numbered.{number_in};
ghost use Rattle.refusal.specs.Refusal.{first_of};
ghost use Rattle.limits.specs.Limits.{max_points, max_scan};
ghost use Rattle.tof_scale.specs.Tof.{sound_step, sound_ends};
ghost use Rattle.frames_view.specs.ViewNumber.{checks_of, narrow, short};

use refusal::Refusal;
use tof_scale::TofScale;

// What reading the lists of a frame's points shows: how long they are, and whether what they hold is in range, a flag for each list, of
// which any may be set.
#[derive(Clone, Copy)]
pub struct Seen {
    pub tofs: usize,
    pub scans: usize,
    pub readings: usize,
    pub sound_readings: bool,
    pub sound_tofs: bool,
    pub sound_scans: bool,
}

// The lengths of the lent lists.
#[derive(Clone, Copy)]
pub struct Room {
    pub bins: usize,
    pub offsets: usize,
    pub scans: usize,
    pub readings: usize,
    pub keys: usize,
    pub order: usize,
    pub spare: usize,
}

// Whether n points behind `base` others are more than there may be.
fn too_many(base: usize, n: usize) -> bool
    ensures { result ≡ ltb max_points (base + n) }
{
    base.saturating_add(n) > limits::MAX_POINTS
}

// The parts of the numbers 4, 5, 20 and 21.
fn sound_values(step: u32, count: u32) -> bool
    ensures { result ≡ (sound_step step && leb count max_scan) }
{
    tof_scale::inner::sound_step(step) & (count <= limits::MAX_SCAN)
}

fn sound_axes(s: Seen, scale: TofScale) -> bool
    ensures { result ≡ (s.sound_tofs && s.sound_scans && sound_ends scale) }
{
    s.sound_tofs & s.sound_scans & tof_scale::inner::sound_ends(scale)
}

fn is_narrow(n: usize, room: Room) -> bool
    ensures { result ≡ narrow n room }
{
    (room.bins < n) | (room.scans < n) | (room.readings < n) | (room.offsets <= n)
}

fn is_short(n: usize, room: Room) -> bool
    ensures { result ≡ short n room }
{
    (room.keys < n) | (room.order < n) | (room.spare < n)
}

// Refuses with the lowest number that applies.
#[tactic(auto, unfolding(refusal::specs::Refusal::first_of))]
pub fn check(s: Seen, count: u32, base: usize, scale: TofScale, room: Room) -> Result<(), Refusal>
    ensures { number_in result ≡ first_of (checks_of s count base scale room) }
{
    if !((s.scans == s.tofs) & (s.readings == s.tofs)) {
        return Err(Refusal::Lengths);
    }
    if too_many(base, s.tofs) {
        return Err(Refusal::Size);
    }
    if !s.sound_readings {
        return Err(Refusal::Reading);
    }
    if !sound_values(scale.tof_step, count) {
        return Err(Refusal::Value);
    }
    if !sound_axes(s, scale) {
        return Err(Refusal::Axis);
    }
    if is_narrow(s.tofs, room) {
        return Err(Refusal::Room);
    }
    if is_short(s.tofs, room) {
        return Err(Refusal::Scratch);
    }
    if !tof_scale::inner::agrees(scale) {
        return Err(Refusal::Scale);
    }
    Ok(())
}
