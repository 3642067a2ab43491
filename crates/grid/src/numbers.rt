// The numbers of a grid, by what reading its lists shows.
ghost use Rattle.std.specs.Prelude.{◌≡◌, ◌&&◌, ◌||◌, ◌*◌, eqb, length};
ghost use Rattle.refusal.specs.Refusal.{first_of};
ghost use Rattle.refusal.specs.Numbered.{number_in};
ghost use Rattle.row_params.specs.Params.{sound_params, sound_bounds, enough_ids};
ghost use Rattle.tof_scale.specs.Tof.{sound_step, sound_ends};
ghost use Rattle.grid.specs.GridNumber.{checks_of};

use grid_rows::call::Terms;
use refusal::Refusal;
use row_record::ImPeak1D;

// What reading the lists of a grid shows: how long they are, and whether what they hold is in range. A flag for each number that a list
// decides: the lists are read as words or as bytes, and one check takes what either reading saw.
#[derive(Clone, Copy)]
pub struct Seen {
    pub readings: usize,
    pub scans: usize,
    pub mobility: usize,
    pub sound_readings: bool,
    pub sound_mobility: bool,
    pub sound_scans: bool,
    pub rising_scans: bool,
    pub sound_weights: bool,
}

// Whether a length is a count of rows times a count of columns.
fn is_product(len: usize, rows: usize, cols: usize) -> bool
    ensures { result ≡ eqb len (rows * cols) }
{
    if cols == 0 {
        return len == 0;
    }
    (len % cols == 0) & (len / cols == rows)
}

// The parts of the numbers 1, 4 and 5.
fn same_sizes(s: Seen, rows: usize, t: Terms) -> bool
    ensures { result ≡ (eqb s.readings (rows * t.cols) && eqb s.scans t.cols && (eqb s.mobility 0 || eqb s.mobility t.cols) && eqb rows t.scale.num_bins) }
{
    is_product(s.readings, rows, t.cols)
        & (s.scans == t.cols)
        & ((s.mobility == 0) | (s.mobility == t.cols))
        & (rows == t.scale.num_bins as usize)
}

fn sound_values(s: Seen, t: Terms, peaks: usize) -> bool
    ensures { result ≡ (sound_params t.params && s.sound_mobility && sound_bounds t.bounds && sound_step t.scale.tof_step && enough_ids t.first peaks) }
{
    t.params.is_sound()
        & s.sound_mobility
        & t.bounds.is_sound()
        & tof_scale::inner::sound_step(t.scale.tof_step)
        & row_params::inner::enough_ids(t.first, peaks)
}

fn sound_axis(s: Seen, t: Terms) -> bool
    ensures { result ≡ (s.sound_scans && sound_ends t.scale) }
{
    s.sound_scans & tof_scale::inner::sound_ends(t.scale)
}

// Refuses with the lowest number that applies; `room` and `space` are the lengths of the lent list and of the lent scratch.
#[tactic(auto, unfolding(refusal::specs::Refusal::first_of))]
pub fn check(s: Seen, rows: usize, t: Terms, room: usize, space: usize) -> Result<(), Refusal>
    ensures { number_in result ≡ first_of (checks_of s rows t.cols t.scale t.bounds t.params t.first room space) }
{
    if !same_sizes(s, rows, t) {
        return Err(Refusal::Lengths);
    }
    if (rows > limits::MAX_ROWS) | (t.cols > limits::MAX_SAMPLES) {
        return Err(Refusal::Size);
    }
    if !s.sound_readings {
        return Err(Refusal::Reading);
    }
    let peaks = rows * row_params::inner::most_peaks(t.cols);
    if !sound_values(s, t, peaks) {
        return Err(Refusal::Value);
    }
    if !sound_axis(s, t) {
        return Err(Refusal::Axis);
    }
    if !s.sound_weights {
        return Err(Refusal::Weights);
    }
    if !s.rising_scans {
        return Err(Refusal::Order);
    }
    if room < peaks * ImPeak1D::WORDS {
        return Err(Refusal::Room);
    }
    if space < t.cols {
        return Err(Refusal::Scratch);
    }
    if !tof_scale::inner::agrees(t.scale) {
        return Err(Refusal::Scale);
    }
    Ok(())
}
