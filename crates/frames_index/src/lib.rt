// The index of a run's points: frame after frame, within a frame by bin. What is asked of one that is handed in.
#![tactic(auto)]

pub mod inner;
pub mod numbers;

ghost use Rattle.std.specs.Prelude.{◌≡◌, ◌<◌, length, IfOk, OnOk};
ghost use Rattle.refusal.specs.Numbered.{number_in};
ghost use Rattle.frames_index.specs.FrameIndex.{frames, seen_in, Checked};
ghost use Rattle.frames_index.specs.IndexNumber.{index_number, Accepted};

use inner::Seen;
use numbers::Further;
use refusal::Refusal;
use std::marker::Model;

// An index as it is lent (specs/FrameIndex.antt says what each list has).
#[derive(Drop)]
pub struct FrameIndex<'a> {
    pub starts: &'a [u32],
    pub bins: &'a [u32],
    pub offsets: &'a [u32],
    pub scans: &'a [u32],
    pub readings: &'a [f32],
}

impl<'a> Model for FrameIndex<'a> {
    ghost use Rattle.frames_index.specs.FrameIndex.{Index, index_of};

    ghost Value = { Index };

    ghost view = { λ ix. index_of ix.starts.now ix.bins.now ix.offsets.now ix.scans.now ix.readings.now };
}

impl<'a> FrameIndex<'a> {
    // How many frames there are.
    pub fn frames(&self) -> usize
        ensures { result ≡ frames self.now }
    {
        inner::frames(self.starts.len())
    }

    // Reads the index; `limit` is the highest pattern of a reading.
    #[tactic(auto, unfolding(crate::specs::FrameIndex::seen_in))]
    pub fn see(&self, limit: u32) -> Seen
        ensures { result ≡ seen_in limit self.now }
    {
        let frames = self.starts.len();
        Seen {
            agreeing: (0 < frames)
                & (self.offsets.len() == self.bins.len() + 1)
                & (self.scans.len() == self.readings.len()),
            too_large: (frames > limits::MAX_FRAMES + 1)
                | (self.scans.len() > limits::MAX_POINTS)
                | (self.bins.len() > limits::MAX_POINTS),
            readings: numeric::inner::all_in_range(self.readings, limit),
            scans: row_params::inner::all_up_to(limits::MAX_SCAN, self.scans),
            sound: inner::is_sound(self.starts, self.bins, self.offsets, self.scans.len()),
        }
    }

    // The index as one that is checked, or the lowest number that applies to it and to what else a call is asked.
    #[tactic(auto, unfolding(crate::specs::IndexNumber::index_number))]
    pub fn check(&self, limit: u32, further: Further) -> Result<CheckedIndex<'a>, Refusal>
        ensures number { number_in result ≡ index_number limit self.now further }
        ensures same { IfOk result (λ ix. ix ≡ self.now) }
        ensures accepted { OnOk result (Accepted self.now further) }
    {
        numbers::check(self.see(limit), further)?;
        Ok(CheckedIndex::of(self))
    }
}

// An index that numbers 1 and 23 do not refuse. It holds the five lists itself: with a FrameIndex inside, a Model within a Model, the
// borrow checker refuses to read two of its lists in one expression.
#[derive(Drop)]
pub struct CheckedIndex<'a> {
    pub starts: &'a [u32],
    pub bins: &'a [u32],
    pub offsets: &'a [u32],
    pub scans: &'a [u32],
    pub readings: &'a [f32],
}

impl<'a> Model for CheckedIndex<'a> {
    ghost use Rattle.frames_index.specs.FrameIndex.{Index, Checked, index_of};

    ghost Value = { Index };

    ghost view = { λ ix. index_of ix.starts.now ix.bins.now ix.offsets.now ix.scans.now ix.readings.now };

    ghost invariant = { λ ix. Checked (index_of ix.starts.now ix.bins.now ix.offsets.now ix.scans.now ix.readings.now) };
}

impl<'a> CheckedIndex<'a> {
    // Of an index that was found to be one.
    pub fn of(ix: &FrameIndex<'a>) -> CheckedIndex<'a>
        requires { Checked ix.now }
        ensures { result ≡ ix.now }
    {
        CheckedIndex {
            starts: ix.starts,
            bins: ix.bins,
            offsets: ix.offsets,
            scans: ix.scans,
            readings: ix.readings,
        }
    }

    // How many frames there are: one start more.
    pub fn frames(&self) -> usize
        ensures count { result ≡ frames self.now }
        ensures one_less { result < length self.now.starts }
    {
        self.starts.len() - 1
    }
}
