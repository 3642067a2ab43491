// The check of a marginal, whose reading limit a caller gives.
ghost use Rattle.std.specs.Prelude.{◌≡◌, ◌+◌, ◌-◌, IfOk, OnOk};
ghost use Rattle.refusal.specs.Numbered.{number_in};
ghost use Rattle.frames_marginals.specs.Marginals.{sound_ranges, marginal_number, window_of, frames_in, scans_in};
ghost use Rattle.frames_marginals.specs.Steps.{Within};

use frames_index::numbers::Further;
use frames_index::{CheckedIndex, FrameIndex};
use frames_sums::inner::{FrameRange, Window};
use refusal::Refusal;

// Frames, bins and scans, ends included.
#[derive(Clone, Copy)]
pub struct Block {
    pub rt_lo: u32,
    pub rt_hi: u32,
    pub bin_lo: u32,
    pub bin_hi: u32,
    pub im_lo: u32,
    pub im_hi: u32,
}

impl Block {
    // How many frames it has.
    pub fn frames(self) -> usize
        ensures { result ≡ frames_in self }
    {
        count(self.rt_lo, self.rt_hi)
    }

    // Those frames, by their places in the run.
    pub fn frame_range(self) -> FrameRange
        ensures from { result.from ≡ self.rt_lo }
        ensures count { result.count ≡ frames_in self }
    {
        FrameRange {
            from: self.rt_lo as usize,
            count: self.frames(),
        }
    }

    // How many scans.
    pub fn scans(self) -> usize
        ensures { result ≡ scans_in self }
    {
        count(self.im_lo, self.im_hi)
    }

    // Its bins and scans.
    pub fn window(self) -> Window
        ensures { result ≡ window_of self }
    {
        Window {
            bin_lo: self.bin_lo,
            bin_hi: self.bin_hi,
            scan_lo: self.im_lo,
            scan_hi: self.im_hi,
        }
    }
}

// How many there are from lo to hi.
pub fn count(lo: u32, hi: u32) -> usize
    ensures { result ≡ hi + 1 - lo }
{
    (hi as usize + 1).saturating_sub(lo as usize)
}

// Whether no range is reversed or passes what it ranges over; there are as many frames.
fn sound_ranges(frames: usize, b: Block) -> bool
    ensures { result ≡ sound_ranges frames b }
{
    (b.rt_lo <= b.rt_hi)
        & ((b.rt_hi as usize) < frames)
        & (b.bin_lo <= b.bin_hi)
        & (b.bin_hi <= limits::LAST_ROW)
        & (b.im_lo <= b.im_hi)
}

// The index as a checked one, or the lowest number that applies: for readings with patterns to `limit`, where n sums go to a list of
// `room` places.
pub fn check<'a>(
    limit: u32,
    ix: &FrameIndex<'a>,
    b: Block,
    n: usize,
    room: usize,
) -> Result<CheckedIndex<'a>, Refusal>
    ensures number { number_in result ≡ marginal_number limit ix.now b n room }
    ensures same { IfOk result (λ c. c ≡ ix.now) }
    ensures within { OnOk result (Within ix.now b n room) }
{
    ix.check(
        limit,
        Further {
            values: sound_ranges(ix.frames(), b),
            axes: b.im_hi <= limits::MAX_SCAN,
            room: n <= room,
            ..Further::MET
        },
    )
}
