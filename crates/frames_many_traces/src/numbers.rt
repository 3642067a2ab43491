// The check of a call for many traces, whose reading limit a caller gives.
ghost use Rattle.std.specs.Prelude.{◌≡◌, IfOk, OnOk};
ghost use Rattle.refusal.specs.Numbered.{number_in};
ghost use Rattle.frames_many_traces.specs.ManyTraces.{call_of, many_number};
ghost use Rattle.frames_many_traces.specs.Ready.{Ready};

use super::peaks::PaddedPeaks;
use frames_index::numbers::Further;
use frames_index::{CheckedIndex, FrameIndex};
use refusal::Refusal;
use row_record::ImPeak1D;

// The lengths of the lists that are lent.
#[derive(Clone, Copy)]
pub struct Rooms {
    pub out: usize,
    pub windows: usize,
}

// The index as a checked one, or the lowest number that applies: for readings with patterns to `limit`.
pub fn check<'a>(
    limit: u32,
    ix: &FrameIndex<'a>,
    peaks: PaddedPeaks<'_>,
    room: Rooms,
) -> Result<CheckedIndex<'a>, Refusal>
    ensures number { number_in result ≡ many_number limit (call_of ix.now peaks.entry.scale peaks.entry.list.now peaks.entry.pad) room }
    ensures same { IfOk result (λ c. c ≡ ix.now) }
    ensures ready { OnOk result (Ready (call_of ix.now peaks.entry.scale peaks.entry.list.now peaks.entry.pad) room) }
{
    let n = peaks.count();
    let list = peaks.list;
    let scale = peaks.scale;
    ix.check(
        limit,
        Further {
            lengths: list.len() % ImPeak1D::WORDS == 0,
            sizes: n <= limits::MAX_LIST,
            values: tof_scale::inner::sound_step(scale.tof_step) & (peaks.pad <= limits::MAX_COUNT),
            axes: tof_scale::inner::sound_ends(scale),
            records: row_record::inner::all_sound(list),
            room: frames_index::numbers::fits_times(n, ix.frames(), room.out),
            scratch: 4 * n <= room.windows,
            scale: tof_scale::inner::agrees(scale),
            ..Further::MET
        },
    )
}
