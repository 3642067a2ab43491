// The steps that find the frames of a mobility peak in a run whose frame numbers rise.
ghost use Rattle.std.specs.Prelude.{◌≡◌, true, ◌≤◌, ◌<◌, length};
ghost use Rattle.row_params.specs.Params.{rising};
ghost use Rattle.expand_padded_window.specs.FrameWindow.{frame_with, widened, padded_window};

use super::Frames;

// The frame with a number, by its place in the run.
fn frame_with(ids: &[u32], id: u32) -> Option<usize>
    requires { rising ids.now ≡ true }
    ensures is { result ≡ frame_with ids.now id }
{
    ids.binary_search(&id).ok()
}

// Frames lo to hi of n with `pad` more on either side, as far as there are any.
#[tactic(auto, unfolding(crate::specs::FrameWindow::widened))]
fn padded(lo: usize, hi: usize, n: usize, pad: u32) -> Frames
    requires { hi < 4294967296 }
    ensures { result ≡ widened n pad lo hi }
{
    let last = n.saturating_sub(1);
    let p = (pad as usize).min(last);
    Frames {
        lo: lo.saturating_sub(p),
        hi: (hi + p).min(last),
    }
}

// The padded frame window of a mobility peak with these frame numbers, if both are there.
#[tactic(auto, unfolding(crate::specs::FrameWindow::padded_window, crate::specs::FrameWindow::between), using(crate::proofs::Laws::found_lt))]
pub fn padded_window(ids: &[u32], id_lo: u32, id_hi: u32, pad: u32) -> Option<Frames>
    requires { (rising ids.now ≡ true) × (length ids.now ≤ 4294967296) }
    ensures { result ≡ padded_window ids.now id_lo id_hi pad }
{
    let lo = frame_with(ids, id_lo)?;
    let hi = frame_with(ids, id_hi)?;
    Some(padded(lo, hi, ids.len(), pad))
}
