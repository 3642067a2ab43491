// Expansion for input that the caller has checked.
ghost use Rattle.std.specs.Prelude.{◌≤◌, length};
ghost use Rattle.limits.specs.Limits.{max_frames};
ghost use Rattle.expand_many.specs.Calls.{many_in};
ghost use Rattle.expand_many.specs.Steps.{Ready, Done};
ghost use Rattle.expand.specs.ExpandCall.{PastKept};
ghost use Rattle.expand.specs.Lists.{lent_in, SameLists, SameLengths};
ghost use Rattle.expand.specs.Steps.{Lendable};

use super::lent::Lent;
use expand_many::peaks::PeakList;
use expand_one::run::FollowedRun;

// Expands all mobility peaks of a list with the first words of scratch, one a frame.
pub fn expand_lent(
    run: &FollowedRun<'_>,
    peaks: &PeakList<'_>,
    lent: &mut Lent<'_>,
    counts: &mut [u32],
) -> usize
    requires { Ready (many_in run.now peaks.now) (length peaks.now.lengths.now) (length lent.old.out.now) (length counts.old)
        × Lendable (length run.now.ids.now) (length lent.old.raw.now) (length lent.old.smooth.now) (length lent.old.order.now) × (length run.now.ids.now ≤ max_frames) }
    ensures done { Done (many_in run.now peaks.now) (length peaks.now.lengths.now) lent.old.out.now counts.old result lent.new.out.now counts.new }
    ensures past { PastKept (length run.now.ids.now) (lent_in lent.old) (lent_in lent.new) }
    ensures same { SameLists lent.old lent.new }
    ensures lengths { SameLengths lent.old lent.new }
{
    let f = run.ids.len();
    super::sized::expand_sized(
        run,
        peaks,
        lent.out,
        counts,
        &mut lent.raw[..f],
        &mut lent.smooth[..f],
        &mut lent.order[..f],
    )
}
