// Stitching: the peaks of a list, with those that belong together merged.
#![tactic(auto)]

pub mod inner;
pub mod numbers;

ghost use Rattle.std.specs.Prelude.{true};
ghost use Rattle.stitch_passes.specs.Lists.{SameLists, SameLengths};
ghost use Rattle.stitch.specs.Answer.{lent_in, Answered};

use refusal::Refusal;
use stitch_matching::StitchParams;
use stitch_passes::Lent;

// Writes the records of the stitched peaks to the front of `out`, and for each peak of the list the place of its stitched one to the
// front of `owners`; or refuses with the lowest number that applies and leaves all six lists as they are.
pub fn stitch_im_peaks_flat_unordered_impl(
    list: &[u32],
    params: StitchParams,
    lists: &mut Lent<'_>,
) -> Result<usize, Refusal>
    ensures answer { Answered true list.now params (lent_in lists.old) (lent_in lists.new) result }
    ensures same { SameLists lists.old lists.new }
    ensures lengths { SameLengths lists.old lists.new }
{
    inner::stitch_told(list, Some(params), lists)
}
