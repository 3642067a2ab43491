// The entry, for a caller that may know a further reason for number 4.
ghost use Rattle.std.specs.Prelude.{◌≡◌, Bool};
ghost use Rattle.std.specs.Bool.{then_some};
ghost use Rattle.stitch_matching.specs.declared.StitchParams.{StitchParams};
ghost use Rattle.stitch_passes.specs.Lists.{SameLists, SameLengths};
ghost use Rattle.stitch.specs.Answer.{lent_in, Answered};

use super::numbers::Rooms;
use refusal::Refusal;
use stitch_matching::StitchParams;
use stitch_passes::Lent;
use stitch_peaks::Records;

// Where there are no parameters number 4 applies: the caller found them wrong.
pub fn stitch_told(
    list: &[u32],
    params: Option<StitchParams>,
    lists: &mut Lent<'_>,
) -> Result<usize, Refusal>
    ensures answer { (told : Bool) (p : StitchParams) → params ≡ then_some told p → Answered told list.now p (lent_in lists.old) (lent_in lists.new) result }
    ensures same { SameLists lists.old lists.new }
    ensures lengths { SameLengths lists.old lists.new }
{
    let records = Records::of(list);
    // an identity twice is found last, since what finds it leaves the order that stitching starts from
    match super::numbers::check(list, params, Rooms::of(lists)) {
        Ok(params) => {
            if stitch_distinct::inner::put_by_identity(records, lists.order) {
                return Ok(stitch_passes::inner::stitch_peaks(records, params, lists));
            }
            Err(Refusal::Identity)
        }
        Err(refusal) => {
            if refusal < Refusal::Identity {
                return Err(refusal);
            }
            if stitch_distinct::inner::all_distinct(records) {
                return Err(refusal);
            }
            Err(Refusal::Identity)
        }
    }
}
