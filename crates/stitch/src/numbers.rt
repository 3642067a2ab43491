// The numbers of a list to stitch.
ghost use Rattle.std.specs.Prelude.{◌≡◌, Bool, Some, IfOk};
ghost use Rattle.std.specs.Bool.{then_some};
ghost use Rattle.stitch_matching.specs.declared.StitchParams.{StitchParams};
ghost use Rattle.refusal.specs.Numbered.{number_in};
ghost use Rattle.stitch.specs.StitchNumber.{other_number};
ghost use Rattle.stitch.specs.Answer.{lent_in, rooms_of};

use refusal::Refusal;
use row_record::ImPeak1D;
use stitch_matching::StitchParams;
use stitch_passes::Lent;

// The lengths of the lists that are lent.
#[derive(Clone, Copy)]
pub struct Rooms {
    pub out: usize,
    pub owners: usize,
    pub order: usize,
    pub groups: usize,
    pub keys: usize,
    pub merged: usize,
}

impl Rooms {
    pub fn of(lists: &Lent<'_>) -> Rooms
        ensures { result ≡ rooms_of (lent_in lists.now) }
    {
        Rooms {
            out: lists.out.len(),
            owners: lists.owners.len(),
            order: lists.order.len(),
            groups: lists.groups.len(),
            keys: lists.keys.len(),
            merged: lists.merged.len(),
        }
    }
}

// The parameters, or the lowest number but 8 that applies. Where there are none number 4 does.
#[tactic(auto, unfolding(crate::specs::StitchNumber::other_number, refusal::specs::Refusal::first_of))]
pub fn check(
    list: &[u32],
    params: Option<StitchParams>,
    room: Rooms,
) -> Result<StitchParams, Refusal>
    ensures number { (told : Bool) (p : StitchParams) → params ≡ then_some told p → number_in result ≡ other_number told list.now p room }
    ensures given { IfOk result (λ p. params ≡ Some p) }
{
    if list.len() % ImPeak1D::WORDS != 0 {
        return Err(Refusal::Lengths);
    }
    let n = list.len() / ImPeak1D::WORDS;
    if n > limits::MAX_LIST {
        return Err(Refusal::Size);
    }
    let Some(params) = params.filter(|params| params.is_sound()) else {
        return Err(Refusal::Value);
    };
    if !row_record::inner::all_sound(list) {
        return Err(Refusal::Record);
    }
    let words = n * ImPeak1D::WORDS;
    if (room.out < words) | (room.owners < n) {
        return Err(Refusal::Room);
    }
    if (room.order < n) | (room.groups < n) | (room.keys < words) | (room.merged < words) {
        return Err(Refusal::Scratch);
    }
    Ok(params)
}
