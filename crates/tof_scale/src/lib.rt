// The TOF scale of a run.
#![tactic(auto)]

pub mod inner;

ghost use Rattle.std.specs.Prelude.{◌≡◌, true, IfOk, OnOk};
ghost use Rattle.refusal.specs.Numbered.{says, number_in};
ghost use Rattle.tof_scale.specs.Tof.{Sound, scale_number};
ghost use Rattle.tof_scale.specs.TofAnswers.{build_answer, bin_answer, range_answer, center_answer, center_at_answer, bounds_answer};

use inner::{Further, Span};
use refusal::Refusal;

// The lowest and the highest TOF, rounded down to the step, and the count of bins.
#[derive(Clone, Copy)]
pub struct TofScale {
    pub tof_min: u32,
    pub tof_max: u32,
    pub tof_step: u32,
    pub num_bins: u32,
}

impl TofScale {
    // The scale of the TOF values of all frames; no value, or one distinct value, gives none.
    #[tactic(auto, unfolding(crate::specs::TofAnswers::build_answer, crate::specs::TofAnswers::build_number, refusal::specs::Refusal::first_of))]
    pub fn build_from_frames(tofs: &[u32], tof_step: u32) -> Result<Option<TofScale>, Refusal>
        ensures { says result ≡ build_answer tofs.now tof_step }
    {
        if tofs.len() > limits::MAX_POINTS {
            return Err(Refusal::Size);
        }
        if !inner::sound_step(tof_step) {
            return Err(Refusal::Value);
        }
        let e = inner::ends_of(tofs);
        if e.hi > limits::MAX_TOF {
            return Err(Refusal::Axis);
        }
        Ok((e.lo < e.hi).then(|| inner::scale_of(e.lo, e.hi, tof_step)))
    }

    // The scale as one that is checked, or the lowest number that applies to it and to what else a call is handed.
    #[tactic(auto, unfolding(crate::specs::Tof::scale_number, refusal::specs::Refusal::first_of))]
    pub fn check(self, further: Further) -> Result<CheckedScale, Refusal>
        ensures number { number_in result ≡ scale_number self further.value further.tofs }
        ensures same { IfOk result (λ s. s.scale ≡ self) }
        ensures in_range { OnOk result ((further.value ≡ true) × (further.tofs ≡ true)) }
    {
        if !(inner::sound_step(self.tof_step) & further.value) {
            return Err(Refusal::Value);
        }
        if !(inner::sound_ends(self) & further.tofs) {
            return Err(Refusal::Axis);
        }
        if !inner::agrees(self) {
            return Err(Refusal::Scale);
        }
        Ok(CheckedScale { scale: self })
    }

    // The bin of a TOF value, if it has one.
    #[tactic(auto, unfolding(crate::specs::TofAnswers::bin_answer))]
    pub fn index_of_tof(self, tof: u32) -> Result<Option<u32>, Refusal>
        ensures { says result ≡ bin_answer self tof }
    {
        let s = self.check(Further {
            value: true,
            tofs: tof <= limits::MAX_TOF,
        })?;
        Ok(inner::in_scale(self, tof).then(|| inner::bin_of(s.scale, tof)))
    }

    // The first and the last bin of a TOF window.
    #[tactic(auto, unfolding(crate::specs::TofAnswers::range_answer))]
    pub fn index_range_for_tof_window(self, a: u32, b: u32) -> Result<Span, Refusal>
        ensures { says result ≡ range_answer self a b }
    {
        let s = self.check(Further {
            value: true,
            tofs: (a <= limits::MAX_TOF_BOUND) & (b <= limits::MAX_TOF_BOUND),
        })?;
        Ok(inner::window_bins(s, a, b))
    }

    // The centre of a bin.
    #[tactic(auto, unfolding(crate::specs::TofAnswers::center_answer))]
    pub fn center(self, i: u32) -> Result<f32, Refusal>
        ensures { says result ≡ center_answer self i }
    {
        let s = self.check(Further {
            value: i < self.num_bins,
            tofs: true,
        })?;
        Ok(inner::center_of(s, i))
    }

    // The centre at a place between bins.
    #[tactic(auto, unfolding(crate::specs::TofAnswers::center_at_answer))]
    pub fn center_at(self, mu: f32) -> Result<f32, Refusal>
        ensures { says result ≡ center_at_answer self mu }
    {
        let s = self.check(Further {
            value: numeric::in_range(mu, limits::MAX_BIN_PLACE),
            tofs: true,
        })?;
        Ok(inner::center_between(s, mu))
    }

    // The lower and the upper edge of a bin.
    #[tactic(auto, unfolding(crate::specs::TofAnswers::bounds_answer))]
    pub fn tof_bounds_for_row(self, row: u32) -> Result<(f32, f32), Refusal>
        ensures { says result ≡ bounds_answer self row }
    {
        let s = self.check(Further {
            value: row < self.num_bins,
            tofs: true,
        })?;
        let lo = numeric::of_u32(inner::edge_of(s, row));
        let hi = numeric::of_u32(inner::edge_of(s, row + 1));
        Ok((lo, hi))
    }
}

// A scale that numbers 4, 5 and 22 do not refuse.
#[derive(Clone, Copy)]
pub struct CheckedScale {
    pub scale: TofScale,
    pub ghost sound: { Sound scale },
}

impl CheckedScale {
    // Of a scale that was found to be one.
    pub fn of(scale: TofScale) -> CheckedScale
        requires { Sound scale }
        ensures { result.scale ≡ scale }
    {
        CheckedScale { scale }
    }
}
