// A frame that was judged.
ghost use Rattle.std.specs.Prelude.{◌≡◌};
ghost use Rattle.pfr_filter.specs.Frames.{IsFormedVerdict};

use crate::verdict::Verdict;
use std::marker::Model;

/// The verdict on a frame. Only `judge_counted` makes one.
#[derive(Drop)]
pub struct Judged {
    verdict: Verdict,
}

impl Model for Judged {
    ghost use Rattle.pfr_filter.specs.Frames.{IsFormedVerdict};
    ghost use Rattle.pfr_filter.specs.declared.verdict.Verdict.{Verdict};

    ghost Value = { Verdict };

    ghost view = { λ judged. judged.verdict };

    ghost invariant = { λ judged. IsFormedVerdict judged.verdict };
}

impl Judged {
    pub(crate) fn new(verdict: Verdict) -> Judged
        requires { IsFormedVerdict verdict }
        ensures { result ≡ verdict }
    {
        Judged { verdict }
    }

    /// What the frame comes to.
    pub fn verdict(&self) -> &Verdict
        ensures is { result.now ≡ self.now }
        ensures formed { IsFormedVerdict self.now }
    {
        &self.verdict
    }
}
