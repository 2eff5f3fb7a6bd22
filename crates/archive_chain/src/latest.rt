// The latest time of the last time-stamps of some cohorts.
ghost use Rattle.std.specs.Prelude.{◌≡◌, ◌++◌, ◌∷◌, [], ℕ, List, true, Some};
ghost use Rattle.std.specs.List.{AllByRecursion};
ghost use Rattle.archive_chain.specs.Rules.{is_live, tokens_in};
ghost use Rattle.archive_chain.specs.InsideToken.{IsLatestOf, IsLatestSoFar, SharesLast, later_of};

use crate::archive::Archive;
use civil_moment::{Moment, is_before};

// The later of two times.
fn later(first: Option<Moment>, second: Moment) -> Moment
    ensures { result ≡ later_of first second }
{
    match first {
        Some(first) => {
            if is_before(&first, &second) {
                second
            } else {
                first
            }
        }
        None => second,
    }
}

impl Archive {
    // The latest time of the last tokens of these cohorts, which is that of the tokens of their groups.
    pub(crate) fn latest(&self, cohorts: &[u32]) -> Option<Moment>
        requires { AllByRecursion (λ c. is_live self.now.kept c ≡ true) cohorts.now }
        ensures { IsLatestOf self.now.policy (tokens_in cohorts.now self.now.kept.sealed) result }
    {
        let mut latest = None;
        for cohort in cohorts {
            latest = Some(self.later_with(latest, *cohort));
        }
        self.share_lasts();
        latest
    }

    // The latest time of some cohorts, where there is one, and of one more.
    fn later_with(&self, so_far: Option<Moment>, cohort: u32) -> Moment
        requires { is_live self.now.kept cohort ≡ true }
        ensures { (cohorts : List ℕ) → IsLatestSoFar self.now.kept self.now.policy cohorts so_far
            → IsLatestSoFar self.now.kept self.now.policy (cohorts ++ cohort ∷ []) (Some result) }
    {
        match self.last_stamp(cohort) {
            Some(stamp) => later(so_far, stamp.time),
            None => unreachable!(),
        }
    }

    // Each group's last time-stamp is that of its cohort.
    fn share_lasts(&self)
        ensures { SharesLast self.now.kept }
    {
        let _ = &self.rows;
    }
}
