// The most time-stamps of a group of some cohorts, and the first group that has as many.
ghost use Rattle.std.specs.Prelude.{◌≡◌, ◌<◌, ◌≤◌, ◌+◌, ◌++◌, ◌∷◌, [], ℕ, List, length, true, false, Some, MatchOption};
ghost use Rattle.std.specs.List.{AllByRecursion};
ghost use Rattle.archive_chain.specs.Kept.{has_name, cohorts_in};
ghost use Rattle.archive_chain.specs.Rules.{most_stamps, first_full, is_live};
ghost use Rattle.archive_chain.specs.InsidePeak.{IsPeak, earlier};
ghost use Rattle.archive_chain.specs.InsideFull.{higher_of, IsPeakOf, IsPeakSoFar};

use crate::archive::Archive;

/// The most time-stamps of a group.
const MOST_STAMPS: u32 = 200;

/// The most time-stamps of a group, and the first group that has as many.
#[derive(Clone, Copy, Debug)]
pub struct Peak {
    pub most: u32,
    pub least: u32,
}

impl Peak {
    // With one time-stamp more.
    pub(crate) fn one_more(self) -> Peak
        requires { self.most ≤ most_stamps }
        ensures { result ≡ record { most = self.most + 1; least = self.least } }
    {
        Peak {
            most: self.most + 1,
            least: self.least,
        }
    }
}

// The higher of two peaks, and of two equal ones that of the earlier group.
fn higher(first: Peak, second: Peak) -> Peak
    ensures { result ≡ higher_of first second }
{
    if first.most < second.most {
        second
    } else if second.most < first.most || first.least <= second.least {
        first
    } else {
        second
    }
}

// The earlier of two groups, where there is one.
fn earlier(first: Option<u32>, second: Option<u32>) -> Option<u32>
    ensures { result ≡ earlier first second }
{
    match first {
        Some(id) => match second {
            Some(other) => Some(id.min(other)),
            None => Some(id),
        },
        None => second,
    }
}

impl Archive {
    // The peak of these cohorts, of which there is one at least.
    pub(crate) fn peak_in(&self, cohorts: &[u32]) -> Peak
        requires some { 0 < length cohorts.now }
        requires live { AllByRecursion (λ c. is_live self.now.kept c ≡ true) cohorts.now }
        ensures peak { IsPeak (λ c. has_name cohorts.now c ≡ true) self.now.kept.sealed result.most result.least }
        ensures few { result.most ≤ most_stamps }
    {
        let mut peak = None;
        for cohort in cohorts {
            peak = Some(self.higher_with(peak, *cohort));
        }
        match peak {
            Some(peak) => peak,
            None => unreachable!(),
        }
    }

    // The peak of some cohorts, where there is one, and of one more.
    fn higher_with(&self, so_far: Option<Peak>, cohort: u32) -> Peak
        requires { is_live self.now.kept cohort ≡ true }
        ensures { (cohorts : List ℕ) → IsPeakSoFar self.now.kept.sealed cohorts so_far
            → IsPeakSoFar self.now.kept.sealed (cohorts ++ cohort ∷ []) (Some result) }
    {
        match self.peak_of(cohort) {
            Some(peak) => match so_far {
                Some(so_far) => higher(peak, so_far),
                None => peak,
            },
            None => unreachable!(),
        }
    }

    // The peak of a cohort, if it has a group.
    fn peak_of(&self, cohort: u32) -> Option<Peak>
        ensures { MatchOption result (has_name (cohorts_in self.now.kept.sealed) cohort ≡ false)
            (IsPeakOf self.now.kept.sealed cohort) }
    {
        match self.row_of(cohort) {
            Some(place) => {
                let row = &self.rows[place as usize];
                Some(Peak {
                    most: row.most,
                    least: row.least,
                })
            }
            None => None,
        }
    }

    // The first full group of a cohort.
    fn full_of(&self, cohort: u32) -> Option<u32>
        ensures { result ≡ first_full (cohort ∷ []) 0 self.now.kept.sealed }
    {
        match self.peak_of(cohort) {
            Some(peak) => {
                if peak.most >= MOST_STAMPS {
                    Some(peak.least)
                } else {
                    None
                }
            }
            None => None,
        }
    }

    // The first full group of these cohorts.
    pub(crate) fn first_full(&self, cohorts: &[u32]) -> Option<u32>
        ensures { result ≡ first_full cohorts.now 0 self.now.kept.sealed }
    {
        let mut first = None;
        for cohort in cohorts {
            first = earlier(first, self.full_of(*cohort));
        }
        first
    }
}
