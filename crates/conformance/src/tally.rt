//! The count of cases and of differences.

/// The numbers of cases run and of differences. Counts end at 2^64 - 1.
#[derive(Clone, Copy, Debug, PartialEq, Eq)]
pub(crate) struct Tally {
    pub cases: u64,
    pub differences: u64,
}

impl Tally {
    ghost use Rattle.std.specs.Prelude.{◌≡◌, ◌<◌, ◌≤◌, ◌↔◌, ◌-◌, ◌^◌, ◌+◌, min, if◌then◌else◌};

    /// No case so far.
    pub(crate) fn new() -> Self
        ensures cases { result.cases ≡ 0 }
        ensures differences { result.differences ≡ 0 }
    {
        Tally {
            cases: 0,
            differences: 0,
        }
    }

    /// Counts a case, and a difference too if the case isn't `same`.
    pub(crate) fn count_case(&mut self, same: bool)
        ensures cases { self.new.cases ≡ min (self.old.cases + 1) (2 ^ 64 - 1) }
        ensures differences { self.new.differences
            ≡ (if same then self.old.differences
            else min (self.old.differences + 1) (2 ^ 64 - 1)) }
        ensures kept { self.old.differences ≤ self.new.differences }
    {
        self.cases = self.cases.saturating_add(1);
        if !same {
            self.count_difference();
        }
    }

    /// Counts a difference that is no case.
    pub(crate) fn count_difference(&mut self)
        ensures cases { self.new.cases ≡ self.old.cases }
        ensures differences { self.new.differences ≡ min (self.old.differences + 1) (2 ^ 64 - 1) }
        ensures kept { self.old.differences ≤ self.new.differences }
    {
        self.differences = self.differences.saturating_add(1);
    }

    /// The exit status: 0 if a case was run and nothing differed.
    pub(crate) fn status(&self) -> u8
        ensures { (result ≡ 0) ↔ ((0 < self.now.cases) × (self.now.differences ≡ 0)) }
    {
        if self.cases > 0 && self.differences == 0 {
            0
        } else {
            1
        }
    }
}
