//! Scores of packages, which grow with learnt clauses and decay.

ghost use Rattle.std.specs.Prelude.{◌<◌, ◌≡◌, ◌≢◌, ◌≤◌, ◌+◌, ◌-◌, ◌^◌, ℕ, OnOk, length, min, suc};
ghost use Rattle.resolver_clause_store.specs.Scores.{activity_in, after_decay, after_decays, decayed_in, kept_at, kept_in, kept_score, score_in};
ghost use Rattle.resolver_clause_store.specs.declared.scores.Scores.{Scores as AllScores};

use std::alloc::{AllocError, Global};

/// The parameters by which scores grow and decay.
#[derive(Clone, Copy)]
pub struct Activity {
    /// The amount that a solvable in a learnt clause adds to the score of its package.
    pub add: u64,
    /// The millionths of each score that are left after a learnt clause.
    pub decay: u64,
}

impl Activity {
    /// Returns the standard parameters: scores in millionths, which lose a twentieth with each learnt clause.
    pub fn standard() -> Self
        ensures add { result.add ≡ 1000000 }
        ensures decay { result.decay ≡ 950000 }
    {
        Activity {
            add: 1_000_000,
            decay: 950_000,
        }
    }
}

/// Returns what is left of a score after a learnt clause.
pub fn decayed(score: u64, decay: u64) -> u64
    ensures { result ≡ after_decay decay score }
{
    score.saturating_mul(decay) / 1_000_000
}

/// Returns what is left of a score after `times` learnt clauses.
pub fn decayed_often(score: u64, decay: u64, times: u64) -> u64
    ensures { result ≡ after_decays decay times score }
{
    let mut left = score;
    'times: for count in 0..times {
        let next = decayed(left, decay);
        if next == left {
            return left;
        }
        left = next;
    }
    left
}

/// A score, and the number of learnt clauses when it had this value.
#[derive(Clone, Copy)]
pub struct Score {
    value: u64,
    learnt: u64,
}

/// The scores of packages, by number. A score that was never raised is 0.
///
/// A score is stored as it was when it was last raised, and decays when it is read.
#[derive(Drop)]
pub struct Scores {
    activity: Activity,
    scores: Vec<Score>,
}

impl Scores {
    /// Returns scores of 0.
    pub fn new(alloc: Global, activity: Activity) -> Self
        ensures { (number learnt : ℕ) → score_in result number learnt ≡ 0 }
    {
        Scores {
            activity,
            scores: Vec::new(alloc),
        }
    }

    /// Returns the stored score of a package.
    fn kept(&self, number: usize) -> Score
        ensures { result ≡ kept_score self.now.scores.items number }
    {
        match self.scores.get(number) {
            Some(score) => *score,
            None => Score {
                value: 0,
                learnt: 0,
            },
        }
    }

    /// Returns the score of a package after `learnt` learnt clauses.
    pub fn of(&self, number: usize, learnt: u64) -> u64
        ensures { result ≡ score_in self.now number learnt }
    {
        let kept = self.kept(number);
        decayed_often(
            kept.value,
            self.activity.decay,
            learnt.saturating_sub(kept.learnt),
        )
    }

    /// Returns the score of a package after `learnt` learnt clauses, and stores it.
    pub fn read(&mut self, number: usize, learnt: u64) -> u64
        ensures value { result ≡ score_in self.old number learnt }
        ensures same { kept_at self.old number ≤ learnt → (other later : ℕ) → learnt ≤ later → score_in self.new other later ≡ score_in self.old other later }
    {
        let value = self.of(number, learnt);
        if number < self.scores.len() {
            self.keep(number, Score { value, learnt });
        }
        value
    }

    /// Stores a score for a package.
    fn keep(&mut self, number: usize, score: Score)
        requires { number < length self.old.scores.items }
        ensures here { kept_score self.new.scores.items number ≡ score }
        ensures others { (other : ℕ) → other ≢ number → kept_score self.new.scores.items other ≡ kept_score self.old.scores.items other }
        ensures activity { self.new.activity ≡ self.old.activity }
    {
        self.scores[number] = score;
    }

    /// Stores a score of 0 for each package up to this one that has none.
    fn reach(&mut self, number: usize) -> Result<(), AllocError>
        ensures same { (other : ℕ) → kept_score self.new.scores.items other ≡ kept_score self.old.scores.items other }
        ensures activity { self.new.activity ≡ self.old.activity }
        ensures enough { OnOk result (number + 1 ≤ length self.new.scores.items) }
    {
        'packages: while self.scores.len() <= number {
            self.scores.push(Score {
                value: 0,
                learnt: 0,
            })?;
        }
        Ok(())
    }

    /// Raises the score of a package after `learnt` learnt clauses.
    pub fn add(&mut self, number: usize, learnt: u64) -> Result<(), AllocError>
        ensures here { OnOk result (score_in self.new number learnt ≡ min (score_in self.old number learnt + (activity_in self.old).add) (2 ^ 64 - 1)) }
        ensures dated { OnOk result (kept_at self.new number ≡ learnt) }
        ensures others { OnOk result ((other : ℕ) → other ≢ number → kept_in self.new other ≡ kept_in self.old other) }
        ensures activity { activity_in self.new ≡ activity_in self.old }
    {
        let value = self.of(number, learnt).saturating_add(self.activity.add);
        self.reach(number)?;
        self.keep(number, Score { value, learnt });
        Ok(())
    }
}

/// A score that is read one learnt clause later has decayed once more.
///
/// The call does nothing: its contract is the law.
pub fn scores_fade()
    ensures { (it : AllScores) (number learnt : ℕ) → kept_at it number ≤ learnt →
        score_in it number (suc learnt) ≡ decayed_in it (score_in it number learnt) }
{}
