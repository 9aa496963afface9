ghost use Rattle.std.specs.Prelude.{◌≡◌, Some, None, MatchOption};
ghost use Rattle.chart.specs.Meanings.{any_meaning};
ghost use Rattle.job.specs.Plans.{plan_if};
ghost use Rattle.job.specs.Records.{contents_of};

use super::Job;
use chart::{AnyChart, Table};
use task::Task;

impl Job {
    // Whether a job is held.
    pub fn is_held(&self) -> bool
        ensures { result ≡ self.now.held }
    {
        self.held
    }

    // The number of marks.
    pub fn marks(&self) -> u32
        ensures { result ≡ (contents_of self.now).marks }
    {
        self.draft.marks
    }

    pub fn task(&self) -> Option<&Task>
        ensures { MatchOption result (self.now.draft.task ≡ None) (λ t. self.now.draft.task ≡ Some t.now) }
    {
        self.draft.task.as_ref()
    }

    pub fn start(&self) -> u32
        ensures { result ≡ (contents_of self.now).start }
    {
        self.draft.start
    }

    pub fn lookahead(&self) -> u32
        ensures { result ≡ (contents_of self.now).lookahead }
    {
        self.draft.lookahead
    }

    // The chart of the job; a single station where none is held.
    pub fn chart(&self) -> AnyChart<'_>
        ensures { any_meaning result ≡ plan_if self.now.held (contents_of self.now) }
    {
        if self.is_held() {
            self.draft.chart()
        } else {
            AnyChart::from(Table::single())
        }
    }
}
