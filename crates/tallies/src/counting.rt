// The totals of the records so far, and the record that is refused.
ghost use Rattle.std.specs.Prelude.{◌≡◌};
ghost use Rattle.tallies.specs.bridge.Counting.{no_runs, one_more, more_steps, counted_as, with_run, with_next, with_record, count};

use records::{Outcome, Run};

// How many runs there are, of each outcome and of each error number, and the steps of all.
#[derive(Clone, Copy)]
pub struct Tally {
    pub runs: u32,
    pub ended: u32,
    pub stopped: u32,
    pub out: u32,
    pub error: u32,
    pub codes: [u32; 256],
    pub steps: u64,
}

// The number of the first record that is refused, counted from 1.
#[derive(Clone, Copy)]
pub struct RefusedRecord {
    pub number: u32,
}

// The tally of the records so far, and whether all of them are good.
#[derive(Clone, Copy)]
pub struct Count {
    pub tally: Tally,
    pub standing: Result<(), RefusedRecord>,
}

// One more; no count goes past the most records that there can be.
#[tactic(auto, unfolding(crate::specs::bridge::Counting::one_more))]
fn one_more(count: u32) -> u32
    ensures { result ≡ one_more count }
{
    if count < Tally::MOST_RECORDS {
        count + 1
    } else {
        count
    }
}

// So many more; no total goes on past the most steps that there can be.
#[tactic(auto, unfolding(crate::specs::bridge::Counting::more_steps))]
fn more_steps(total: u64, steps: u32) -> u64
    ensures { result ≡ more_steps total steps }
{
    if total <= Tally::MOST_STEPS {
        total + u64::from(steps)
    } else {
        total
    }
}

impl Tally {
    pub const MOST_RECORDS: u32 = 65535;

    // What 65,535 records of 4,294,967,295 steps come to.
    pub const MOST_STEPS: u64 = 281470681677825;

    pub fn empty() -> Tally
        ensures { result ≡ no_runs }
    {
        Tally {
            runs: 0,
            ended: 0,
            stopped: 0,
            out: 0,
            error: 0,
            codes: [0; 256],
            steps: 0,
        }
    }

    // One run more of its outcome.
    #[tactic(auto, unfolding(crate::specs::bridge::Counting::counted_as))]
    fn count_as(&mut self, outcome: Outcome)
        ensures { self.new ≡ counted_as outcome self.old }
    {
        match outcome {
            Outcome::Ended => self.ended = one_more(self.ended),
            Outcome::Stopped => self.stopped = one_more(self.stopped),
            Outcome::Out => self.out = one_more(self.out),
            Outcome::Error(code) => {
                let code = usize::from(code);
                self.codes[code] = one_more(self.codes[code]);
                self.error = one_more(self.error);
            }
        }
    }

    fn count_run(&mut self, run: Run)
        ensures { self.new ≡ with_run self.old run }
    {
        self.count_as(run.outcome);
        self.runs = one_more(self.runs);
        self.steps = more_steps(self.steps, run.steps);
    }

    // The next record: it is counted, or refused with its number.
    #[tactic(auto, unfolding(crate::specs::bridge::Counting::with_next))]
    fn count_next(&mut self, recorded: Option<Run>) -> Result<(), RefusedRecord>
        ensures { count self.new result ≡ with_next self.old recorded }
    {
        if Tally::MOST_RECORDS <= self.runs {
            return Err(RefusedRecord {
                number: Tally::MOST_RECORDS + 1,
            });
        }
        let run = recorded.ok_or(RefusedRecord {
            number: self.runs + 1,
        })?;
        self.count_run(run);
        Ok(())
    }
}

// Behind a record that is refused none counts.
pub fn with_record(count: Count, recorded: Option<Run>) -> Count
    ensures { result ≡ with_record count recorded }
{
    let mut next = count;
    if next.standing.is_ok() {
        next.standing = next.tally.count_next(recorded);
    }
    next
}
