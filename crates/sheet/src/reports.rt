// The lines that are printed, built in a buffer.
ghost use Rattle.std.specs.Prelude.{◌≡◌, List, [], ◌∷◌, ℕ, ◌+◌, ◌*◌, ◌<◌, length, take};
ghost use Rattle.whole.specs.Bytes.{bytes};
ghost use Rattle.whole.specs.Texts.{held};
ghost use Rattle.console.specs.Lines.{line};
ghost use Rattle.sheet.specs.Printed.{code_line, code_lines, outcome_lines, step_lines, printed_of};
ghost use Rattle.sheet.specs.Reports.{report, Lengthens};

use console::line;
use means::mean_of;
use space::{Offset, copy_in, fits};
use tallies::{RefusedRecord, Tally};
use whole::Text;

// Lines: their bytes stand first, zeros after them.
#[derive(Clone, Copy)]
pub struct Report {
    pub bytes: [u8; Report::ROOM],
    pub len: usize,
}

impl Report {
    // Room for the totals of every tally: seven lines, and one for each of 256 error numbers.
    pub const ROOM: usize = 12288;

    // The bytes of the lines.
    pub fn as_bytes(&self) -> &[u8]
        ensures { result.now ≡ take self.now.len self.now.bytes }
    {
        &self.bytes[..self.len.min(Report::ROOM)]
    }

    #[tactic(auto, unfolding(crate::specs::Reports::report))]
    fn empty() -> Report
        ensures { result ≡ report [] }
    {
        Report {
            bytes: [0; Report::ROOM],
            len: 0,
        }
    }

    // A line more, where there is room for it.
    fn put(&mut self, line: &Text)
        ensures { (m : List ℕ) → line.now ≡ held m → Lengthens self.old self.new m (length m) }
    {
        let at = Offset(self.len);
        let bytes = &line.bytes[..usize::from(line.len)];
        if fits(Report::ROOM, at, bytes.len()) {
            copy_in(&mut self.bytes, at, bytes);
            self.len += bytes.len();
        }
    }

    // A line more of a word and its numbers.
    fn put_line(&mut self, word: &[u8], numbers: &[u64])
        requires { length word.now + 21 * length numbers.now < 255 }
        ensures { Lengthens self.old self.new (line word.now numbers.now) (length word.now + 21 * length numbers.now + 1) }
    {
        self.put(&line(word, numbers));
    }

    // Runs, and runs of each outcome.
    fn put_outcomes(&mut self, tally: &Tally)
        ensures { self.old ≡ report [] → self.new ≡ report (outcome_lines tally.now) }
    {
        self.put_line(b"runs", &[u64::from(tally.runs)]);
        self.put_line(b"ended", &[u64::from(tally.ended)]);
        self.put_line(b"stopped", &[u64::from(tally.stopped)]);
        self.put_line(b"out", &[u64::from(tally.out)]);
        self.put_line(b"error", &[u64::from(tally.error)]);
    }

    // A line more for an error number that was met.
    fn put_code(&mut self, code: u64, count: u32)
        ensures { Lengthens self.old self.new (code_line code count) 47 }
    {
        if count > 0 {
            self.put_line(b"code", &[code, u64::from(count)]);
        }
    }

    // Runs of each error number met, in rising order.
    fn put_codes(&mut self, codes: &[u32; 256])
        ensures { Lengthens self.old self.new (code_lines 0 codes.now) (47 * 256) }
    {
        for (code, &count) in codes.iter().enumerate() {
            self.put_code(code as u64, count);
        }
    }

    // Total steps and mean steps.
    fn put_steps(&mut self, tally: &Tally)
        ensures { Lengthens self.old self.new (step_lines tally.now) 80 }
    {
        let mean = mean_of(tally.steps, u64::from(tally.runs));
        self.put_line(b"steps", &[tally.steps]);
        self.put_line(b"mean", &[mean.total, mean.count]);
    }
}

// The totals.
pub(crate) fn report_of(tally: &Tally) -> Report
    ensures { result ≡ report (printed_of tally.now) }
{
    let mut report = Report::empty();
    report.put_outcomes(tally);
    report.put_codes(&tally.codes);
    report.put_steps(tally);
    report
}

// Only `refused`, tab and the record's number.
pub(crate) fn refused_report(refused: RefusedRecord) -> Report
    ensures { result ≡ report (line (bytes "refused") (refused.number ∷ [])) }
{
    let mut report = Report::empty();
    report.put_line(b"refused", &[u64::from(refused.number)]);
    report
}
