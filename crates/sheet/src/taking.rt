// A sheet that comes in parts: begun, taken part by part, and finished.
ghost use Rattle.std.specs.Prelude.{◌≡◌};
ghost use Rattle.sheet.specs.bridge.Taking.{begun, contents, kept, ended_line, taken, last_counted, finished};
ghost use Rattle.sheet.specs.Reports.{report};

use crate::reports::{Report, refused_report, report_of};
use records::record_of;
use tallies::{Count, Tally, with_record};
use whole::Text;

// What is held between two parts: the line that is not ended yet, as far as a text goes, and the count of those before it.
#[derive(Clone, Copy)]
pub struct Sheet {
    pub line: Text,
    pub count: Count,
}

const LINE_FEED: u8 = 10;

#[tactic(auto, unfolding(crate::specs::bridge::Taking::begun))]
pub fn begin() -> Sheet
    ensures { result ≡ begun }
{
    Sheet {
        line: Text::empty(),
        count: Count {
            tally: Tally::empty(),
            standing: Ok(()),
        },
    }
}

fn contents(line: &Text) -> &[u8]
    ensures { result.now ≡ contents line.now }
{
    &line.bytes[..usize::from(line.len)]
}

// A line without a byte 13 at its end.
fn kept(line: &[u8]) -> &[u8]
    ensures { result.now ≡ kept line.now }
{
    line.strip_suffix(b"\r").unwrap_or(line)
}

// A line that byte 10 ends is a record; one byte 13 just before it is dropped.
#[tactic(auto, unfolding(crate::specs::bridge::Taking::ended_line))]
fn ended_line(count: Count, line: &Text) -> Count
    ensures { result ≡ ended_line count line.now }
{
    with_record(count, record_of(kept(contents(line))))
}

// A part more of the sheet.
pub fn take(sheet: Sheet, part: &[u8]) -> Sheet
    ensures { result ≡ taken sheet part.now }
{
    let mut longer = sheet;
    for &byte in part {
        if byte == LINE_FEED {
            longer.count = ended_line(longer.count, &longer.line);
            longer.line = Text::empty();
        } else {
            longer.line = longer.line.put(byte);
        }
    }
    longer
}

// The last line may lack its end; where nothing stands behind the last byte 10 there is no further line.
#[tactic(auto, unfolding(crate::specs::bridge::Taking::last_counted))]
fn last_counted(sheet: Sheet) -> Count
    ensures { result ≡ last_counted sheet }
{
    let line = contents(&sheet.line);
    if line.is_empty() {
        return sheet.count;
    }
    with_record(sheet.count, record_of(line))
}

// The end: the totals as lines, or the record that is refused.
#[tactic(auto, unfolding(crate::specs::bridge::Taking::finished))]
pub fn finish(sheet: Sheet) -> Report
    ensures { result ≡ report (finished sheet) }
{
    let count = last_counted(sheet);
    match count.standing {
        Ok(()) => report_of(&count.tally),
        Err(refused) => refused_report(refused),
    }
}
