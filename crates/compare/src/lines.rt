// Two lines with one number.
ghost use Rattle.std.specs.Prelude.{◌≡◌, Some};
ghost use Rattle.words.specs.Spellings.{same_bytes};
ghost use Rattle.loader.proofs.Spans.{body_at};
ghost use Rattle.compare.specs.bridge.Turns.{Lies};

use loader::LineSpan;

// Lines are equal when the bytes after their numbers are.
pub(crate) fn same_line(old: &[u8], first: LineSpan, new: &[u8], second: LineSpan) -> bool
    requires { Lies old.now (Some first) × Lies new.now (Some second) }
    ensures { result ≡ same_bytes (body_at old.now first) (body_at new.now second) }
{
    old[first.body.0..first.end.0] == new[second.body.0..second.end.0]
}
