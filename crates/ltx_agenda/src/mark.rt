//! The lane of each run, and where the run starts there.

ghost use Rattle.std.specs.Prelude.{◌≡◌, ◌≤◌, ◌<◌, ◌+◌, ◌^◌, ℕ, length, true};
ghost use Rattle.ltx_agenda.specs.Runs.{rows_of, members_of};
ghost use Rattle.ltx_agenda.specs.Lanes.{lane_no, start_no};
ghost use Rattle.ltx_agenda.specs.Marks.{ends_of, mark_at, IsInLane, IsStarted};

use crate::run::Run;

/// Whether a run ends its lane, which lane that is, and how many members of the lane stand before
/// the run. Lanes count from that of the first run.
#[derive(Clone, Copy, Debug, PartialEq, Eq)]
pub struct Mark {
    pub ends: bool,
    pub lane: usize,
    pub start: usize,
}

/// The mark of a run that comes after all others.
pub fn next_mark(marks: &[Mark], runs: &[Run], ends: bool) -> Mark
    requires as_many { length marks.now ≡ length runs.now }
    requires bounded { length (members_of (rows_of runs.now)) < 2 ^ 64 }
    requires in_lane { (b : ℕ) → b < length marks.now → IsInLane marks.now b }
    requires started { (b : ℕ) → b < length marks.now → IsStarted marks.now (rows_of runs.now) b }
    ensures ends { result.ends ≡ ends }
    ensures lane { result.lane ≡ lane_no 0 (ends_of marks.now) (length marks.now) }
    ensures start { result.start ≡ start_no 0 (ends_of marks.now) (rows_of runs.now) (length marks.now) }
{
    let len = marks.len();
    if len == 0 {
        return Mark {
            ends,
            lane: 0,
            start: 0,
        };
    }
    let last = marks[len - 1];
    if last.ends {
        return Mark {
            ends,
            lane: last.lane + 1,
            start: 0,
        };
    }
    let members = runs[len - 1].len();
    Mark {
        ends,
        lane: last.lane,
        start: last.start + members,
    }
}

/// Tells the later runs of a lane anew where they start, after one of its runs has changed.
pub fn restart(marks: &mut [Mark], runs: &[Run], from: usize)
    requires as_many { length marks.old ≡ length runs.now }
    requires from { from < length marks.old }
    requires bounded { length (members_of (rows_of runs.now)) < 2 ^ 64 }
    requires before { (b : ℕ) → b ≤ from → IsStarted marks.old (rows_of runs.now) b }
    requires beyond { (b c : ℕ) → from ≤ c → c < b → b < length marks.old → (mark_at marks.old c).ends ≡ true → IsStarted marks.old (rows_of runs.now) b }
    ensures len { length marks.new ≡ length marks.old }
    ensures ends { ends_of marks.new ≡ ends_of marks.old }
    ensures lanes { (b : ℕ) → (mark_at marks.new b).lane ≡ (mark_at marks.old b).lane }
    ensures started { (b : ℕ) → b < length marks.new → IsStarted marks.new (rows_of runs.now) b }
{
    for b in from + 1..marks.len() {
        let before = marks[b - 1];
        if before.ends {
            return;
        }
        let members = runs[b - 1].len();
        marks[b].start = before.start + members;
    }
}
