//! Runs of records whose lines follow each other.

ghost use Rattle.std.specs.Prelude.{◌-◌, ◌<◌, ◌≤◌, length};
ghost use Rattle.n2_watch.specs.Table.{run_at};

/// Records of lines that follow each other: the first line, how many there are, the place of the
/// first among all records, and the slot of their guard.
#[derive(Clone, Copy, Debug, PartialEq, Eq)]
pub struct Run {
    pub first: u32,
    pub count: u32,
    pub at: u32,
    pub slot: u32,
}

/// Up to which run, in the order of their lines, runs begin at or before a line.
#[inline(always)]
pub fn up_to(runs: &[Run], line: u32) -> usize
    ensures within { result ≤ length runs.now }
    ensures last { 0 < result → (run_at runs.now (result - 1)).first ≤ line }
    ensures next { result < length runs.now → line < (run_at runs.now result).first }
{
    let mut low = 0;
    let mut high = runs.len();
    while low < high {
        let middle = low + (high - low) / 2;
        if runs[middle].first <= line {
            low = middle + 1;
        } else {
            high = middle;
        }
    }
    low
}
