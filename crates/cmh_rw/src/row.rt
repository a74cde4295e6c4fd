//! Rows and verdicts as words, and back.

ghost use Rattle.std.specs.Prelude.{◌≡◌, ◌<◌, Option, Some};
ghost use Rattle.cmh_graph.specs.declared.verdict.Verdict.{Verdict};
ghost use Rattle.cmh_rw.specs.History.{row_code, row_of, row_words, verdict_code};

use cmh_graph::Verdict;

/// A process with its verdict. The last row of a posting has `last`.
#[derive(Clone, Copy, PartialEq, Eq, Hash, Debug)]
pub struct Row {
    pub process: u32,
    pub verdict: Verdict,
    pub last: bool,
}

impl Row {
    /// The word that the row is stored as.
    pub(crate) fn code(self) -> u64
        ensures { result ≡ row_code self }
    {
        let free = self.verdict == Verdict::Free;
        4 * u64::from(self.process) + 2 * u64::from(self.last) + u64::from(free)
    }

    /// The row that a word stands for.
    pub fn from_code(code: u64) -> Row
        requires { code < row_words }
        ensures { result ≡ row_of code }
    {
        Row {
            process: (code / 4) as u32,
            verdict: if code % 2 == 1 {
                Verdict::Free
            } else {
                Verdict::Deadlocked
            },
            last: code / 2 % 2 == 1,
        }
    }
}

/// The word that a verdict is stored as.
pub(crate) fn verdict_code(verdict: Verdict) -> u64
    ensures { result ≡ verdict_code (Some verdict) }
{
    match verdict {
        Verdict::Deadlocked => 1,
        Verdict::Free => 2,
    }
}

/// The verdict that a word stands for, or none where none is stored.
pub fn verdict_from_code(code: u64) -> Option<Verdict>
    ensures { (verdict : Option Verdict) → code ≡ verdict_code verdict → result ≡ verdict }
{
    match code {
        0 => None,
        1 => Some(Verdict::Deadlocked),
        _ => Some(Verdict::Free),
    }
}
