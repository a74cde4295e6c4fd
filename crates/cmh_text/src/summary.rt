//! What the line of each process is made of, as the records of an analysis say it.

ghost use Rattle.std.specs.Prelude.{◌≡◌};
ghost use Rattle.cmh_text.specs.Summary.{leader_in, next_in};

/// What the text takes of one process.
#[derive(Clone, Copy, Debug)]
pub enum Summary {
    /// It isn't idle, and has no line.
    Active,
    /// It is deadlocked, and this process leads its group.
    Deadlocked(u32),
    /// It is free. The process after it on its path, if there is one, and how many processes are on the path.
    Free(Option<u32>, usize),
}

impl Summary {
    /// The leader of the process, if it is deadlocked.
    pub(crate) fn leader(self) -> Option<u32>
        ensures { result ≡ leader_in self }
    {
        match self {
            Summary::Deadlocked(leader) => Some(leader),
            Summary::Active | Summary::Free(_, _) => None,
        }
    }

    /// The process after this one on its path, if there is one.
    pub(crate) fn next(self) -> Option<u32>
        ensures { result ≡ next_in self }
    {
        match self {
            Summary::Free(next, _) => next,
            Summary::Active | Summary::Deadlocked(_) => None,
        }
    }
}
