//! One process of one initiator's computations, and its three steps.

ghost use Rattle.std.specs.Prelude.{◌≡◌, ◌+◌, ◌<◌, ◌^◌};
ghost use Rattle.cmh_process.specs.Process.{new_proc, proc_started, start_action, engages, proc_engaged, engage_action, proc_queried, query_action, repeat_action, proc_replied, reply_action};

/// What a process keeps for one initiator, under the paper's names.
#[derive(Clone, Copy, PartialEq, Eq, Hash, Debug)]
pub struct Proc {
    /// The greatest number of a computation that it has taken part in, 0 at first.
    pub latest: u32,

    /// The process that engaged it in that computation by a query. The initiator has none.
    pub engager: Option<u32>,

    /// How many replies of that computation it still waits for.
    pub num: u32,

    /// Whether it has started or engaged.
    pub wait: bool,
}

/// What a process sends after a step.
#[derive(Clone, Copy, PartialEq, Eq, Hash, Debug)]
pub enum Action {
    Nothing,
    /// One query to each of its dependents, with its latest number.
    Engage,
    /// One reply to this process.
    ReplyTo(u32),
    /// Nothing: it is the initiator, and is found to be deadlocked.
    Declare,
}

impl Proc {
    /// A process that has taken part in no computation.
    pub fn new() -> Proc
        ensures { result ≡ new_proc }
    {
        Proc {
            latest: 0,
            engager: None,
            num: 0,
            wait: false,
        }
    }

    /// Starts the next computation at an idle initiator with `size` dependents, by the paper's rule for initiating a
    /// query computation.
    pub fn start(&mut self, size: u32) -> Action
        requires { self.old.latest + 1 < 2 ^ 32 }
        ensures proc { self.new ≡ proc_started self.old size }
        ensures action { result ≡ start_action size }
    {
        *self = Proc {
            latest: self.latest + 1,
            engager: None,
            num: size,
            wait: true,
        };
        if size == 0 {
            Action::Declare
        } else {
            Action::Engage
        }
    }

    /// Whether a query of computation `number` engages it.
    pub fn is_engaged_by(&self, number: u32) -> bool
        ensures { result ≡ engages self.now number }
    {
        self.latest < number
    }

    /// Takes a query of computation `number` at an idle process with `size` dependents, by the paper's rule for a query
    /// that an idle process receives.
    pub fn on_query(&mut self, number: u32, from: u32, size: u32) -> Action
        ensures proc { self.new ≡ proc_queried self.old number from size }
        ensures action { result ≡ query_action self.old number from size }
    {
        if self.is_engaged_by(number) {
            self.engage(number, from, size)
        } else {
            self.answer(number, from)
        }
    }

    /// What it sends at a query of computation `number` that doesn't engage it. Such a query changes nothing.
    pub fn answer(&self, number: u32, from: u32) -> Action
        ensures { result ≡ repeat_action self.now number from }
    {
        if self.latest == number && self.wait {
            Action::ReplyTo(from)
        } else {
            Action::Nothing
        }
    }

    fn engage(&mut self, number: u32, from: u32, size: u32) -> Action
        ensures proc { self.new ≡ proc_engaged number from size }
        ensures action { result ≡ engage_action from size }
    {
        self.latest = number;
        self.engager = Some(from);
        self.num = size;
        self.wait = true;
        if size == 0 {
            Action::ReplyTo(from)
        } else {
            Action::Engage
        }
    }

    /// Takes a reply of computation `number` at an idle process, by the paper's rule for a reply that an idle process
    /// receives.
    pub fn on_reply(&mut self, number: u32) -> Action
        ensures proc { self.new ≡ proc_replied self.old number }
        ensures action { result ≡ reply_action self.old number }
    {
        if !self.wait || self.latest != number || self.num == 0 {
            return Action::Nothing;
        }
        self.num -= 1;
        if self.num > 0 {
            return Action::Nothing;
        }
        match self.engager {
            Some(engager) => Action::ReplyTo(engager),
            None => Action::Declare,
        }
    }
}
