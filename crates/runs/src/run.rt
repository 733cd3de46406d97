// A run, an access at a time.
ghost use Rattle.std.specs.Prelude.{◌≡◌, List, ℕ, ◌+◌, ◌<◌, get_or};
ghost use Rattle.sequences.specs.declared.access.Access.{Access as Accesses};
ghost use Rattle.runs.specs.Run.{value_of, put};
ghost use Rattle.runs.specs.Drive.{word_in};
ghost use Rattle.runs.specs.Running.{Kept, Accessed, At, Ended};

use crate::access::{answer_of, code_of, ending_of, halted, uses_of};
use crate::drive::{at, keep, word_in};
use crate::log::put;
use crate::running::Running;
use machine::transfer::Transfer;
use sequences::access::{Access, Ending};

// A machine that a run drives: the access that is due, and the machine after it.
pub(crate) trait Machine: Copy {
    ghost due: { Self → Accesses };

    ghost after: { Self → ℕ → Self };

    fn next(self) -> Access
        ensures { result ≡ due self };

    fn answered(self, value: u32) -> Self
        ensures { result ≡ after self value };
}

impl Machine for Transfer {
    ghost use Rattle.machine.specs.Transfer.{due_access, resumed};

    ghost due = { due_access };

    ghost after = { resumed };

    fn next(self) -> Access {
        self.next()
    }

    fn answered(self, value: u32) -> Self {
        self.answered(value)
    }
}

// The functions that are laid in keep a run's counts in registers: where its address is handed to a call they stay in memory.
// (Three ask that an access is left in the budget: it is a fact about a moment, which no field could keep.)
impl Running<'_> {
    // The pair of an access.
    pub(crate) fn put(&mut self, code: u32, value: u32)
        requires { self.old.spot.made < self.old.budget }
        ensures kept { Kept self.old self.new }
        ensures spot { self.new.spot
            ≡ record { made = self.old.spot.made + 1; used = self.old.spot.used; received = self.old.spot.received } }
        ensures log { self.new.log.now ≡ put self.old.log.now self.old.spot.made code value }
        ensures words { self.new.received_words.now ≡ self.old.received_words.now }
    {
        put(self.log, self.spot.made, code, value);
        self.spot.made += 1;
    }

    // The second number of its pair in the log.
    fn value_of(&self, access: Access, value: u32) -> u32
        ensures { result
            ≡ value_of (word_in self.now.frame self.now.sent_words.now self.now.received_words.now self.now.spot.received)
            access value }
    {
        match access {
            Access::Read(_) | Access::Receive(_) => value,
            Access::Write(_, w) => w,
            Access::Send(i) => word_in(
                self.frame,
                self.sent_words,
                self.received_words,
                self.spot.received,
                i,
            ),
            Access::Done(_) => 0,
        }
    }

    // An access, where `value` is the next answer. What the machine is told.
    #[inline(always)]
    pub(crate) fn make(&mut self, access: Access, value: u32) -> u32
        requires fits { self.old.spot.made < self.old.budget }
        requires next { value ≡ get_or self.old.script.now self.old.spot.used 0 }
        ensures kept { Kept self.old self.new }
        ensures accessed { Accessed access self.old self.new result }
    {
        self.put(code_of(access), self.value_of(access, value));
        self.spot.received = keep(access, self.received_words, self.spot.received, value);
        self.spot.used += uses_of(access);
        answer_of(access, value)
    }

    #[inline(always)]
    pub(crate) fn access(&mut self, access: Access) -> u32
        requires { self.old.spot.made < self.old.budget }
        ensures kept { Kept self.old self.new }
        ensures accessed { Accessed access self.old self.new result }
    {
        let value = at(self.script, self.spot.used);
        self.make(access, value)
    }

    // The rest of the run. The machine where it ends.
    #[inline(always)]
    pub(crate) fn drive<M: Machine>(&mut self, first: M) -> (Ending, M)
        ensures kept { Kept self.old self.new }
        ensures ended { (t : M) (old olds : List ℕ) → At M.due M.after old olds t first self.old
            → Ended M.due M.after old olds t result.1 result.0 self.new }
    {
        let mut m = first;
        loop {
            let access = m.next();
            if self.budget <= self.spot.made || halted(access, self.spot.used, self.script.len()) {
                return (ending_of(access), m);
            }
            m = m.answered(self.access(access));
        }
    }
}
