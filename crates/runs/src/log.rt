// The log of a run, and its limits.
ghost use Rattle.std.specs.Prelude.{◌≡◌, ◌+◌, ◌*◌, ◌<◌, length};
ghost use Rattle.runs.specs.Run.{put, limits};

// The largest budget.
pub(crate) const MAX_BUDGET: usize = 8_000;

// Number 5: the budget is too large, or the log too short for it.
pub fn limits(budget: usize, log: &[u32]) -> bool
    ensures { result ≡ limits budget log.now }
{
    MAX_BUDGET < budget || log.len() < 2 * budget
}

// The pair of an access.
pub(crate) fn put(log: &mut [u32], made: usize, at: u32, value: u32)
    requires { 2 * made + 1 < length log.old }
    ensures { log.new ≡ put log.old made at value }
{
    let i = 2 * made;
    log[i] = at;
    log[i + 1] = value;
}
