//! Counters of calls, and which calls of those in memory are to fail.
ghost use Rattle.std.specs.Prelude.{◌≡◌, ◌↔◌, ◌≤◌, IsTrue, Contains};
ghost use Rattle.port_io.specs.Counts.{Rose, next_count};

// One more, where the counter stands still at its end.
pub(crate) fn next_count(count: u64) -> u64
    ensures next { result ≡ next_count count }
    ensures rose { Rose count result }
    ensures not_below { count ≤ result }
{
    if count == u64::MAX { count } else { count + 1 }
}

// The call of this number is one of those that are to fail.
pub(crate) fn is_listed(fails: &[u32], call: u64) -> bool
    ensures { IsTrue result ↔ Contains fails.now call }
{
    fails.iter().any(|fail| u64::from(*fail) == call)
}
