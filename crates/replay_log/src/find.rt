//! The log of a process, among logs that are sorted by process.

ghost use Rattle.std.specs.Prelude.{◌≡◌, ◌<◌, ◌≤◌, ℕ, true, false, length, None, IfSome, slice_index_or};
ghost use Rattle.ldv_value.specs.Sorted.{is_strictly_sorted, text_precedes};
ghost use Rattle.run_model.specs.LogDatabase.{is_log_of};
ghost use Rattle.run_model.specs.ValidPackage.{log_precedes};
ghost use Rattle.replay_log.specs.inner.Places.{no_log, IsAt, IsNowhere};

use run_model::Log;

fn is_before(log: &Log, process: &[u32]) -> bool
    ensures { result ≡ text_precedes log.now.process.parts process.now }
{
    log.process.parts.items().cmp(process).is_lt()
}

fn is_log_of(log: &Log, process: &[u32]) -> bool
    ensures { result ≡ is_log_of process.now log.now }
{
    process == log.process.parts.items()
}

// The index of the first log whose process isn't before the given one, found by bisection.
fn first_from(logs: &[Log], process: &[u32]) -> usize
    requires { is_strictly_sorted log_precedes logs.now ≡ true }
    ensures within { result ≤ length logs.now }
    ensures before { (k : ℕ) → k < result
        → text_precedes (slice_index_or logs.now k no_log).process.parts process.now ≡ true }
    ensures after { (k : ℕ) → result ≤ k → k < length logs.now
        → text_precedes (slice_index_or logs.now k no_log).process.parts process.now ≡ false }
{
    logs.partition_point(|log| is_before(log, process))
}

/// The index of the log of a process, by the parts of its name.
pub(crate) fn index_of(logs: &[Log], process: &[u32]) -> Option<usize>
    requires { is_strictly_sorted log_precedes logs.now ≡ true }
    ensures within { IfSome result (λ index. index < length logs.now) }
    ensures found { IfSome result (λ index. IsAt process.now index logs.now) }
    ensures absent { result ≡ None → IsNowhere process.now logs.now }
{
    let index = first_from(logs, process);
    if index == logs.len() {
        return None;
    }
    if is_log_of(&logs[index], process) {
        Some(index)
    } else {
        None
    }
}
