//! Runs by their numbers.
ghost use Rattle.std.specs.Prelude.{◌≡◌, length, is_some};
ghost use Rattle.std.specs.List.{count_by};
ghost use Rattle.hy_store.specs.Slots.{live_from};

/// How many slots hold a run.
#[tactic(auto, using(crate::proofs::SlotLaws::live_count))]
pub(crate) fn count_live<T>(slots: &[Option<T>]) -> usize
    ensures { result ≡ length (live_from 0 slots.now) }
{
    count_held(slots)
}

fn count_held<T>(slots: &[Option<T>]) -> usize
    ensures { result ≡ count_by is_some slots.now }
{
    let mut held = 0;
    for slot in slots {
        if slot.is_some() {
            held += 1;
        }
    }
    held
}
