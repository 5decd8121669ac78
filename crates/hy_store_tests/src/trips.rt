//! What any store does, in memory or in a folder.
ghost use Rattle.std.specs.Prelude.{◌≡◌, ◌≢◌, [], IfOk};
ghost use Rattle.hy_store.specs.Runs.{IsLive, HaveShape};

use hy_frame::Frame;
use hy_store::{RunStore, StoreFault};

/// A new run with these two frames.
fn run_of<S: RunStore>(store: &mut S, one: &Frame, two: &Frame) -> Result<u32, StoreFault>
    requires first { one.now.rows ≢ [] }
    requires second { two.now.rows ≢ [] }
    requires shape { (one.now.arity ≡ two.now.arity) × (one.now.unit ≡ two.now.unit) }
    ensures live { IfOk result (λ run. IsLive (S.runs store.new) run) }
    ensures count { IfOk result (λ run. (S.runs store.new).count run ≡ 2) }
    ensures shape { IfOk result (λ run. HaveShape (S.runs store.new) run two.now.arity two.now.unit) }
{
    let run = store.create()?;
    store.append_frame(run, one)?;
    store.append_frame(run, two)?;
    Ok(run)
}

/// Whether a run's two frames are read back, the last one first, and the run is removed.
pub(crate) fn comes_back<S: RunStore>(
    store: &mut S,
    one: &Frame,
    two: &Frame,
    into: &mut Frame,
) -> Result<bool, StoreFault>
    requires first { one.now.rows ≢ [] }
    requires second { two.now.rows ≢ [] }
    requires shape { (one.now.arity ≡ two.now.arity) × (one.now.unit ≡ two.now.unit) }
    requires into { (into.old.arity ≡ two.now.arity) × (into.old.unit ≡ two.now.unit) }
    ensures into { (into.new.arity ≡ into.old.arity) × (into.new.unit ≡ into.old.unit) }
{
    let run = run_of(store, one, two)?;
    let counted = store.frames(run) == 2;
    store.read_frame(run, 1, into)?;
    let last = into.bytes() == two.bytes();
    store.read_frame(run, 0, into)?;
    let first = into.bytes() == one.bytes();
    store.remove(run)?;
    Ok(counted && last && first)
}

/// Makes a run, puts a frame to it, reads it and removes the run. How many of these four calls were served before one
/// wasn't.
pub(crate) fn served<S: RunStore>(store: &mut S, frame: &Frame, into: &mut Frame) -> u64
    requires holds { frame.now.rows ≢ [] }
    requires into { (into.old.arity ≡ frame.now.arity) × (into.old.unit ≡ frame.now.unit) }
    ensures into { (into.new.arity ≡ into.old.arity) × (into.new.unit ≡ into.old.unit) }
{
    let Ok(run) = store.create() else {
        return 0;
    };
    if store.append_frame(run, frame).is_err() {
        return 1;
    }
    if store.read_frame(run, 0, into).is_err() {
        return 2;
    }
    if store.remove(run).is_err() { 3 } else { 4 }
}
