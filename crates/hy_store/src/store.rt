ghost use Rattle.std.specs.Prelude.{◌≡◌, ◌≢◌, ◌-◌, ◌^◌, ◌<◌, ◌≤◌, ℕ, [], length, IfOk, IsErrOf, OnOk, OnErr};
ghost use Rattle.al_value.specs.Outside.{Counted, Told, failed};
ghost use Rattle.hy_store.specs.Faults.{is_failed};
ghost use Rattle.hy_store.specs.Runs.{RunsOf, IsLive, HaveShape, IsFrameAt, Created, Grown, Removed};

use crate::fault::StoreFault;
use al_value::Failed;
use hy_frame::Frame;

/// Runs: lists of frames that grow at their ends and are read by their places. A store that tells its frames tells them
/// after each call. It must be spent by the shelf that it came of.
pub trait RunStore: Send + Drop {
    // The runs; which frames they have may be told or not.
    ghost runs: { Self → RunsOf };

    // How many calls the outside did not serve.
    ghost faults: { Self → ℕ };

    /// Makes a run without frames. No number is given twice, and a store makes at most 2^32 - 1 runs.
    fn create(&mut self) -> Result<u32, StoreFault>
        ensures ok { IfOk result (λ run. Created run (runs self.old) (runs self.new)) }
        ensures full { 2 ^ 32 - 1 ≤ (runs self.old).made → IsErrOf result StoreFault.Failed }
        ensures err { OnErr result (runs self.new ≡ runs self.old) }
        ensures cause { Counted (is_failed result) (faults self.old) (faults self.new) };

    /// Puts a copy of a frame at the end of a run.
    fn append_frame(&mut self, run: u32, frame: &Frame) -> Result<(), StoreFault>
        requires live { IsLive (runs self.old) run }
        requires holds { frame.now.rows ≢ [] }
        requires shape { HaveShape (runs self.old) run frame.now.arity frame.now.unit }
        ensures ok { OnOk result (Grown run frame.now (runs self.old) (runs self.new)) }
        ensures err { OnErr result (runs self.new ≡ runs self.old) }
        ensures cause { Counted (is_failed result) (faults self.old) (faults self.new) };

    /// The number of frames of a run.
    fn frames(&self, run: u32) -> u64
        requires { IsLive (runs self.now) run }
        ensures count { result ≡ (runs self.now).count run }
        ensures told { Told (runs self.now).held (λ f. result ≡ length (f run)) };

    /// Reads the frame in this place of a run in place of what a frame holds. Bytes that are no frame are a failure.
    fn read_frame(&mut self, run: u32, k: u64, into: &mut Frame) -> Result<(), StoreFault>
        requires live { IsLive (runs self.old) run }
        requires place { k < (runs self.old).count run }
        requires shape { HaveShape (runs self.old) run into.old.arity into.old.unit }
        ensures frame { OnOk result (IsFrameAt (runs self.old) run k into.new) }
        ensures shape { (into.new.arity ≡ into.old.arity) × (into.new.unit ≡ into.old.unit) }
        ensures err { IsErrOf result StoreFault.NoMemory → into.new ≡ into.old }
        ensures runs { runs self.new ≡ runs self.old }
        ensures cause { Counted (is_failed result) (faults self.old) (faults self.new) };

    /// Ends a run. One that the outside didn't remove stays live.
    fn remove(&mut self, run: u32) -> Result<(), Failed>
        requires { IsLive (runs self.old) run }
        ensures ok { OnOk result (Removed run (runs self.old) (runs self.new)) }
        ensures err { OnErr result (runs self.new ≡ runs self.old) }
        ensures cause { Counted (failed result) (faults self.old) (faults self.new) };

    /// How many runs were made.
    fn made(&self) -> u64
        ensures { result ≡ (runs self.now).made };
}
