//! What an operator is.

ghost use Rattle.std.specs.Prelude.{◌≡◌, ◌≢◌, ◌+◌, ◌≤◌, length, false, ℕ, OnOk};
ghost use Rattle.hy_store.specs.Fields.{fields_of};
ghost use Rattle.hy_driver.specs.Rows.{Row, AreValues};
ghost use Rattle.hy_driver.specs.Steps.{GivesUp, HasRoom, IsBankOf, Lent, TellsEnded, TellsFed, TellsNext, ended_with};

use crate::phase::Phase;
use hy_frame::{Bank, RowBuf, RowRef};
use hy_store::{Next, OpFault};

/// An operator of a job in one partition, which is fed rows, asked for rows, and given up where it
/// or another part of its task has failed. After a fault only `give_up` may follow. Any of its calls
/// may take frames of the bank, and holds them until it gives them back.
pub trait Driver {
    ghost use Rattle.std.specs.Prelude.{Bool};
    ghost use Rattle.hy_driver.specs.Seen.{Seen};

    // What contracts see of it.
    ghost seen: { Self → Seen };

    // Whether it has a store, which no call takes from it or gives it.
    ghost stored: { Self → Bool };

    // Whether it may hand rows on, once it has ended, which no call changes either.
    ghost hands: { Self → Bool };

    /// Takes a row of an input.
    fn feed(&mut self, bank: &mut Bank, input: u32, row: RowRef<'_>) -> Result<(), OpFault>
        requires hungry { (seen self.old).phase ≡ Phase.Hungry }
        requires to_come { (seen self.old).ended input ≡ false }
        requires width { length row ≡ (seen self.old).fixed.width input }
        requires bank { IsBankOf (seen self.old) bank.old }
        requires room { HasRoom (seen self.old) bank.old }
        ensures told { (values : Row) → AreValues values → fields_of values ≡ row.entry → TellsFed (seen self.old) (input, values) (seen self.new) result }
        ensures phase { OnOk result ((seen self.new).phase ≡ Phase.Working) }
        ensures inputs { OnOk result ((k : ℕ) → (seen self.new).ended k ≡ (seen self.old).ended k) }
        ensures turns { (seen self.new).turns ≤ (seen self.old).turns + (seen self.old).fixed.cost }
        ensures faults { (seen self.old).store.faults ≤ (seen self.new).store.faults }
        ensures bank { Lent (seen self.old) (seen self.new) bank.old bank.new }
        ensures frames { (seen self.new).frames ≤ (seen self.old).fixed.memory + 1 }
        ensures fixed { (seen self.new).fixed ≡ (seen self.old).fixed }
        ensures kept { stored self.new ≡ stored self.old }
        ensures same { hands self.new ≡ hands self.old };

    /// Ends an input: no row of it comes any more.
    fn end(&mut self, bank: &mut Bank, input: u32) -> Result<(), OpFault>
        requires going { (seen self.old).phase ≢ Phase.GivenUp }
        requires to_come { (seen self.old).ended input ≡ false }
        requires bank { IsBankOf (seen self.old) bank.old }
        requires room { HasRoom (seen self.old) bank.old }
        ensures told { TellsEnded (seen self.old) (seen self.new) result }
        ensures phase { OnOk result ((seen self.new).phase ≡ (seen self.old).phase) }
        ensures inputs { OnOk result ((k : ℕ) → (seen self.new).ended k ≡ ended_with (seen self.old).ended input k) }
        ensures turns { (seen self.new).turns ≤ (seen self.old).turns + (seen self.old).fixed.cost }
        ensures faults { (seen self.old).store.faults ≤ (seen self.new).store.faults }
        ensures bank { Lent (seen self.old) (seen self.new) bank.old bank.new }
        ensures frames { (seen self.new).frames ≤ (seen self.old).fixed.memory + 1 }
        ensures fixed { (seen self.new).fixed ≡ (seen self.old).fixed }
        ensures kept { stored self.new ≡ stored self.old }
        ensures same { hands self.new ≡ hands self.old };

    /// One turn, which gives at most one row.
    fn next(&mut self, bank: &mut Bank, out: &mut RowBuf) -> Result<Next, OpFault>
        requires going { (seen self.old).phase ≢ Phase.GivenUp }
        requires bank { IsBankOf (seen self.old) bank.old }
        requires room { HasRoom (seen self.old) bank.old }
        ensures told { TellsNext (seen self.old) out.new (seen self.new) result }
        ensures inputs { OnOk result ((k : ℕ) → (seen self.new).ended k ≡ (seen self.old).ended k) }
        ensures faults { (seen self.old).store.faults ≤ (seen self.new).store.faults }
        ensures bank { Lent (seen self.old) (seen self.new) bank.old bank.new }
        ensures frames { (seen self.new).frames ≤ (seen self.old).fixed.memory + 1 }
        ensures fixed { (seen self.new).fixed ≡ (seen self.old).fixed }
        ensures kept { stored self.new ≡ stored self.old }
        ensures same { hands self.new ≡ hands self.old };

    /// Gives back all frames and tries to remove all runs. It takes no memory.
    fn give_up(&mut self, bank: &mut Bank)
        requires bank { IsBankOf (seen self.old) bank.old }
        ensures given_up { GivesUp (seen self.old) (seen self.new) }
        ensures faults { (seen self.old).store.faults ≤ (seen self.new).store.faults }
        ensures bank { Lent (seen self.old) (seen self.new) bank.old bank.new }
        ensures fixed { (seen self.new).fixed ≡ (seen self.old).fixed }
        ensures kept { stored self.new ≡ stored self.old }
        ensures same { hands self.new ≡ hands self.old };
}
