ghost use Rattle.std.specs.Prelude.{◌≡◌, ◌+◌, ◌-◌, ◌<◌, ◌≤◌, [], IfOk, IfSome, OnOk, OnErr};
ghost use Rattle.hy_frame.specs.Bank.{BankOf, one_more, AddUp};
ghost use Rattle.hy_frame.specs.FrameText.{IsLeast};

use crate::fault::NoMemory;
use crate::frame::Frame;
use std::alloc::Global;
use std::marker::Model;

/// How many frames a bank gave out and took in. A count stops at its type's end.
#[derive(Clone, Copy, Debug, PartialEq, Eq)]
pub struct Counts {
    pub taken: u64,
    pub given: u64,
    pub exported: u64,
    pub imported: u64,
}

/// A frame on its way from one bank to another, which must be imported.
#[derive(Drop)]
pub struct Sent {
    frame: Frame,
}

impl Model for Sent {
    ghost use Rattle.hy_frame.specs.Frame.{FrameOf};

    ghost Value = { FrameOf };

    ghost view = { λ s. s.frame };
}

impl Sent {
    /// The frame that is on its way.
    pub fn frame(&self) -> &Frame
        ensures { result.now ≡ self.now }
    {
        &self.frame
    }
}

/// Where the frames of one task come from, and where they go back to.
#[derive(Drop)]
pub struct Bank {
    unit: usize,
    limit: usize,
    out: usize,
    counts: Counts,
}

impl Model for Bank {
    ghost use Rattle.std.specs.Prelude.{◌≤◌};
    ghost use Rattle.hy_frame.specs.Bank.{BankOf, AddUp};

    ghost Value = { BankOf };

    ghost view = { λ b. record { unit = b.unit; limit = b.limit; out = b.out; taken = b.counts.taken; given = b.counts.given; exported = b.counts.exported; imported = b.counts.imported } };

    ghost invariant = { λ b. (256 ≤ b.unit) × (b.unit ≤ 65536) × (b.out ≤ b.limit) × AddUp b.counts.taken b.counts.given b.counts.exported b.counts.imported b.out };
}

impl Bank {
    pub fn new(unit: usize, limit: usize) -> Bank
        requires least { 256 ≤ unit }
        requires most { unit ≤ 65536 }
        ensures { result ≡ record { unit = unit; limit = limit; out = 0; taken = 0; given = 0; exported = 0; imported = 0 } }
    {
        Bank {
            unit,
            limit,
            out: 0,
            counts: Counts {
                taken: 0,
                given: 0,
                exported: 0,
                imported: 0,
            },
        }
    }

    /// A frame without rows, of the least size that holds a row of this size.
    #[tactic(auto, using(crate::proofs::ParseLaws::least_unit))]
    pub fn take(&mut self, alloc: Global, arity: usize, row_size: usize) -> Result<Frame, NoMemory>
        requires { self.old.out < self.old.limit }
        ensures frame { IfOk result (λ f. (f.arity ≡ arity) × (f.unit ≡ self.old.unit) × (f.rows ≡ []) × IsLeast f.unit row_size f.size) }
        ensures unit { IfOk result (λ f. row_size + 8 ≤ f.unit → f.size ≡ f.unit) }
        ensures ok { OnOk result (self.new ≡ record self.old { out = self.old.out + 1; taken = one_more self.old.taken }) }
        ensures err { OnErr result (self.new ≡ self.old) }
    {
        let Some(size) = least_size(self.unit, row_size) else {
            return Err(NoMemory);
        };
        let frame = Frame::of_size(alloc, arity, self.unit, size)?;
        self.out += 1;
        self.counts.taken = self.counts.taken.saturating_add(1);
        Ok(frame)
    }

    /// Takes a frame back.
    pub fn give(&mut self, f: Frame)
        requires { 0 < self.old.out }
        ensures { self.new ≡ record self.old { out = self.old.out - 1; given = one_more self.old.given } }
    {
        drop(f);
        self.out -= 1;
        self.counts.given = self.counts.given.saturating_add(1);
    }

    /// Lets a frame go to another bank.
    pub fn export(&mut self, f: Frame) -> Sent
        requires { 0 < self.old.out }
        ensures sent { result ≡ f }
        ensures bank { self.new ≡ record self.old { out = self.old.out - 1; exported = one_more self.old.exported } }
    {
        self.out -= 1;
        self.counts.exported = self.counts.exported.saturating_add(1);
        Sent { frame: f }
    }

    /// Takes in a frame of another bank.
    pub fn import(&mut self, s: Sent) -> Frame
        requires { self.old.out < self.old.limit }
        ensures frame { result ≡ s }
        ensures bank { self.new ≡ record self.old { out = self.old.out + 1; imported = one_more self.old.imported } }
    {
        self.out += 1;
        self.counts.imported = self.counts.imported.saturating_add(1);
        let Sent { frame } = s;
        frame
    }

    /// How many frames are out.
    pub fn out(&self) -> usize
        ensures out { result ≡ self.now.out }
        ensures within { self.now.out ≤ self.now.limit }
        ensures sum { AddUp self.now.taken self.now.given self.now.exported self.now.imported self.now.out }
    {
        self.out
    }

    /// The size of a frame, if no row needs a larger one.
    pub fn unit(&self) -> usize
        ensures unit { result ≡ self.now.unit }
        ensures least { 256 ≤ self.now.unit }
        ensures most { self.now.unit ≤ 65536 }
    {
        self.unit
    }

    /// Ends a bank that has no frame out.
    pub fn close(self) -> Counts
        requires { self.out ≡ 0 }
        ensures counts { (result.taken ≡ self.taken) × (result.given ≡ self.given) × (result.exported ≡ self.exported) × (result.imported ≡ self.imported) }
        ensures sum { AddUp result.taken result.given result.exported result.imported 0 }
    {
        self.counts
    }
}

/// The least multiple of the unit in which a row of this size stands, if its number fits.
fn least_size(unit: usize, row_size: usize) -> Option<usize>
    requires least { 256 ≤ unit }
    ensures { IfSome result (λ size. IsLeast unit row_size size) }
{
    let needed = row_size.checked_add(8)?;
    let times = (needed - 1) / unit + 1;
    times.checked_mul(unit)
}
