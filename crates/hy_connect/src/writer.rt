//! What a task writes through.
ghost use Rattle.std.specs.Prelude.{◌≡◌, ◌≢◌, ◌⊎◌, ◌+◌, ◌<◌, ◌≤◌, ℕ, [], length, map, true, false, IfOk};
ghost use Rattle.hy_driver.specs.Rows.{values_of};
ghost use Rattle.hy_connect.specs.Outlets.{Exports, Pops, closed, failed, frames_waiting, held_of, posted};
ghost use Rattle.hy_connect.specs.Routes.{HasColumns};
ghost use Rattle.hy_connect.specs.Writers.{AddsParcels, Fails, IsAsFar, IsIdle, IsNew, MayPut, TellsOffer, TellsWritten, Writes, outlet, receivers};
ghost use Rattle.hy_mail.specs.Events.{Full, Put};
ghost use Rattle.hy_mail.specs.declared.parcel.Parcel.{Parcel};
ghost use Rattle.hy_connect.specs.Many.{Each};
ghost use Rattle.hy_places.specs.Places.{AreDifferent};

use crate::outlet::Outlet;
use crate::outlets::{Mark, close_all, fail_all, make_outlets, next_waiting, post_all};
use crate::route::Route;
use crate::spread::{spread_by_hash, spread_whole};
use al_value::NoMemory;
use hy_frame::{Bank, Frame, FrameWriter, RowBuf, WriterState};
use hy_job::Wire;
use hy_mail::{Port, PutAnswer};
use std::alloc::Global;
use std::marker::Model;

/// What `offer` came to.
#[derive(Drop)]
pub enum Offer {
    /// No parcel waits.
    Nothing,
    Put,
    /// The mailbox of the first parcel that waits was full.
    Full,
}

/// Writes rows over a wire: to each receiver those that the wire sends it. What is to be put into the mailboxes waits
/// until it is offered, receiver by receiver, and of each in order.
#[derive(Drop)]
pub struct WireWriter {
    alloc: Global,
    route: Route,
    arity: usize,
    unit: usize,
    outlets: Vec<Outlet>,
    row: RowBuf,
    state: WriterState,
}

impl Model for WireWriter {
    ghost use Rattle.hy_connect.specs.Writers.{IsWriter, WriterOf, writer_of};

    ghost Value = { WriterOf };

    ghost view = { λ w. writer_of w.route w.arity w.unit w.outlets.items w.state };

    ghost invariant = { λ w. IsWriter (writer_of w.route w.arity w.unit w.outlets.items w.state) };
}

impl WireWriter {
    /// A writer over this wire, whose receivers have these mailboxes, in their order. Its rows have so many fields,
    /// and its frames this size.
    #[tactic(auto, using(crate::proofs::Exporting::fresh_waiting))]
    pub fn new(
        alloc: Global,
        wire: &Wire,
        boxes: &[u32],
        unit: usize,
        arity: usize,
    ) -> Result<WireWriter, NoMemory>
        requires some { 0 < length boxes.now }
        requires apart { AreDifferent boxes.now }
        requires columns { HasColumns arity wire.now }
        requires few { arity ≤ 1024 }
        ensures { IfOk result (λ w. IsNew wire.now boxes.now unit arity w) }
    {
        let route = Route::of(alloc, wire)?;
        let Ok(outlets) = make_outlets(alloc, boxes) else {
            return Err(NoMemory);
        };
        Ok(WireWriter {
            alloc,
            route,
            arity,
            unit,
            outlets,
            row: RowBuf::new(alloc),
            state: WriterState::Initial,
        })
    }

    /// Whether a parcel waits.
    pub fn waits(&self) -> bool
        ensures yes { result ≡ true → IsIdle self.now → ⊥ }
        ensures no { result ≡ false → IsIdle self.now }
    {
        next_waiting(&self.outlets).is_some()
    }

    /// Puts the first parcel that waits. It takes no memory.
    pub fn offer<P: Port>(&mut self, port: &mut P) -> Offer
        requires sends { (k : ℕ) → k < receivers self.old → P.sends port.old (outlet self.old k).mailbox }
        requires arity { (k : ℕ) → k < receivers self.old → P.arity port.old (outlet self.old k).mailbox ≡ self.old.arity }
        requires words { IsAsFar (P.word port.old) self.old }
        ensures told { TellsOffer P.happens port.old port.new self.old self.new result }
        ensures words { IsAsFar (P.word port.new) self.new }
        ensures held { held_of self.new.outlets ≡ held_of self.old.outlets }
        ensures kept { P.keeps port.old port.new }
    {
        let Some(k) = next_waiting(&self.outlets) else {
            return Offer::Nothing;
        };
        if put_first(&mut self.outlets[k], port) {
            return Offer::Put;
        }
        Offer::Full
    }
}

/// Puts the first parcel of an outlet, or answers false where the mailbox was full.
fn put_first<P: Port>(outlet: &mut Outlet, port: &mut P) -> bool
    requires waits { outlet.old.waits ≢ [] }
    requires sends { P.sends port.old outlet.old.mailbox }
    requires fits { MayPut (P.word port.old outlet.old.mailbox) (P.arity port.old outlet.old.mailbox) outlet.old.waits }
    ensures put { result ≡ true → (p : Parcel) × Pops outlet.old p outlet.new × P.happens port.old (Put outlet.old.mailbox p) port.new }
    ensures full { result ≡ false → (outlet.new ≡ outlet.old) × P.happens port.old (Full outlet.old.mailbox) port.new }
    ensures kept { P.keeps port.old port.new }
{
    let mailbox = outlet.mailbox();
    match port.put(mailbox, outlet.pop()) {
        PutAnswer::Put => true,
        PutAnswer::Full(parcel) => {
            outlet.put_back(parcel);
            false
        }
    }
}

impl FrameWriter for WireWriter {
    ghost use Rattle.std.specs.Prelude.{length};
    ghost use Rattle.hy_connect.specs.Outlets.{held_of};

    ghost at = { λ w. w.state };

    ghost arity = { λ w. w.arity };

    ghost unit = { λ w. w.unit };

    ghost held = { λ w. held_of w.outlets };

    ghost most = { λ w. length w.outlets };

    fn state(&self) -> WriterState {
        self.state
    }

    fn open(&mut self)
        requires { self.old.state ≡ WriterState.Initial }
        ensures opened { self.new.state ≡ WriterState.Opened }
        ensures held { held_of self.new.outlets ≡ held_of self.old.outlets }
        ensures made { (self.new.arity ≡ self.old.arity) × (self.new.unit ≡ self.old.unit) × (length self.new.outlets ≡ length self.old.outlets) }
        ensures told { Writes self.old [] self.new }
        ensures parcels { AddsParcels 1 self.old self.new }
        ensures posts { Each (posted Parcel.Open) self.old.outlets self.new.outlets }
        ensures waiting { frames_waiting self.new.outlets ≡ frames_waiting self.old.outlets }
    {
        post_all(&mut self.outlets, Mark::Open);
        self.state = WriterState::Opened;
    }

    /// Takes the rows of a frame. After an Err only `fail` may follow.
    fn next_frame(&mut self, bank: &mut Bank, frame: Frame) -> Result<(), hy_frame::NoMemory>
        requires opened { self.old.state ≡ WriterState.Opened }
        requires arity { frame.arity ≡ self.old.arity }
        requires units { (frame.unit ≡ self.old.unit) × (bank.old.unit ≡ self.old.unit) }
        requires room { bank.old.out + length self.old.outlets ≤ bank.old.limit }
        requires out { held_of self.old.outlets + 1 ≤ bank.old.out }
        ensures opened { self.new.state ≡ WriterState.Opened }
        ensures out { bank.new.out + (held_of self.old.outlets + 1) ≡ bank.old.out + held_of self.new.outlets }
        ensures parcels { AddsParcels 1 self.old self.new }
        ensures bank { (bank.new.unit ≡ bank.old.unit) × (bank.new.limit ≡ bank.old.limit) }
        ensures made { (self.new.arity ≡ self.old.arity) × (self.new.unit ≡ self.old.unit) × (length self.new.outlets ≡ length self.old.outlets) }
        ensures told { TellsWritten self.old (map values_of frame.rows) self.new result }
        ensures exports { Exports (frames_waiting self.old.outlets) (frames_waiting self.new.outlets) bank.old bank.new }
    {
        match &self.route {
            Route::Whole => spread_whole(self.alloc, &mut self.outlets, bank, frame),
            Route::ByHash(columns) => {
                let columns = columns.as_slice();
                let spread = spread_by_hash(
                    self.alloc,
                    &mut self.outlets,
                    columns,
                    &mut self.row,
                    bank,
                    &frame,
                );
                bank.give(frame);
                spread
            }
        }
    }

    /// Gives up the rows of frames that are being filled, and tells each receiver of a failure.
    fn fail(&mut self, bank: &mut Bank)
        requires opened { self.old.state ≡ WriterState.Opened }
        requires units { bank.old.unit ≡ self.old.unit }
        requires out { held_of self.old.outlets ≤ bank.old.out }
        ensures failed { self.new.state ≡ WriterState.Failed }
        ensures empty { held_of self.new.outlets ≡ 0 }
        ensures out { bank.new.out + held_of self.old.outlets ≡ bank.old.out }
        ensures bank { (bank.new.unit ≡ bank.old.unit) × (bank.new.limit ≡ bank.old.limit) }
        ensures made { (self.new.arity ≡ self.old.arity) × (self.new.unit ≡ self.old.unit) × (length self.new.outlets ≡ length self.old.outlets) }
        ensures told { Fails self.old self.new }
        ensures exports { Exports (frames_waiting self.old.outlets) (frames_waiting self.new.outlets) bank.old bank.new }
        ensures parcels { AddsParcels 1 self.old self.new }
        ensures posts { Each failed self.old.outlets self.new.outlets }
    {
        fail_all(&mut self.outlets, bank);
        self.state = WriterState::Failed;
    }

    /// Lets what is being filled wait, and a Close behind it.
    fn close(&mut self, bank: &mut Bank)
        requires ready { (self.old.state ≡ WriterState.Opened) ⊎ (self.old.state ≡ WriterState.Failed) }
        requires units { bank.old.unit ≡ self.old.unit }
        requires out { held_of self.old.outlets ≤ bank.old.out }
        ensures closed { self.new.state ≡ WriterState.Closed }
        ensures empty { held_of self.new.outlets ≡ 0 }
        ensures out { bank.new.out + held_of self.old.outlets ≡ bank.old.out }
        ensures bank { (bank.new.unit ≡ bank.old.unit) × (bank.new.limit ≡ bank.old.limit) }
        ensures told { Writes self.old [] self.new }
        ensures parcels { AddsParcels 2 self.old self.new }
        ensures exports { Exports (frames_waiting self.old.outlets) (frames_waiting self.new.outlets) bank.old bank.new }
        ensures posts { Each closed self.old.outlets self.new.outlets }
        ensures ends { self.old.state ≡ WriterState.Failed → Each (posted Parcel.Close) self.old.outlets self.new.outlets }
    {
        close_all(&mut self.outlets, bank);
        self.state = WriterState::Closed;
    }
}
