//! What tasks put into mailboxes.
ghost use Rattle.std.specs.Prelude.{◌≡◌};
ghost use Rattle.hy_mail.specs.Words.{next};

use hy_frame::{Sent, WriterState};

/// What a sender puts into a mailbox. Its frame must be imported by whoever takes it.
#[derive(Drop)]
pub enum Parcel {
    Open,
    Frame(Sent),
    Fail,
    Close,
}

impl Parcel {
    /// How far a sender's word has come with this parcel behind it.
    pub(crate) fn leads(&self, word: WriterState) -> WriterState
        ensures { result ≡ next word self.now }
    {
        match self {
            Parcel::Open => WriterState::Opened,
            Parcel::Frame(_) => word,
            Parcel::Fail => WriterState::Failed,
            Parcel::Close => WriterState::Closed,
        }
    }
}

/// A parcel in a mailbox, with its sender's number there.
#[derive(Drop)]
pub(crate) struct Posted {
    pub(crate) from: u32,
    pub(crate) parcel: Parcel,
}

/// What became of a parcel that was to be put.
#[derive(Drop)]
pub enum PutAnswer {
    Put,
    /// The mailbox was full, and here is the parcel.
    Full(Parcel),
}
