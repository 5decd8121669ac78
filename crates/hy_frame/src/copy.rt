ghost use Rattle.std.specs.Prelude.{◌≡◌, IfOk};

use crate::fault::NoMemory;
use crate::frame::Frame;
use std::alloc::Global;
use std::marker::Model;

/// A copy of a frame that is kept outside of all banks. It counts in none, and no bank can take it.
#[derive(Drop)]
pub struct FrameCopy {
    frame: Frame,
}

impl Model for FrameCopy {
    ghost use Rattle.hy_frame.specs.Frame.{FrameOf};

    ghost Value = { FrameOf };

    ghost view = { λ c. c.frame };
}

impl FrameCopy {
    pub fn of(alloc: Global, frame: &Frame) -> Result<FrameCopy, NoMemory>
        ensures { IfOk result (λ c. c ≡ frame.now) }
    {
        Ok(FrameCopy {
            frame: frame.copy(alloc)?,
        })
    }

    /// The frame that this is a copy of, as it was.
    pub fn frame(&self) -> &Frame
        ensures { result.now ≡ self.now }
    {
        &self.frame
    }
}
