use hy_frame::{Bank, Frame, FrameWriter, NoMemory, WriterState};
use std::test::Fail;

/// A writer that gives each frame back at once.
#[derive(Drop)]
struct Back {
    state: WriterState,
    arity: usize,
    unit: usize,
}

impl FrameWriter for Back {
    ghost at = { λ w. w.state };

    ghost arity = { λ w. w.arity };

    ghost unit = { λ w. w.unit };

    ghost held = { λ w. 0 };

    ghost most = { λ w. 0 };

    fn state(&self) -> WriterState {
        self.state
    }

    fn open(&mut self) {
        self.state = WriterState::Opened;
    }

    fn next_frame(&mut self, bank: &mut Bank, frame: Frame) -> Result<(), NoMemory> {
        bank.give(frame);
        Ok(())
    }

    fn fail(&mut self, _bank: &mut Bank) {
        self.state = WriterState::Failed;
    }

    fn close(&mut self, _bank: &mut Bank) {
        self.state = WriterState::Closed;
    }
}

#[test]
fn a_writer_takes_frames(rt: HostRuntime) -> Result<(), Fail> {
    let mut bank = Bank::new(256, 1);
    let mut writer = Back {
        state: WriterState::Initial,
        arity: 1,
        unit: 256,
    };
    writer.open();
    let frame = bank.take(rt.alloc(), 1, 9)?;
    writer.next_frame(&mut bank, frame)?;
    assert_eq!(rt; bank.out(), 0);
    assert_eq!(rt; writer.state(), WriterState::Opened);
    writer.fail(&mut bank);
    writer.close(&mut bank);
    assert_eq!(rt; writer.state(), WriterState::Closed);
    let counts = bank.close();
    assert_eq!(rt; counts.taken, counts.given);
    Ok(())
}
