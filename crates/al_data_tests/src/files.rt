use al_io::{
    FileRead, FolderSource, MemSink, MemSource, ReadFault, Sink, Source, StreamSink, read_file,
    read_whole, write_pieces, write_whole,
};
use al_value::Failed;
use std::io::{ErrorKind, Write};
use std::test::Fail;
use std::{fs, io};

#[test]
fn reads_and_writes_in_memory(rt: HostRuntime) -> Result<(), Fail> {
    let mut source = MemSource::new(rt.alloc());
    source.add_file("a", b"hello")?;
    let mut sink = MemSink::new(rt.alloc(), 7)?;
    assert_eq!(rt; source.open("b")?, false);
    assert!(rt; source.open("a")? == true);
    let whole = read_whole(rt.alloc(), &mut source, 5)?;
    assert_eq!(rt; whole.past, false);
    write_whole(&mut sink, whole.bytes.as_slice())?;
    assert_eq!(rt;
        write_pieces(&mut sink, &[b"x".as_slice(), b"yz".as_slice()]),
        Err(Failed)
    );
    assert_eq!(rt; sink.bytes(), b"helloxy".as_slice());
    Ok(())
}

#[test]
fn finds_files_up_to_a_limit(rt: HostRuntime) -> Result<(), Fail> {
    let mut source = MemSource::new(rt.alloc());
    source.add_file("a", b"hello")?;
    source.fail_call(6)?;
    let past = read_file(rt.alloc(), &mut source, "a", 4)?;
    assert!(rt; matches!(past, FileRead::TooLarge));
    let found = read_file(rt.alloc(), &mut source, "a", 5)?;
    let FileRead::Bytes(bytes) = found else {
        return Err(Fail::from("no bytes"));
    };
    assert_eq!(rt; bytes.as_slice(), b"hello".as_slice());
    let absent = read_file(rt.alloc(), &mut source, "b", 5)?;
    assert!(rt; matches!(absent, FileRead::Absent));
    let failed = read_file(rt.alloc(), &mut source, "a", 5);
    assert_eq!(rt; failed.err(), Some(ReadFault::Failed));
    Ok(())
}

#[test]
fn reads_real_files(rt: HostRuntime) -> Result<(), Fail> {
    fs::write(&rt, "a.txt", "hello")?;
    fs::create_dir(&rt, "folder")?;
    let mut source = FolderSource::new(&rt, rt.alloc());
    assert_eq!(rt; source.open("missing")?, false);
    assert!(rt; source.open("a.txt")? == true);
    let whole = read_whole(rt.alloc(), &mut source, 100)?;
    assert_eq!(rt; whole.bytes.as_slice(), b"hello".as_slice());
    let folder = read_file(rt.alloc(), &mut source, "folder", 100);
    assert_eq!(rt; folder.err(), Some(ReadFault::Failed));
    Ok(())
}

#[test]
fn writes_to_a_stream(rt: HostRuntime) -> Result<(), Fail> {
    let mut room = [0u8; 3];
    let mut sink = StreamSink::new(room.as_mut_slice(), rt.alloc());
    assert_eq!(rt; sink.write(b"ab"), Ok(2));
    assert_eq!(rt; sink.write(b"cd"), Ok(1));
    assert_eq!(rt; sink.write(b"d"), Err(Failed));
    Ok(())
}

/// A stream whose first writes are interrupted, as by a signal. It counts the bytes that it takes.
#[derive(Drop)]
struct Interrupted {
    left: u32,
    taken: usize,
}

impl Write for Interrupted {
    fn write(&mut self, buf: &[u8]) -> io::Result<usize> {
        if self.left > 0 {
            self.left -= 1;
            return Err(io::Error::from(ErrorKind::Interrupted));
        }
        self.taken = self.taken.saturating_add(buf.len());
        Ok(buf.len())
    }

    fn flush(&mut self) -> io::Result<()> {
        Ok(())
    }
}

#[test]
fn writes_again_after_an_interruption(rt: HostRuntime) -> Result<(), Fail> {
    let mut stream = Interrupted { left: 3, taken: 0 };
    let mut sink = StreamSink::new(&mut stream, rt.alloc());
    assert_eq!(rt; sink.write(b"abc"), Ok(3));
    assert_eq!(rt; sink.write(b"de"), Ok(2));
    drop(sink);
    assert_eq!(rt; stream.left, 0);
    assert_eq!(rt; stream.taken, 5);
    Ok(())
}
