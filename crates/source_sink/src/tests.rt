//! Each call once, with values that were worked out by hand: sources and sinks of which calls fail
//! in mid-stream, the forms over `std::io`, and a buffer before a sink.

ghost use Rattle.std.specs.Prelude.{Some};

use super::{
    BUFFER_SIZE, ByteSink, ByteSource, Failed, INPUT_LIMIT, ReadFault, Sink, Source, StdSink,
    StdSource, SureSink, SureSource, WriteBuffer, read_all, write_all,
};
use std::io::Cursor;
use std::test::Fail;

/// A sink that takes three bytes at a time.
#[derive(Drop)]
struct ThreeAtATime(ByteSink);

impl Sink for ThreeAtATime {
    ghost written = { λ sink. Some sink.0.written };

    ghost count = { λ sink. sink.0.faults };

    fn write(&mut self, from: &[u8]) -> Result<usize, Failed> {
        let count = from.len().min(3);
        self.0.write(&from[..count])
    }

    fn faults(&self) -> u64 {
        self.0.faults()
    }
}

#[test]
fn reads(rt: HostRuntime) -> Result<(), Fail> {
    let alloc = rt.alloc();
    let mut source = ByteSource::new(alloc, b"abcde", &[2, 4])?;
    let mut piece = [0; 3];
    assert_eq!(rt; source.read(&mut piece), Ok(3));
    assert_eq!(rt; piece, *b"abc");
    assert_eq!(rt; source.read(&mut piece), Err(Failed));
    assert_eq!(rt; source.faults(), 1);
    assert_eq!(rt; source.read(&mut piece), Ok(2));
    assert_eq!(rt; piece, *b"dec");
    assert_eq!(rt; source.read(&mut piece), Err(Failed));
    assert_eq!(rt; source.read(&mut piece), Ok(0));
    assert_eq!(rt; source.faults(), 2);

    let mut source = ByteSource::new(alloc, b"abc", &[])?;
    assert_eq!(rt; read_all(alloc, &mut source)?.as_slice(), b"abc".as_slice());
    let mut source = SureSource::new(alloc, b"abc")?;
    assert_eq!(rt; read_all(alloc, &mut source)?.as_slice(), b"abc".as_slice());
    assert_eq!(rt; source.faults(), 0);
    let mut source = StdSource::new(Cursor::new(b"abc"));
    assert_eq!(rt; read_all(alloc, &mut source)?.as_slice(), b"abc".as_slice());
    assert_eq!(rt; source.faults(), 0);

    // The first piece is read, and the second call fails.
    let bytes = vec![in alloc; 7; 20_000]?;
    let mut source = ByteSource::new(alloc, &bytes, &[2])?;
    assert_eq!(rt; read_all(alloc, &mut source).err(), Some(ReadFault::Failed));
    assert_eq!(rt; source.faults(), 1);

    let mut bytes = vec![in alloc; 7; INPUT_LIMIT]?;
    let mut source = SureSource::new(alloc, &bytes)?;
    assert!(rt; read_all(alloc, &mut source)? == bytes);
    bytes.push(7)?;
    let mut source = SureSource::new(alloc, &bytes)?;
    assert_eq!(rt;
        read_all(alloc, &mut source).err(),
        Some(ReadFault::TooLong)
    );
    Ok(())
}

#[test]
fn writes(rt: HostRuntime) -> Result<(), Fail> {
    let alloc = rt.alloc();
    let mut sink = ByteSink::new(alloc, &[2])?;
    assert_eq!(rt; sink.write(b"ab"), Ok(2));
    assert_eq!(rt; sink.write(b"cd"), Err(Failed));
    assert_eq!(rt; sink.write(b"ef"), Ok(2));
    assert_eq!(rt; sink.as_slice(), b"abef".as_slice());
    assert_eq!(rt; sink.faults(), 1);

    let mut sink = ThreeAtATime(ByteSink::new(alloc, &[])?);
    assert_eq!(rt; write_all(&mut sink, b"abcdefgh"), Ok(()));
    assert_eq!(rt; sink.0.as_slice(), b"abcdefgh".as_slice());
    let mut sink = ThreeAtATime(ByteSink::new(alloc, &[3])?);
    assert_eq!(rt; write_all(&mut sink, b"abcdefgh"), Err(Failed));
    assert_eq!(rt; sink.0.as_slice(), b"abcdef".as_slice());
    assert_eq!(rt; sink.faults(), 1);

    let mut sink = SureSink::new();
    assert_eq!(rt; write_all(&mut sink, b"abc"), Ok(()));
    assert_eq!(rt; sink.faults(), 0);

    let mut written = Vec::new(alloc);
    let mut sink = StdSink::new(&mut written);
    assert_eq!(rt; write_all(&mut sink, b"abc"), Ok(()));
    assert_eq!(rt; sink.faults(), 0);
    assert_eq!(rt; written.as_slice(), b"abc".as_slice());

    // A full array takes nothing more.
    let mut room = [0; 4];
    let mut sink = StdSink::new(Cursor::new(room.as_mut_slice()));
    assert_eq!(rt; write_all(&mut sink, b"abcdef"), Err(Failed));
    assert_eq!(rt; sink.faults(), 1);
    Ok(())
}

#[test]
fn buffers(rt: HostRuntime) -> Result<(), Fail> {
    let alloc = rt.alloc();
    // How many bytes are pushed, and how many the sink has then.
    let pushes = [
        (3, 0),
        (BUFFER_SIZE - 3, 0),
        (0, 0),
        (1, BUFFER_SIZE),
        (BUFFER_SIZE, BUFFER_SIZE + 1),
        (BUFFER_SIZE + 1, 3 * BUFFER_SIZE + 2),
        (5, 3 * BUFFER_SIZE + 2),
    ];
    let bytes = vec![in alloc; 7; BUFFER_SIZE + 1]?;
    let mut sink = ByteSink::new(alloc, &[])?;
    let mut buffer = WriteBuffer::new(alloc)?;
    for (count, written) in pushes {
        let piece = bytes.get(..count).ok_or("no such piece")?;
        assert_eq!(rt; buffer.push(&mut sink, piece), Ok(()));
        assert_eq!(rt; sink.as_slice().len(), written);
    }
    assert_eq!(rt; buffer.as_slice().len(), 5);
    assert_eq!(rt; buffer.flush(&mut sink), Ok(()));
    assert_eq!(rt; sink.as_slice().len(), 3 * BUFFER_SIZE + 7);

    // The second write fails: the sink has the first three bytes, and the buffer the others.
    let mut sink = ThreeAtATime(ByteSink::new(alloc, &[2])?);
    assert_eq!(rt; buffer.push(&mut sink, b"abcd"), Ok(()));
    assert_eq!(rt; buffer.push(&mut sink, b"ef"), Ok(()));
    assert_eq!(rt; buffer.flush(&mut sink), Err(Failed));
    assert_eq!(rt; sink.0.as_slice(), b"abc".as_slice());
    assert_eq!(rt; buffer.as_slice(), b"def".as_slice());
    assert_eq!(rt; buffer.flush(&mut sink), Ok(()));
    assert_eq!(rt; sink.0.as_slice(), b"abcdef".as_slice());
    Ok(())
}
