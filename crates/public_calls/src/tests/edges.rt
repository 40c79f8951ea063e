// Sources and sinks over the system's files, over a reader and a writer that fail once, and behind
// an end.
use io_edges::{
    Failed, FileShelf, MemorySink, ReadSource, Shelf, ShelfFault, Sink, SinkFault, Source,
    SureSink, SureSource, WriteSink,
};
use std::fs::{self, OpenOptions};
use std::io::{self, ErrorKind, Read, Write};
use std::process::Abort;
use std::rt::Files;
use std::test::Fail;

fn put_in<W: Write + Drop>(writer: W, bytes: &[u8]) -> Result<(), SinkFault> {
    let mut sink = WriteSink::new(writer);
    sink.put(bytes)
}

// The first bytes that a reader gives, and zeros after them.
fn front_of<R: Read + Drop>(reader: R) -> Result<[u8; 6], Failed> {
    let mut room = [0; 6];
    let mut source = ReadSource::new(reader);
    source.take(&mut room)?;
    Ok(room)
}

fn is_file(fetched: &Result<Option<Vec<u8>>, ShelfFault>, bytes: &[u8]) -> bool {
    matches!(fetched, Ok(Some(file)) if file.as_slice() == bytes)
}

// Its name has this number, and ends with a space.
pub fn a_real_file_is_written_and_read<R>(rt: R, number: u32) -> Result<(), Fail>
where
    R: Abort + AllocGlobal + Copy + Files,
{
    let path = format!(in rt.alloc(); "/tmp/nettcp-{number} ")?;
    let file = OpenOptions::new()
        .write(true)
        .create_new(true)
        .open(&rt, path.as_str())?;
    let put = put_in(file, b"bytes");
    let taken = front_of(fs::open(&rt, path.as_str())?);
    let mut shelf = FileShelf::new(rt);
    let fetched = shelf.fetch(path.as_str());
    fs::remove_file(&rt, path.as_str())?;
    assert_eq!(&rt; put, Ok(()));
    assert_eq!(&rt; taken, Ok(*b"bytes\0"));
    assert!(&rt; is_file(&fetched, b"bytes"));
    assert!(&rt; matches!(shelf.fetch(path.as_str()), Ok(None)));
    Ok(())
}

pub fn a_folder_and_a_full_device_fail<R>(rt: R) -> Result<(), Fail>
where
    R: Abort + AllocGlobal + Copy + Files,
{
    assert_eq!(&rt; front_of(fs::open(&rt, ".")?), Err(Failed));
    let mut shelf = FileShelf::new(rt);
    assert!(&rt; matches!(shelf.fetch("."), Err(ShelfFault::Failed)));
    let full = OpenOptions::new().write(true).open(&rt, "/dev/full")?;
    assert_eq!(&rt; put_in(full, b"ab"), Err(SinkFault::Failed));
    Ok(())
}

pub fn a_write_that_takes_nothing_fails_the_put(rt: &impl Abort) {
    let mut place = [0; 3];
    assert_eq!(rt;
        put_in(place.as_mut_slice(), b"abcd"),
        Err(SinkFault::Failed)
    );
    assert_eq!(rt; place, *b"abc");
}

// A reader that leaves a buffer as it is and a writer of two bytes a call, whose second call is
// interrupted. After such a call std's own loops try again.
#[derive(Drop)]
struct Interrupted {
    calls: u64,
}

impl Interrupted {
    fn count(&mut self) -> io::Result<()> {
        let is_second = self.calls == 1;
        self.calls = self.calls.saturating_add(1);
        if is_second {
            return Err(ErrorKind::Interrupted.into());
        }
        Ok(())
    }
}

impl Read for Interrupted {
    fn read(&mut self, room: &mut [u8]) -> io::Result<usize> {
        self.count()?;
        Ok(room.len())
    }
}

impl Write for Interrupted {
    fn write(&mut self, piece: &[u8]) -> io::Result<usize> {
        self.count()?;
        Ok(piece.len().min(2))
    }

    fn flush(&mut self) -> io::Result<()> {
        self.count()
    }
}

pub fn a_read_that_fails_is_one_take(rt: &impl Abort) {
    let mut source = ReadSource::new(Interrupted { calls: 0 });
    let mut room = [0; 4];
    assert_eq!(rt; source.take(&mut room), Ok(4));
    assert_eq!(rt; source.take(&mut room), Err(Failed));
    assert_eq!(rt; source.take(&mut room), Ok(4));
}

pub fn a_write_that_fails_ends_the_put(rt: &impl Abort) {
    let mut writer = Interrupted { calls: 0 };
    let mut sink = WriteSink::new(&mut writer);
    assert_eq!(rt; sink.put(b"abcde"), Err(SinkFault::Failed));
    assert_eq!(rt; sink.put(b"fg"), Ok(()));
    assert_eq!(rt; writer.calls, 3);
}

pub fn a_flush_reaches_the_writer(rt: &impl Abort) {
    let mut sink = WriteSink::new(Interrupted { calls: 0 });
    assert_eq!(rt; sink.put(b"ab"), Ok(()));
    assert_eq!(rt; sink.flush(), Err(SinkFault::Failed));
    assert_eq!(rt; sink.flush(), Ok(()));
}

pub fn puts_behind_the_end_fail(rt: &(impl Abort + AllocGlobal)) {
    let mut sink = MemorySink::new(rt.alloc(), Vec::new(rt.alloc()), 9);
    assert_eq!(rt; sink.put(b"ab"), Ok(()));
    sink.end();
    assert_eq!(rt; sink.put(b"c"), Err(SinkFault::Failed));
    assert_eq!(rt; sink.put_some(b"d"), Err(SinkFault::Failed));
    assert_eq!(rt; sink.flush(), Ok(()));
    assert_eq!(rt; sink.bytes(), b"ab".as_slice());
}

pub fn sure_ends_move_all(rt: &(impl Abort + AllocGlobal)) -> Result<(), Fail> {
    let mut source = SureSource::new(b"abc".to_vec(rt.alloc())?);
    let mut sink = SureSink::new(rt.alloc());
    let mut room = [0; 2];
    assert_eq!(rt; source.take(&mut room), Ok(2));
    assert_eq!(rt; sink.put(&room), Ok(()));
    assert_eq!(rt; sink.put_some(source.rest()), Ok(1));
    assert_eq!(rt; sink.bytes(), b"abc".as_slice());
    Ok(())
}
