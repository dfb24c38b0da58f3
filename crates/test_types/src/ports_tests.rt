//! Ports in memory, over the system, and over a system that is played.
ghost use Rattle.std.specs.Prelude.{None};

use ports::{
    Desk, Failed, HostDesk, HostSink, Input, MemoryDesk, MemorySink, Sink, Source, write_all,
};
use std::alloc::Global;
use std::io::{Error, ErrorKind, Read, Write};
use std::path::PathBuf;
use std::test::Fail;
use std::{env, fs, io, process};

// A desk with `abc` under the name `a`, that gives at most two bytes a read. The fourth call fails.
fn small_desk(alloc: Global) -> Result<MemoryDesk, Fail> {
    let mut inputs = Vec::new(alloc);
    inputs.push(Input {
        name: String::from_str(alloc, "a")?,
        bytes: Vec::from_slice(alloc, b"abc")?,
    })?;
    Ok(MemoryDesk::new(inputs, 2, vec![in alloc; 4]?))
}

// Whether that desk refuses another name, and then gives its text in two pieces, with the fault between them.
fn gives_two_pieces(desk: &mut MemoryDesk) -> bool {
    let mut buf = [0; 4];
    desk.choose("b") == Err(Failed)
        && desk.choose("a") == Ok(())
        && desk.read(&mut buf) == Ok(2)
        && buf == [b'a', b'b', 0, 0]
        && desk.read(&mut buf) == Err(Failed)
        && desk.read(&mut buf) == Ok(1)
        && desk.read(&mut buf) == Ok(0)
}

#[test]
fn a_desk_in_memory_reads_in_pieces(rt: HostRuntime) -> Result<(), Fail> {
    let mut desk = small_desk(rt.alloc())?;
    assert!(rt; gives_two_pieces(&mut desk));
    Ok(())
}

// Whether a sink that takes two bytes at once, and whose third and sixth call fail, keeps these fronts.
fn keeps_fronts(sink: &mut MemorySink) -> bool {
    write_all(sink, b"abcdef") == Err(Failed)
        && sink.bytes() == b"abcd".as_slice()
        && sink.flush() == Ok(())
        && write_all(sink, b"ef") == Ok(())
        && sink.flush() == Err(Failed)
        && sink.bytes() == b"abcdef".as_slice()
        && sink.flushed() == b"abcd".as_slice()
        && sink.flush() == Ok(())
        && sink.flushed() == b"abcdef".as_slice()
}

#[test]
fn a_sink_in_memory_takes_pieces_and_flushes(rt: HostRuntime) -> Result<(), Fail> {
    let mut sink = MemorySink::new(rt.alloc(), 8, 2, vec![in rt.alloc(); 3, 6]?)?;
    assert!(rt; keeps_fronts(&mut sink));
    Ok(())
}

const EMPTY: &[u8] = b"p cnf 0 0\n";

// Writes the empty formula to a new file.
fn write_empty(rt: HostRuntime, name: &str) -> Result<(), Fail> {
    let mut sink = HostSink::new(fs::create(&rt, name)?);
    write_all(&mut sink, EMPTY)?;
    sink.flush()?;
    Ok(())
}

// Whether a desk has the empty formula under this name, and nothing behind it.
fn has_empty<D: Desk>(desk: &mut D, name: &str) -> bool {
    let mut buf = [0; 16];
    desk.choose(name) == Ok(())
        && desk.read(&mut buf) == Ok(10)
        && &buf[..10] == EMPTY
        && desk.read(&mut buf) == Ok(0)
}

// The path of a file for the time being, which is this process's alone.
fn own_file(rt: HostRuntime) -> Result<PathBuf, Fail> {
    let name = format!(in rt.alloc(); "ports-{}", process::id(rt.process()))?;
    Ok(env::temp_dir(&rt)?.join(rt.alloc(), name.as_str())?)
}

#[test]
fn what_a_file_is_given_is_read_from_it(rt: HostRuntime) -> Result<(), Fail> {
    let file = own_file(rt)?;
    write_empty(rt, file.as_str())?;
    let mut desk = HostDesk::new(rt);
    assert!(rt; has_empty(&mut desk, file.as_str()));
    fs::remove_file(&rt, file.as_str())?;
    Ok(())
}

// Whether no read gives anything before a name is chosen, behind a missing one, and from a folder.
fn gives_nothing<D: Desk>(desk: &mut D) -> bool {
    let mut buf = [0; 16];
    desk.read(&mut buf) == Err(Failed)
        && desk.choose("no such file") == Err(Failed)
        && !(desk.choose(".").is_ok() && desk.read(&mut buf).is_ok())
}

// What comes of a byte that is written to a device without room.
fn written_to_full(rt: HostRuntime) -> Result<Result<(), Failed>, Fail> {
    let mut full = HostSink::new(fs::OpenOptions::new().write(true).open(&rt, "/dev/full")?);
    Ok(write_all(&mut full, b"a"))
}

#[test]
fn a_folder_and_a_missing_file_are_faults(rt: HostRuntime) -> Result<(), Fail> {
    let mut desk = HostDesk::new(rt);
    assert!(rt; gives_nothing(&mut desk));
    assert_eq!(rt; written_to_full(rt)?, Err(Failed));
    Ok(())
}

// Calls of a system, of which the one with this number fails.
#[derive(Drop)]
struct Played {
    made: u64,
    failing: u64,
}

impl Played {
    fn call(&mut self) -> io::Result<()> {
        self.made = self.made.saturating_add(1);
        if self.made == self.failing {
            return Err(Error::from(ErrorKind::Interrupted));
        }
        Ok(())
    }
}

// A writer that takes at most so many bytes at once.
#[derive(Drop)]
struct Writer {
    bytes: Vec<u8>,
    greatest: usize,
    flushes: u64,
    calls: Played,
}

impl Write for Writer {
    fn write(&mut self, buf: &[u8]) -> io::Result<usize> {
        self.calls.call()?;
        let n = buf.len().min(self.greatest);
        self.bytes.extend_from_slice(&buf[..n])?;
        Ok(n)
    }

    fn flush(&mut self) -> io::Result<()> {
        self.calls.call()?;
        self.flushes = self.flushes.saturating_add(1);
        Ok(())
    }
}

// A reader of a text that gives at most so many bytes at once.
#[derive(Drop)]
struct Reader {
    text: &'static [u8],
    greatest: usize,
    calls: Played,
}

impl Read for Reader {
    fn read(&mut self, buf: &mut [u8]) -> io::Result<usize> {
        self.calls.call()?;
        let n = self.text.len().min(buf.len()).min(self.greatest);
        buf[..n].copy_from_slice(&self.text[..n]);
        self.text = &self.text[n..];
        Ok(n)
    }
}

// A system whose standard input and one file, `f`, hold `abc`.
#[derive(Drop)]
struct System {
    greatest: usize,
    failing: u64,
}

impl Source for System {
    type Reader = Reader;

    ghost holds = { λ _ _. None };

    fn standard(&self) -> Reader {
        Reader {
            text: b"abc",
            greatest: self.greatest,
            calls: Played {
                made: 0,
                failing: self.failing,
            },
        }
    }

    fn open(&self, path: &str) -> io::Result<Reader> {
        if path != "f" {
            return Err(Error::from(ErrorKind::NotFound));
        }
        Ok(self.standard())
    }
}

// Whether a writer takes a line, and whether it is flushed then.
fn write_line(writer: &mut Writer) -> (bool, bool) {
    let mut sink = HostSink::new(writer);
    let is_written = write_all(&mut sink, b"SAT\n").is_ok();
    (is_written, is_written && sink.flush().is_ok())
}

// Whether a writer that takes a line by so many calls, of so many bytes at most, has the front of it that comes before
// the call with this number, which fails.
fn takes_front(alloc: Global, greatest: usize, writes: u64, failing: u64) -> bool {
    let mut writer = Writer {
        bytes: Vec::new(alloc),
        greatest,
        flushes: 0,
        calls: Played { made: 0, failing },
    };
    let (is_written, is_flushed) = write_line(&mut writer);
    let front = if is_written {
        4
    } else {
        (failing as usize)
            .saturating_sub(1)
            .saturating_mul(greatest)
    };
    is_written == (writes < failing)
        && is_flushed == (writes < failing.saturating_sub(1))
        && writer.bytes.as_slice() == &b"SAT\n"[..front.min(4)]
        && (writer.flushes == 1) == is_flushed
}

#[test]
fn each_error_of_a_writer_is_a_fault(rt: HostRuntime) {
    for (greatest, writes) in [(1, 4), (2, 2), (3, 2), (4, 1), (9, 1)] {
        for failing in 1..7 {
            assert!(rt; takes_front(rt.alloc(), greatest, writes, failing));
        }
    }
}

// Whether a sink takes nothing but an empty piece.
fn takes_nothing<S: Sink>(sink: &mut S) -> bool {
    sink.write(b"") == Ok(0)
        && sink.write(b"a") == Err(Failed)
        && write_all(sink, b"a") == Err(Failed)
}

#[test]
fn a_writer_that_takes_nothing_is_a_fault(rt: HostRuntime) {
    let mut sink = HostSink::new(Writer {
        bytes: Vec::new(rt.alloc()),
        greatest: 0,
        flushes: 0,
        calls: Played {
            made: 0,
            failing: 9,
        },
    });
    assert!(rt; takes_nothing(&mut sink));
}

// What the read with this number is to give of `abc`, by two bytes a read, where the one with that number fails.
fn given(call: u64, failing: u64) -> Result<usize, Failed> {
    if call == failing {
        return Err(Failed);
    }
    // One failing call in front of this one gave nothing.
    match call.saturating_sub(u64::from(failing < call)) {
        1 => Ok(2),
        2 => Ok(1),
        _ => Ok(0),
    }
}

// Whether a desk gives `abc` so, under this name and no other.
fn gives_but_once<D: Desk>(desk: &mut D, name: &str, failing: u64) -> bool {
    if desk.choose("g") != Err(Failed) || desk.choose(name) != Ok(()) {
        return false;
    }
    let mut buf = [0; 3];
    for call in 1..5 {
        if desk.read(&mut buf) != given(call, failing) {
            return false;
        }
    }
    true
}

#[test]
fn each_error_of_a_reader_is_a_fault(rt: HostRuntime) {
    for name in ["-", "f"] {
        for failing in 1..6 {
            let mut desk = HostDesk::new(System {
                greatest: 2,
                failing,
            });
            assert!(rt; gives_but_once(&mut desk, name, failing));
        }
    }
}

// Whether each of these names is read from its start, and the last one then to its end.
fn begins_anew<D: Desk>(desk: &mut D, names: &[&str]) -> bool {
    let mut buf = [0; 2];
    for name in names {
        if desk.choose(name) != Ok(()) || desk.read(&mut buf) != Ok(2) || buf != *b"ab" {
            return false;
        }
    }
    desk.read(&mut buf) == Ok(1) && buf[0] == b'c'
}

#[test]
fn a_name_is_read_from_its_start_each_time(rt: HostRuntime) {
    let mut desk = HostDesk::new(System {
        greatest: 9,
        failing: 9,
    });
    assert!(rt; begins_anew(&mut desk, &["f", "-", "f"]));
}
