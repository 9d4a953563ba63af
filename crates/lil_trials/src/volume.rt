use lil_base::{Bytes, FileName, Memory, Text};
use lil_volume::{
    ErrorSink, FolderVolume, InputKeys, KeyFailed, Keyboard, OutputSink, Sink, SinkFailed, Volume,
    VolumeError,
};
use std::alloc::{Allocator, Global};
use std::fs::{File, Metadata, OpenOptions};
use std::io::{ErrorKind, Read, Write};
use std::os::unix::fs::symlink;
use std::process::Abort;
use std::rt::Files;
use std::test::Fail;
use std::{fs, io};

fn named(alloc: Global, text: &[u8]) -> Result<Option<FileName>, Memory> {
    let text = Text::from_slice(alloc, text)?;
    FileName::new(alloc, &text)
}

fn file_name(alloc: Global, text: &[u8]) -> Result<FileName, Fail> {
    Ok(named(alloc, text)?.ok_or("no file name")?)
}

/// Whether a file has these bytes; None stands for no file.
fn has<V: Volume>(
    alloc: Global,
    volume: &mut V,
    name: &[u8],
    want: Option<&'static [u8]>,
) -> Result<bool, Fail> {
    let name = file_name(alloc, name)?;
    let found = volume.read(alloc, &name)?;
    Ok(match (&found, want) {
        (Some(bytes), Some(want)) => bytes.as_slice() == want,
        (None, None) => true,
        _ => false,
    })
}

fn write_file<V: Volume>(
    alloc: Global,
    volume: &mut V,
    name: &[u8],
    content: &[u8],
) -> Result<bool, Fail> {
    let name = file_name(alloc, name)?;
    let content = Bytes::from_slice(alloc, content)?;
    match volume.write(alloc, &name, &content) {
        Ok(()) => Ok(true),
        Err(VolumeError::Failed) => Ok(false),
        Err(VolumeError::Memory) => Err(Fail::from(VolumeError::Memory)),
    }
}

/// Something that is asked of a volume, and what is wanted.
#[derive(Clone, Copy)]
enum Call {
    /// The bytes of a file; None stands for no file.
    Read(&'static [u8], Option<&'static [u8]>),
    /// Whether a file gets these bytes.
    Write(&'static [u8], &'static [u8], bool),
}

fn is_met<V: Volume>(alloc: Global, volume: &mut V, call: Call) -> Result<bool, Fail> {
    match call {
        Call::Read(name, want) => has(alloc, volume, name, want),
        Call::Write(name, content, want) => Ok(write_file(alloc, volume, name, content)? == want),
    }
}

fn call_all<V: Volume>(
    rt: &impl Abort,
    alloc: Global,
    volume: &mut V,
    calls: &[Call],
) -> Result<(), Fail> {
    for call in calls {
        assert!(rt; is_met(alloc, volume, *call)?);
    }
    Ok(())
}

fn expect_keys<K: Keyboard>(rt: &impl Abort, keys: &mut K, want: &[Result<Option<u8>, KeyFailed>]) {
    for answer in want {
        assert!(rt; keys.key() == *answer);
    }
}

fn put_all<S: Sink>(
    rt: &impl Abort,
    sink: &mut S,
    pieces: &[(&'static [u8], Result<(), SinkFailed>)],
) {
    for (piece, answer) in pieces {
        assert!(rt; sink.put(piece) == *answer);
    }
}

/// A reader that is interrupted, gives an a, fails, gives a b, and is at its end.
#[derive(Drop)]
struct Faulty {
    calls: u64,
}

impl Read for Faulty {
    fn read(&mut self, buf: &mut [u8]) -> io::Result<usize> {
        self.calls = self.calls.saturating_add(1);
        let byte = match self.calls {
            1 => return Err(io::Error::from(ErrorKind::Interrupted)),
            2 => b'a',
            3 => return Err(io::Error::from(ErrorKind::TimedOut)),
            4 => b'b',
            _ => return Ok(0),
        };
        match buf {
            [first, ..] => {
                *first = byte;
                Ok(1)
            }
            [] => Ok(0),
        }
    }
}

#[test]
fn keys_of_a_reader(rt: HostRuntime) {
    let mut keys = InputKeys::new(Faulty { calls: 0 });
    expect_keys(
        &rt,
        &mut keys,
        &[Ok(Some(b'a')), Err(KeyFailed), Ok(Some(b'b')), Ok(None)],
    );
    let mut keys = InputKeys::new(b"ab".as_slice());
    expect_keys(
        &rt,
        &mut keys,
        &[Ok(Some(b'a')), Ok(Some(b'b')), Ok(None), Ok(None)],
    );
}

/// Three pieces, of which a writer with room for three bytes takes the first two.
const PIECES: [(&[u8], Result<(), SinkFailed>); 3] = [
    (b"ab", Ok(())),
    (b"", Ok(())),
    (b"cd", Err(SinkFailed)),
];

#[test]
fn a_screen_over_a_writer(rt: HostRuntime) {
    let mut held = Vec::new(rt.alloc());
    let mut whole = OutputSink::new(&mut held);
    put_all(&rt, &mut whole, &[(b"ab", Ok(())), (b"c", Ok(()))]);
    assert!(rt; held.as_slice() == b"abc".as_slice());
    let mut room = [b'-'; 3];
    let mut short = OutputSink::new(room.as_mut_slice());
    put_all(&rt, &mut short, &PIECES);
    assert!(rt; room.as_slice() == b"abc".as_slice());
}

#[test]
fn a_report_over_a_writer(rt: HostRuntime) {
    let mut held = Vec::new(rt.alloc());
    let mut whole = ErrorSink::new(&mut held);
    put_all(&rt, &mut whole, &[(b"ab", Ok(())), (b"c", Ok(()))]);
    assert!(rt; held.as_slice() == b"abc".as_slice());
    let mut room = [b'-'; 3];
    let mut short = ErrorSink::new(room.as_mut_slice());
    put_all(&rt, &mut short, &PIECES);
    assert!(rt; room.as_slice() == b"abc".as_slice());
}

/// A writer that takes all, and counts how often it is flushed.
#[derive(Drop)]
struct Flushed<'a> {
    flushes: &'a mut u64,
}

impl Write for Flushed<'_> {
    fn write(&mut self, buf: &[u8]) -> io::Result<usize> {
        Ok(buf.len())
    }

    fn flush(&mut self) -> io::Result<()> {
        *self.flushes = self.flushes.saturating_add(1);
        Ok(())
    }
}

#[test]
fn each_piece_is_flushed(rt: HostRuntime) {
    let pieces = [(b"a".as_slice(), Ok(())), (b"b", Ok(()))];
    let (mut shown, mut reported) = (0, 0);
    let mut screen = OutputSink::new(Flushed {
        flushes: &mut shown,
    });
    put_all(&rt, &mut screen, &pieces);
    assert!(rt; shown == 2);
    let mut report = ErrorSink::new(Flushed {
        flushes: &mut reported,
    });
    put_all(&rt, &mut report, &pieces);
    assert!(rt; reported == 2);
}

/// The first names under which files are written before they get their own, and the last one.
const BESIDE: [&str; 3] = ["lilith-new-1", "lilith-new-2", "lilith-new-16"];

/// Whether nothing is left under these names.
fn is_clear<R: Files>(files: &R) -> io::Result<bool> {
    for name in BESIDE {
        if fs::exists(files, name)? {
            return Ok(false);
        }
    }
    Ok(true)
}

#[test]
fn a_folder(rt: HostRuntime) -> Result<(), Fail> {
    let alloc = rt.alloc();
    let mut volume = FolderVolume::new(rt.clone()?);
    let calls = &[
        Call::Read(b"NONE.TXT", None),
        Call::Write(b"FOUND.TXT", b"first", true),
        Call::Write(b"FOUND.TXT", b"again", true),
        Call::Read(b"FOUND.TXT", Some(b"again")),
    ];
    call_all(&rt, alloc, &mut volume, calls)?;
    fs::remove_file(&rt, "FOUND.TXT")?;
    assert!(rt; has(alloc, &mut volume, b"FOUND.TXT", None)?);
    assert!(rt; is_clear(&rt)?);
    Ok(())
}

/// Whether both calls are faults.
fn fails<V: Volume>(alloc: Global, volume: &mut V, name: &[u8]) -> Result<bool, Fail> {
    let read = volume.read(alloc, &file_name(alloc, name)?);
    let written = write_file(alloc, volume, name, b"new")?;
    Ok(!written && matches!(read, Err(VolumeError::Failed)))
}

#[test]
fn names_that_are_no_files(rt: HostRuntime) -> Result<(), Fail> {
    let alloc = rt.alloc();
    let mut volume = FolderVolume::new(rt.clone()?);
    fs::create_dir(&rt, "X.MOD")?;
    symlink(&rt, "/dev/null", "NULL.MOD")?;
    symlink(&rt, "X.MOD", "LINK.MOD")?;
    for name in [b"X.MOD".as_slice(), b"NULL.MOD", b"LINK.MOD"] {
        assert!(rt; fails(alloc, &mut volume, name)?);
    }
    fs::remove_file(&rt, "LINK.MOD")?;
    fs::remove_file(&rt, "NULL.MOD")?;
    fs::remove_dir(&rt, "X.MOD")?;
    assert!(rt; is_clear(&rt)?);
    Ok(())
}

/// What a link leads to is read, and a write takes neither the link nor what it leads to.
#[test]
fn links_to_files(rt: HostRuntime) -> Result<(), Fail> {
    let alloc = rt.alloc();
    let mut volume = FolderVolume::new(rt.clone()?);
    fs::write(&rt, "OLD.MOD", "old")?;
    symlink(&rt, "OLD.MOD", "LINK.MOD")?;
    let calls = &[
        Call::Read(b"LINK.MOD", Some(b"old")),
        Call::Write(b"LINK.MOD", b"new", false),
        Call::Read(b"OLD.MOD", Some(b"old")),
    ];
    call_all(&rt, alloc, &mut volume, calls)?;
    assert!(rt; fs::symlink_metadata(&rt, "LINK.MOD")?.is_symlink());
    fs::remove_file(&rt, "LINK.MOD")?;
    fs::remove_file(&rt, "OLD.MOD")?;
    Ok(())
}

/// A link beside the file stays, and what it leads to. Another name serves in its place.
#[test]
fn links_beside_files(rt: HostRuntime) -> Result<(), Fail> {
    let alloc = rt.alloc();
    let mut volume = FolderVolume::new(rt.clone()?);
    fs::write(&rt, "OLD.MOD", "old")?;
    symlink(&rt, "OLD.MOD", BESIDE[0])?;
    let calls = &[
        Call::Write(b"NEW.MOD", b"new", true),
        Call::Read(b"NEW.MOD", Some(b"new")),
        Call::Read(b"OLD.MOD", Some(b"old")),
    ];
    call_all(&rt, alloc, &mut volume, calls)?;
    assert!(rt; fs::symlink_metadata(&rt, BESIDE[0])?.is_symlink());
    fs::remove_file(&rt, BESIDE[0])?;
    fs::remove_file(&rt, "OLD.MOD")?;
    fs::remove_file(&rt, "NEW.MOD")?;
    assert!(rt; is_clear(&rt)?);
    Ok(())
}

/// What a call that died has left beside goes with the next write, under whichever of the names it stands, and what one
/// that lives holds locked stays.
#[test]
fn what_stands_beside(rt: HostRuntime) -> Result<(), Fail> {
    let alloc = rt.alloc();
    let mut volume = FolderVolume::new(rt.clone()?);
    for name in BESIDE {
        fs::write(&rt, name, "left")?;
    }
    assert!(rt; write_file(alloc, &mut volume, b"OLD.MOD", b"old")?);
    assert!(rt; is_clear(&rt)?);
    fs::write(&rt, BESIDE[0], "held")?;
    let held = File::open(&rt, BESIDE[0])?;
    held.lock()?;
    assert!(rt; write_file(alloc, &mut volume, b"OLD.MOD", b"new")?);
    assert!(rt; has(alloc, &mut volume, b"OLD.MOD", Some(b"new"))?);
    assert!(rt; fs::read_to_string(&rt, BESIDE[0])?.as_str() == "held");
    fs::remove_file(&rt, BESIDE[0])?;
    fs::remove_file(&rt, "OLD.MOD")?;
    Ok(())
}

/// What happens where a file is to be renamed.
trait Moment {
    fn rename<R: Files<File = File>>(&self, files: &R, from: &str, to: &str) -> io::Result<()>;
}

/// It isn't renamed.
#[derive(Drop)]
struct Never;

impl Moment for Never {
    fn rename<R: Files<File = File>>(&self, _: &R, _: &str, _: &str) -> io::Result<()> {
        Err(io::Error::from(ErrorKind::PermissionDenied))
    }
}

/// The file of another call is renamed before it, from the one name to the other.
#[derive(Drop)]
struct Behind<'a> {
    from: &'a str,
    to: &'a str,
}

impl Moment for Behind<'_> {
    fn rename<R: Files<File = File>>(&self, files: &R, from: &str, to: &str) -> io::Result<()> {
        files.rename(self.from, self.to)?;
        files.rename(from, to)
    }
}

/// Another call writes OTHER.TXT, and renames this file too, when its own is whole.
#[derive(Drop)]
struct Amid {
    alloc: Global,
}

impl Moment for Amid {
    fn rename<R: Files<File = File>>(&self, files: &R, from: &str, to: &str) -> io::Result<()> {
        let mut other = FolderVolume::new(Meeting {
            files,
            moment: Behind { from, to },
        });
        let (Ok(Some(name)), Ok(content)) = (
            named(self.alloc, b"OTHER.TXT"),
            Bytes::from_slice(self.alloc, b"other"),
        ) else {
            return Err(io::Error::from(ErrorKind::OutOfMemory));
        };
        // what became of both files is looked at afterwards
        let _ = other.write(self.alloc, &name, &content);
        Ok(())
    }
}

/// The files of the host, where a rename is such a moment.
#[derive(Drop)]
struct Meeting<R: Files<File = File> + Drop, M: Moment + Drop> {
    files: R,
    moment: M,
}

impl<R: Files<File = File> + Drop, M: Moment + Drop> Files for Meeting<R, M> {
    type File = File;

    type Dir = R::Dir;

    fn open_file(&self, how: &OpenOptions, path: &str) -> io::Result<File> {
        self.files.open_file(how, path)
    }

    fn open_dir(&self, path: &str) -> io::Result<R::Dir> {
        self.files.open_dir(path)
    }

    fn metadata(&self, path: &str) -> io::Result<Metadata> {
        self.files.metadata(path)
    }

    fn symlink_metadata(&self, path: &str) -> io::Result<Metadata> {
        self.files.symlink_metadata(path)
    }

    fn copy(&self, from: &str, to: &str) -> io::Result<u64> {
        self.files.copy(from, to)
    }

    fn rename(&self, from: &str, to: &str) -> io::Result<()> {
        self.moment.rename(&self.files, from, to)
    }

    fn remove_file(&self, path: &str) -> io::Result<()> {
        self.files.remove_file(path)
    }

    fn create_dir(&self, path: &str) -> io::Result<()> {
        self.files.create_dir(path)
    }

    fn remove_dir(&self, path: &str) -> io::Result<()> {
        self.files.remove_dir(path)
    }

    fn remove_dir_all<B: Allocator>(&self, alloc: B, path: &str) -> io::Result<()> {
        self.files.remove_dir_all(alloc, path)
    }
}

/// A write that fails when all bytes are there leaves the older file and nothing else.
#[test]
fn a_file_that_gets_no_name(rt: HostRuntime) -> Result<(), Fail> {
    let alloc = rt.alloc();
    let mut volume = FolderVolume::new(Meeting {
        files: rt.clone()?,
        moment: Never,
    });
    fs::write(&rt, "KEPT.TXT", "old")?;
    assert!(rt; !write_file(alloc, &mut volume, b"KEPT.TXT", b"new")?);
    assert!(rt; has(alloc, &mut volume, b"KEPT.TXT", Some(b"old"))?);
    assert!(rt; is_clear(&rt)?);
    fs::remove_file(&rt, "KEPT.TXT")?;
    Ok(())
}

/// Two calls that write at once have a file each.
#[test]
fn two_calls_at_once(rt: HostRuntime) -> Result<(), Fail> {
    let alloc = rt.alloc();
    let mut volume = FolderVolume::new(Meeting {
        files: rt.clone()?,
        moment: Amid { alloc },
    });
    assert!(rt; write_file(alloc, &mut volume, b"MINE.TXT", b"mine")?);
    assert!(rt; has(alloc, &mut volume, b"MINE.TXT", Some(b"mine"))?);
    assert!(rt; has(alloc, &mut volume, b"OTHER.TXT", Some(b"other"))?);
    assert!(rt; is_clear(&rt)?);
    fs::remove_file(&rt, "MINE.TXT")?;
    fs::remove_file(&rt, "OTHER.TXT")?;
    Ok(())
}
