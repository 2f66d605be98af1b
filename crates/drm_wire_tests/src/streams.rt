//! Sources and sinks over std's readers and writers.

use drm_frames::{
    FromRead, Put, Refill, Sink, Source, Taken, ToWrite, Written, put_all, take_some,
};
use std::alloc::Global;
use std::io::{self, ErrorKind, Read, Write};
use std::process::Abort;

/// A text, what three takes of three bytes at most come to, and what is in the buffer then.
const READINGS: [(&[u8], [Taken; 3], [u8; 3]); 2] = [
    (
        b"frame",
        [Taken::Got(3), Taken::Got(2), Taken::End],
        [b'm', b'e', b'a'],
    ),
    // it stays at its end
    (
        b"fr",
        [Taken::Got(2), Taken::End, Taken::End],
        [b'f', b'r', 0],
    ),
];

fn is_reading(text: &[u8], takes: [Taken; 3], left: [u8; 3]) -> bool {
    let mut source = FromRead::new(text);
    let mut buffer = [0; 3];
    let came = [
        source.take(&mut buffer),
        source.take(&mut buffer),
        source.take(&mut buffer),
    ];
    came == takes && buffer == left && source.calls() == 3
}

#[test]
fn sources_read_to_the_end(rt: HostRuntime) {
    for (text, takes, left) in READINGS {
        assert!(rt; is_reading(text, takes, left), "{text:?}");
    }
}

#[test]
fn source_hands_its_reader_back(rt: HostRuntime) {
    let mut source = FromRead::new(b"frame".as_slice());
    let mut buffer = [0; 3];
    let taken = source.take(&mut buffer);
    let rest = source.into_inner();
    assert!(rt; taken == Taken::Got(3) && buffer == *b"fra" && rest == b"me".as_slice());
}

#[test]
fn sink_writes_behind_what_is_there(rt: HostRuntime) {
    let mut sink = ToWrite::new(Vec::new(rt.alloc()));
    let came = [sink.put(b"fra"), sink.put(b""), sink.put(b"me")];
    let are_put = came == [Put::Took(3), Put::Took(0), Put::Took(2)] && sink.calls() == 3;
    let written = sink.into_inner();
    assert!(rt; are_put && written.as_slice() == b"frame".as_slice());
}

/// A text that is read by at most four bytes, the number of turns, and the result of each take with the turns that are
/// left.
type Refills = (&'static [u8], u64, &'static [(Refill, u64)]);

const REFILLS: [Refills; 2] = [
    (
        b"frame",
        2,
        &[
            (Refill::Got(4), 1),
            (Refill::Got(1), 0),
            (Refill::TurnsUsed, 0),
        ],
    ),
    // an end costs a turn
    (b"", 3, &[(Refill::End, 2)]),
];

fn check_refills(rt: &impl Abort, refills: &Refills) {
    let (text, turns, takes) = refills;
    let mut turns = (*turns).min(1_000);
    let mut source = FromRead::new(*text);
    let mut buffer = [0; 4];
    for take in *takes {
        let filled = take_some(&mut source, &mut buffer, &mut turns);
        assert!(rt; (filled, turns) == *take);
    }
}

#[test]
fn refills_cost_their_turns(rt: HostRuntime) {
    for refills in &REFILLS {
        check_refills(&rt, refills);
    }
}

/// Texts that are written with a number of turns, the result of each with the turns that are left, and the bytes that
/// are written then.
type Puts = (u64, &'static [(&'static [u8], Written, u64)], &'static [u8]);

const PUTS: [Puts; 3] = [
    (
        1,
        &[(b"fram", Written::Whole, 0), (b"?", Written::TurnsUsed, 0)],
        b"fram",
    ),
    // an empty text costs no turn
    (
        1,
        &[(b"", Written::Whole, 1), (b"!", Written::Whole, 0)],
        b"!",
    ),
    // a long text is put at once
    (1, &[(&[7; 1028], Written::Whole, 0)], &[7; 1028]),
];

fn check_puts(rt: &impl Abort, alloc: Global, puts: &Puts) {
    let (turns, texts, written) = puts;
    let mut turns = (*turns).min(1_000);
    let mut sink = ToWrite::new(Vec::new(alloc));
    for (text, put, left) in *texts {
        let came = put_all(&mut sink, text, &mut turns);
        assert!(rt; (came, turns) == (*put, *left));
    }
    assert!(rt; sink.into_inner().as_slice() == *written);
}

#[test]
fn texts_cost_their_turns(rt: HostRuntime) {
    for puts in &PUTS {
        check_puts(&rt, rt.alloc(), puts);
    }
}

#[test]
fn texts_are_put_as_far_as_there_is_room(rt: HostRuntime) {
    let mut room = [0; 2];
    let mut sink = ToWrite::new(room.as_mut_slice());
    let mut turns = 9;
    let put = put_all(&mut sink, b"frame", &mut turns);
    assert!(rt; put == Written::Fault && turns == 7);
}

/// A reader and writer whose every call fails.
#[derive(Drop)]
struct Failing(ErrorKind);

impl Read for Failing {
    fn read(&mut self, _buffer: &mut [u8]) -> io::Result<usize> {
        Err(io::Error::from(self.0))
    }
}

impl Write for Failing {
    fn write(&mut self, _text: &[u8]) -> io::Result<usize> {
        Err(io::Error::from(self.0))
    }

    fn flush(&mut self) -> io::Result<()> {
        Ok(())
    }
}

/// All kinds of errors but interruptions.
const FAILURES: [ErrorKind; 41] = [
    ErrorKind::NotFound,
    ErrorKind::PermissionDenied,
    ErrorKind::ConnectionRefused,
    ErrorKind::ConnectionReset,
    ErrorKind::HostUnreachable,
    ErrorKind::NetworkUnreachable,
    ErrorKind::ConnectionAborted,
    ErrorKind::NotConnected,
    ErrorKind::AddrInUse,
    ErrorKind::AddrNotAvailable,
    ErrorKind::NetworkDown,
    ErrorKind::BrokenPipe,
    ErrorKind::AlreadyExists,
    ErrorKind::WouldBlock,
    ErrorKind::NotADirectory,
    ErrorKind::IsADirectory,
    ErrorKind::DirectoryNotEmpty,
    ErrorKind::ReadOnlyFilesystem,
    ErrorKind::FilesystemLoop,
    ErrorKind::StaleNetworkFileHandle,
    ErrorKind::InvalidInput,
    ErrorKind::InvalidData,
    ErrorKind::TimedOut,
    ErrorKind::WriteZero,
    ErrorKind::StorageFull,
    ErrorKind::NotSeekable,
    ErrorKind::QuotaExceeded,
    ErrorKind::FileTooLarge,
    ErrorKind::ResourceBusy,
    ErrorKind::ExecutableFileBusy,
    ErrorKind::Deadlock,
    ErrorKind::CrossesDevices,
    ErrorKind::TooManyLinks,
    ErrorKind::InvalidFilename,
    ErrorKind::ArgumentListTooLong,
    ErrorKind::Unsupported,
    ErrorKind::UnexpectedEof,
    ErrorKind::OutOfMemory,
    ErrorKind::InProgress,
    ErrorKind::Other,
    ErrorKind::Uncategorized,
];

/// Returns whether a source whose errors are all of this kind is called `calls` times.
fn is_read_so_often(kind: ErrorKind, calls: u64) -> bool {
    let mut turns = 2000;
    let mut source = FromRead::new(Failing(kind));
    let came = take_some(&mut source, &mut [0; 4], &mut turns);
    came == Refill::Fault && source.calls() == calls
}

/// The same of a sink.
fn is_written_so_often(kind: ErrorKind, calls: u64) -> bool {
    let mut turns = 2000;
    let mut sink = ToWrite::new(Failing(kind));
    let came = put_all(&mut sink, b"frame", &mut turns);
    came == Written::Fault && sink.calls() == calls
}

fn is_tried_so_often(kind: ErrorKind, calls: u64) -> bool {
    is_read_so_often(kind, calls) && is_written_so_often(kind, calls)
}

#[test]
fn only_interruptions_are_tried_again(rt: HostRuntime) {
    assert!(rt; is_tried_so_often(ErrorKind::Interrupted, 1000));
    for kind in &FAILURES {
        assert!(rt; is_tried_so_often(*kind, 1), "{kind:?}");
    }
}
