//! The results of takes and puts over interruptions at each cut.
ghost use Rattle.std.specs.Prelude.{◌+◌, ◌<◌, ◌^◌};

use crate::comparing::same;
use arrayvec::ArrayVec;
use drm_frames::{Refill, Sink, Written, put_all, take_some};
use drm_test_support::{Cut, CutSource, sink_of, source_of};
use std::process::Abort;

const TEXT: &[u8] = b"one frame and one more";

/// The result of takes or puts of pieces of a given size: the end, and the number of bytes that are taken or written. The source or
/// the sink has a cut, and there is a number of turns.
#[derive(Clone, Copy)]
struct Piece<E> {
    size: usize,
    cut: Cut,
    turns: u64,
    end: E,
    bytes: usize,
}

/// Takes all bytes of the source, and returns the end and the number of bytes that are those of the text.
fn drained(mut source: CutSource<'_>, mut turns: u64) -> (Refill, usize)
    requires { source.counts.calls + turns < 2 ^ 48 }
{
    let mut bytes = ArrayVec::<u8, 64>::new();
    let mut buffer = [0; 64];
    'pieces: for _ in 0..=TEXT.len() {
        match take_some(&mut source, &mut buffer, &mut turns) {
            Refill::Got(got) => {
                if bytes.try_extend_from_slice(&buffer[..got]).is_err() {
                    return (Refill::Got(got), 0);
                }
            }
            last => return (last, front_of(&bytes)),
        }
    }
    (Refill::Got(0), 0)
}

/// How many bytes these are, if they are the first ones of the text.
fn front_of(bytes: &[u8]) -> usize {
    if TEXT.starts_with(bytes) {
        bytes.len()
    } else {
        usize::MAX
    }
}

fn check_taking(rt: &impl Abort, piece: Piece<Refill>) {
    let source = source_of(TEXT, piece.size, piece.cut);
    let taken = drained(source, piece.turns.min(100_000));
    same(rt, &taken, &(piece.end, piece.bytes), piece.size);
}

/// Writes the text, and returns the number of calls of the sink.
fn check_putting(rt: &impl Abort, piece: Piece<Written>) -> u64 {
    let mut sink = sink_of(piece.size, piece.cut);
    let mut turns = piece.turns.min(100_000);
    let put = put_all(&mut sink, TEXT, &mut turns);
    let put = (put, front_of(sink.written()));
    same(rt, &put, &(piece.end, piece.bytes), piece.size);
    sink.calls()
}

/// All is taken, and all is put.
const TAKEN: Piece<Refill> = Piece {
    size: 3,
    cut: Cut::Never,
    turns: 100,
    end: Refill::End,
    bytes: 22,
};

const PUT: Piece<Written> = Piece {
    size: 3,
    cut: Cut::Never,
    turns: 100,
    end: Written::Whole,
    bytes: 22,
};

#[test]
fn pieces_join_to_the_whole(rt: HostRuntime) {
    for (size, calls) in [(1, 22), (2, 11), (3, 8), (7, 4), (64, 1)] {
        check_taking(&rt, Piece { size, ..TAKEN });
        let made = check_putting(&rt, Piece { size, ..PUT });
        same(&rt, &made, &calls, size);
    }
}

/// A text that is cut at each byte ends with the bytes before it. Interruptions are passed over until the last, and counted anew
/// after each piece.
#[test]
fn each_cut_ends_with_the_bytes_before_it(rt: HostRuntime) {
    for bytes in 0..22usize {
        let takings = [
            (Cut::End(bytes), Refill::End, bytes),
            (Cut::Fault(bytes), Refill::Fault, bytes),
            (Cut::Interrupted(999, bytes), Refill::End, 22),
            (Cut::Interrupted(1_000, bytes), Refill::Fault, bytes),
        ];
        for (cut, end, bytes) in takings {
            let turns = 10_000;
            check_taking(
                &rt,
                Piece {
                    cut,
                    turns,
                    end,
                    bytes,
                    ..TAKEN
                },
            );
        }
        let puttings = [
            (Cut::End(bytes), Written::Fault, bytes),
            (Cut::Fault(bytes), Written::Fault, bytes),
            (Cut::Interrupted(999, bytes), Written::Whole, 22),
            (Cut::Interrupted(1_000, bytes), Written::Fault, bytes),
        ];
        for (cut, end, bytes) in puttings {
            let turns = 10_000;
            check_putting(
                &rt,
                Piece {
                    cut,
                    turns,
                    end,
                    bytes,
                    ..PUT
                },
            );
        }
    }
}

/// Pieces of seven bytes: the cut, the number of turns, and the result.
const TAKINGS: [(Cut, u64, Refill, usize); 4] = [
    (Cut::Never, 4, Refill::TurnsUsed, 22),
    (Cut::Never, 5, Refill::End, 22),
    (Cut::Interruptions(999), 23_000, Refill::End, 22),
    (Cut::Interruptions(999), 22_999, Refill::TurnsUsed, 22),
];

/// The same of puts, with the calls that are made.
const PUTTINGS: [(Cut, u64, Written, usize, u64); 3] = [
    (Cut::Never, 3, Written::TurnsUsed, 21, 3),
    (Cut::Never, 4, Written::Whole, 22, 4),
    (Cut::Interruptions(999), 100_000, Written::Whole, 22, 22_000),
];

/// A turn is used only if it is needed.
#[test]
fn turns_of_pieces(rt: HostRuntime) {
    let size = 7;
    for (cut, turns, end, bytes) in TAKINGS {
        check_taking(
            &rt,
            Piece {
                size,
                cut,
                turns,
                end,
                bytes,
            },
        );
    }
    for (cut, turns, end, bytes, calls) in PUTTINGS {
        let made = check_putting(
            &rt,
            Piece {
                size,
                cut,
                turns,
                end,
                bytes,
            },
        );
        same(&rt, &made, &calls, turns);
    }
}
