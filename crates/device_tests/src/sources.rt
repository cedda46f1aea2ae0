use std::alloc::Global;
use std::io;
use std::io::Read;
use sync_io::{
    FrameReader, LineReader, MemorySource, ReadRefusal, Source, SourceFailed, StdSource,
};

/// A reader of the host that gives at most so many bytes at a time, and fails at its read of one number, counted from 1.
#[derive(Drop)]
struct Pieces<'a> {
    left: &'a [u8],
    most: usize,
    reads: u64,
    failing: u64,
}

impl Read for Pieces<'_> {
    fn read(&mut self, into: &mut [u8]) -> io::Result<usize> {
        self.reads = self.reads.saturating_add(1);
        if self.reads == self.failing {
            return Err(io::ErrorKind::BrokenPipe.into());
        }
        let count = into.len().min(self.left.len()).min(self.most);
        into[..count].copy_from_slice(&self.left[..count]);
        self.left = &self.left[count..];
        Ok(count)
    }
}

fn source_of(left: &[u8], most: usize, failing: u64) -> StdSource<Pieces<'_>> {
    StdSource::new(Pieces {
        left,
        most,
        reads: 0,
        failing,
    })
}

/// What a reader gave, each line or frame with a slash behind it, and the refusal that ended it.
#[derive(Drop)]
struct Told {
    items: Vec<u8>,
    refusal: Option<ReadRefusal>,
}

type Next = Result<Option<Vec<u8>>, ReadRefusal>;

/// Tells what was read, and whether more may follow.
fn put(told: &mut Told, next: Next) -> bool {
    match next {
        Ok(None) => false,
        Ok(Some(item)) => {
            told.items.extend_from_slice(&item).is_ok() && told.items.push(b'/').is_ok()
        }
        Err(refusal) => {
            told.refusal = Some(refusal);
            false
        }
    }
}

fn put_lines<S: Source>(alloc: Global, source: &mut S, told: &mut Told) {
    if let Ok(mut lines) = LineReader::new(alloc) {
        for _ in 0..20 {
            if !put(told, lines.next(source)) {
                break;
            }
        }
    }
}

fn put_frames<S: Source>(alloc: Global, source: &mut S, told: &mut Told) {
    if let Ok(mut frames) = FrameReader::new(alloc) {
        for _ in 0..20 {
            if !put(told, frames.next(source)) {
                break;
            }
        }
    }
}

/// What is read of a source: lines or frames.
#[derive(Clone, Copy, PartialEq, Eq)]
enum Reader {
    Lines,
    Frames,
}

/// Whether so many of these bytes are read of a source, and then comes the refusal.
fn reads<S: Source>(
    alloc: Global,
    source: &mut S,
    reader: Reader,
    want: (&[u8], usize, Option<ReadRefusal>),
) -> bool {
    let mut told = Told {
        items: Vec::new(alloc),
        refusal: None,
    };
    match reader {
        Reader::Lines => put_lines(alloc, source, &mut told),
        Reader::Frames => put_frames(alloc, source, &mut told),
    }
    let (whole, length, refusal) = want;
    whole.starts_with(&told.items) && told.items.len() == length && told.refusal == refusal
}

/// Five frames: of two bytes, of none, of one, of seven, of three.
const STREAM: &[u8] =
    b"\x00\x00\x00\x02ab\x00\x00\x00\x00\x00\x00\x00\x01c\x00\x00\x00\x07defghij\x00\x00\x00\x03klm";

/// Where they end, and how much of their joined bytes stands there.
const ENDS: [(usize, usize); 6] = [(0, 0), (6, 3), (10, 4), (15, 6), (26, 14), (33, 18)];

/// How much of the joined frames stands before a place, and whether a frame ends there.
fn told_before(place: usize) -> (usize, bool) {
    let mut told = (0, false);
    for (end, length) in ENDS {
        if end <= place {
            told = (length, end == place);
        }
    }
    told
}

/// Whether the frames before a place are read, where so many bytes come at a time.
fn frames_come(alloc: Global, place: usize, most: usize) -> bool {
    let Some(front) = STREAM.get(..place) else {
        return false;
    };
    let (length, is_whole) = told_before(place);
    let refusal = if is_whole {
        None
    } else {
        Some(ReadRefusal::Cut)
    };
    let want: (&[u8], usize, Option<ReadRefusal>) = (b"ab//c/defghij/klm/", length, refusal);
    reads(alloc, &mut source_of(front, most, 0), Reader::Frames, want)
}

pub(crate) fn frames_come_whole_however_the_bytes_are_cut(alloc: Global) -> bool {
    let mut all = true;
    for place in 0..=33 {
        for most in [1, 2, 3, 7] {
            all &= frames_come(alloc, place, most);
        }
    }
    all
}

/// The read that fails, and how much is read before.
const FAILING: [(Reader, u64, usize); 10] = [
    (Reader::Lines, 1, 0),
    (Reader::Lines, 2, 0),
    (Reader::Lines, 3, 2),
    (Reader::Lines, 4, 2),
    (Reader::Lines, 5, 4),
    (Reader::Lines, 6, 4),
    (Reader::Frames, 1, 0),
    (Reader::Frames, 5, 0),
    (Reader::Frames, 6, 2),
    (Reader::Frames, 7, 2),
];

/// Whether a read that fails is told as such. The bytes come one at a time.
fn fails(alloc: Global, reader: Reader, failing: u64, length: usize) -> bool {
    let (bytes, whole): (&[u8], &[u8]) = match reader {
        Reader::Lines => (b"a\nb\nc\n", b"a/b/"),
        Reader::Frames => (b"\0\0\0\x01a\0", b"a/"),
    };
    let want = (whole, length, Some(ReadRefusal::Failed));
    reads(alloc, &mut source_of(bytes, 1, failing), reader, want)
}

/// Whether the read fails, and then comes the end.
fn fails_and_ends<S: Source>(source: &mut S) -> bool {
    source.read(&mut [0]) == Err(SourceFailed) && source.read(&mut [0]) == Ok(0)
}

pub(crate) fn a_reader_that_fails_is_no_end_of_the_input(alloc: Global) -> bool {
    let mut all = fails_and_ends(&mut source_of(b"", 1, 1));
    for (reader, failing, length) in FAILING {
        all &= fails(alloc, reader, failing, length);
    }
    all
}

fn is_a(next: Next) -> bool {
    match next {
        Ok(Some(item)) => item.as_slice() == b"a".as_slice(),
        _ => false,
    }
}

fn has_failed(next: Next) -> bool {
    match next {
        Err(refusal) => refusal == ReadRefusal::Failed,
        Ok(_) => false,
    }
}

fn lines_fail_again(reader: &mut LineReader, source: &mut MemorySource) -> bool {
    is_a(reader.next(source)) && has_failed(reader.next(source)) && has_failed(reader.next(source))
}

fn frames_fail_again(reader: &mut FrameReader, source: &mut MemorySource) -> bool {
    is_a(reader.next(source)) && has_failed(reader.next(source)) && has_failed(reader.next(source))
}

/// Whether a failed read is answered again, by the reader of lines and by that of frames.
fn fails_again(alloc: Global, reader: Reader, source: &mut MemorySource) -> bool {
    match reader {
        Reader::Lines => match LineReader::new(alloc) {
            Ok(mut lines) => lines_fail_again(&mut lines, source),
            Err(_) => false,
        },
        Reader::Frames => match FrameReader::new(alloc) {
            Ok(mut frames) => frames_fail_again(&mut frames, source),
            Err(_) => false,
        },
    }
}

/// The same of a source of these bytes whose second read fails.
fn second_fails_again(alloc: Global, reader: Reader, bytes: &[u8]) -> bool {
    let (Ok(bytes), Ok(failing)) = (Vec::from_slice(alloc, bytes), Vec::from_slice(alloc, &[2]))
    else {
        return false;
    };
    fails_again(alloc, reader, &mut MemorySource::new(bytes, failing))
}

pub(crate) fn a_failed_read_is_answered_again(alloc: Global) -> bool {
    second_fails_again(alloc, Reader::Lines, b"a\nb")
        && second_fails_again(alloc, Reader::Frames, b"\x00\x00\x00\x01a\x00")
}
