// A capture brought in: standard input is a Value Change Dump, standard output its records, one line a tick.
#![tactic(auto)]

ghost use Rattle.std.specs.Prelude.{◌≡◌, ◌≤◌, length};

use intake::{Reader, Record, Said, Told};
use streams::{STDIN_FILENO, STDOUT_FILENO};

// A capture on its way: of the block the first `len` bytes are there and `from` are read; the text goes on at `at`.
#[derive(Clone, Copy)]
struct Work {
    reader: Reader,
    len: usize,
    from: usize,
    at: usize,
    going: bool,
}

fn working(reader: Reader, len: usize, from: usize, at: usize, going: bool) -> Work
    ensures { (result.len ≡ len) × (result.at ≡ at) }
{
    Work {
        reader,
        len,
        from,
        at,
        going,
    }
}

// Whether what is there could be written.
fn flush(out: &[u8], at: usize) -> bool
    requires { at ≤ length out.now }
{
    io::write_all(STDOUT_FILENO, &out[..at])
}

// Whether there is somebody to read on: where there is no room for a line, what is there is written out.
fn read_on(out: &[u8], at: usize) -> bool
    requires { at ≤ length out.now }
{
    at <= 65000 || flush(out, at)
}

// Where a line goes: behind the others, or first in a buffer that was written out.
fn with_room(at: usize) -> usize
    ensures { result ≤ 65000 }
{
    if at <= 65000 {
        return at;
    }
    0
}

// The next block, or the end of the file.
fn more(reader: Reader, at: usize, block: &mut [u8; 65536], room: &[u8], pool: &mut [u8]) -> Work
    requires { at ≤ 65000 }
    ensures { (result.len ≤ 65536) × (result.at ≤ 65536) }
{
    let len = io::read_full(STDIN_FILENO, &mut *block);
    if len == 0 {
        return working(intake::end(reader, room, pool), 0, 0, at, true);
    }
    working(reader, len, 0, at, true)
}

// What is said, written.
fn said(
    told: Told,
    len: usize,
    at: usize,
    block: &mut [u8; 65536],
    room: &[u8],
    pool: &mut [u8],
    out: &mut [u8; 65536],
) -> Work
    requires { (len ≤ 65536) × (at ≤ 65000) }
    ensures { (result.len ≤ 65536) × (result.at ≤ 65536) }
{
    let reader = told.reader;
    match told.said {
        Said::Signals(n) => working(reader, len, told.at, printout::signals(out, at, n), true),
        Said::Tick => working(
            reader,
            len,
            told.at,
            printout::tick(out, at, told.tick),
            true,
        ),
        Said::More => more(reader, at, block, room, pool),
        Said::End => working(reader, len, told.at, at, false),
        Said::Refused(number, place) => working(
            reader,
            len,
            told.at,
            printout::refused(out, at, number, place),
            false,
        ),
    }
}

fn turn(
    w: Work,
    block: &mut [u8; 65536],
    room: &mut [u8],
    pool: &mut [u8],
    out: &mut [u8; 65536],
) -> Work
    requires { (w.len ≤ 65536) × (w.at ≤ 65536) }
    ensures { (result.len ≤ 65536) × (result.at ≤ 65536) }
{
    if !read_on(out, w.at) {
        return Work {
            at: 0,
            going: false,
            ..w
        };
    }
    let at = with_room(w.at);
    let told = intake::next(w.reader, &block[..w.len], w.from, room, pool);
    said(told, w.len, at, block, room, pool, out)
}

// A loop has to end, and nothing says that an input does: the turns are more than any run uses up.
fn main() {
    let mut block = io::large_buffer();
    let mut room = io::buffer();
    let mut pool = io::large_buffer();
    let mut out = io::large_buffer();
    let mut w = working(intake::start(), 0, 0, 0, true);
    for _ in 0..u64::MAX {
        if !w.going {
            break;
        }
        w = turn(w, &mut block, &mut room, &mut pool, &mut out);
    }
    flush(&out, w.at);
}
