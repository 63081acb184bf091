// The chart of a run file: what the driver has to tell of each turn, as text in a lent buffer; and that text written out, a block at a time.
#![tactic(auto)]

ghost use Rattle.std.specs.Prelude.{◌≡◌, true, false, ◌+◌, ◌≤◌, ◌<◌, length};
ghost use Rattle.script.specs.Machinery.Cursor.{at_step};
ghost use Rattle.line.specs.Text.{Written};
ghost use Rattle.driver.specs.Driver.{store, store_at};
ghost use Rattle.sheet.specs.Sheet.{driven_of, with_text, begun_of, placed, text_by, said_on, run_on};
ghost use Rattle.sheet.specs.Machinery.Fill.{goes, Gone, Filled, ahead};
ghost use Rattle.sheet.specs.Chart.{chart_of, end, ended_of, room_of, Ends};
ghost use Rattle.sheet.specs.Desk.{Fresh, Printed, PrintedAll};

use chip::Chip;
use driver::Event;
use script::{Cursor, Found};
use streams::{STDIN_FILENO, STDOUT_FILENO};

// A run on its way: `done` steps are done, and the text goes on at `at`.
#[derive(Clone, Copy)]
pub struct Run {
    pub chip: Chip,
    pub cursor: Cursor,
    pub at: usize,
    pub done: u16,
    pub bank: u8,
    pub going: bool,
}

// ---- the run

// The run with its text at a place.
fn with_text(run: driver::Run, at: usize) -> Run
    ensures { result ≡ with_text run at }
{
    Run {
        chip: run.chip,
        cursor: run.cursor,
        at,
        done: run.done,
        bank: run.bank,
        going: run.going,
    }
}

// The run without its text.
fn driven(run: Run) -> driver::Run
    ensures { result ≡ driven_of run }
{
    driver::Run {
        chip: run.chip,
        cursor: run.cursor,
        done: run.done,
        bank: run.bank,
        going: run.going,
    }
}

pub fn begun(kind: u8) -> Run
    ensures { result ≡ begun_of kind }
{
    with_text(driver::begun(kind), 0)
}

// The run with its text at another place, going on or not.
fn at_place(run: Run, at: usize, going: bool) -> Run
    ensures { result ≡ placed run at going }
{
    Run { at, going, ..run }
}

// ---- the text

// What the chart says of a turn.
fn told(out: &mut [u8], at: usize, event: Event, run: driver::Run) -> usize
    requires { at + 64 ≤ length out.old }
    ensures { (result ≤ at + 64) × Written out.old at (text_by event run.chip run.done) out.new result }
{
    match event {
        Event::Nothing => at,
        Event::Steps(n) => line::steps(out, at, n),
        Event::Tick => line::line(out, at, line::numbers(run.chip)),
        Event::Refused(number) => line::refused(out, at, number, run.done),
    }
}

// What was read, done.
fn turn(
    before: Run,
    found: Found,
    ram: &mut [u8],
    rom: &mut [u8],
    colour: &mut [u8],
    out: &mut [u8],
) -> Run
    requires { before.at + 64 ≤ length out.old }
    ensures at_bound { result.at ≤ before.at + 64 }
    ensures value { result ≡ run_on (store ram.old rom.old colour.old) before found }
    ensures written { Written out.old before.at (said_on (store ram.old rom.old colour.old) before found) out.new result.at }
    ensures colour_after { store ram.new rom.new colour.new ≡ store_at (store ram.old rom.old colour.old) found.item }
{
    let made = driver::turn(driven(before), found, ram, rom, colour);
    let at = told(out, before.at, made.event, made.run);
    with_text(made.run, at)
}

// The steps of one block, which is lent once: until it is read, the run is over or another turn may not fit.
fn walk(
    start: Run,
    input: &[u8],
    ram: &mut [u8],
    rom: &mut [u8],
    colour: &mut [u8],
    out: &mut [u8],
) -> Run
    requires { (65536 ≡ length out.old) × (goes start ≡ true) × (at_step start.cursor.part start.cursor.left ≡ true) }
    ensures { Gone input.now (store ram.old rom.old colour.old) start out.old (store ram.new rom.new colour.new) result out.new }
{
    let from = start.cursor.at;
    let left = start.cursor.left;
    let lent = script::block(input, from, left);
    let rest = left - script::block_steps(left);
    let mut run = start;
    while run.going & (run.at <= 65472) & (rest < run.cursor.left) {
        let found = run.cursor.in_block(lent, from);
        run = turn(run, found, ram, rom, colour, out);
    }
    run
}

// What the file says next: steps of a block, or one record.
fn on(
    before: Run,
    input: &[u8],
    ram: &mut [u8],
    rom: &mut [u8],
    colour: &mut [u8],
    out: &mut [u8],
) -> Run
    requires { (65536 ≡ length out.old) × (goes before ≡ true) }
    ensures { Gone input.now (store ram.old rom.old colour.old) before out.old (store ram.new rom.new colour.new) result out.new }
{
    if before.cursor.at_step() {
        return walk(before, input, ram, rom, colour, out);
    }
    let found = before.cursor.next(input);
    turn(before, found, ram, rom, colour, out)
}

// A block of the chart: from the start of the buffer on, turns until the run is over or another one may not fit.
fn fill(
    start: Run,
    input: &[u8],
    ram: &mut [u8],
    rom: &mut [u8],
    colour: &mut [u8],
    out: &mut [u8],
) -> Run
    requires { 65536 ≡ length out.old }
    ensures at_bound { result.at ≤ 65536 }
    ensures filled { Filled input.now (store ram.old rom.old colour.old) start out.old (store ram.new rom.new colour.new) result out.new }
    ensures result_bound { start.going ≡ true → ahead input.now result < ahead input.now start }
{
    let mut run = at_place(start, 0, start.going);
    while run.going & (run.at <= 65472) {
        run = on(run, input, ram, rom, colour, out);
    }
    run
}

// ---- the blocks

// What stands before a place, written out; the next text begins the buffer anew.
pub fn flush(out: &[u8], at: usize) -> usize
    requires { at ≤ length out.now }
    ensures { result ≡ 0 }
{
    io::write_all(STDOUT_FILENO, &out[..at]);
    0
}

// Where the next text goes: past the last place that has room for one, what stands is written out first.
pub fn room(out: &[u8], at: usize, last: usize) -> usize
    requires { at ≤ length out.now }
    ensures { result ≡ room_of last at }
{
    if at <= last {
        return at;
    }
    flush(out, at)
}

// The whole chart of a run on a kind of chip to standard output, and the run as it ended. The memory that is lent is the run's own, and starts 0.
pub fn print(
    kind: u8,
    input: &[u8],
    ram: &mut [u8],
    rom: &mut [u8],
    colour: &mut [u8],
    out: &mut [u8],
) -> Run
    requires { 65536 ≡ length out.old }
    ensures going_value { result.going ≡ false }
    ensures colour_after { end result (store ram.new rom.new colour.new) ≡ ended_of kind (store ram.old rom.old colour.old) input.now }
    ensures ends { Ends (chart_of kind (store ram.old rom.old colour.old) input.now) out.new result.at }
{
    let mut run = begun(kind);
    while run.going {
        run = fill(run, input, ram, rom, colour, out);
        flush(out, run.at);
    }
    run
}

// ---- a program over a run file, or over many

// A run's own memory, which starts 0, and the buffer for its text.
#[derive(Drop)]
pub struct Desk {
    pub ram: [u8; 16384],
    pub rom: [u8; 4096],
    pub colour: [u8; 1024],
    pub out: [u8; 65536],
}

impl Desk {
    fn new() -> Desk
        ensures { Fresh result }
    {
        Desk {
            ram: [0; 16384],
            rom: [0; 4096],
            colour: [0; 1024],
            out: io::large_buffer(),
        }
    }
}

// More than the longest run file, which has 392,195 bytes.
fn space() -> [u8; 400000]
    ensures { 400000 ≡ length result }
{
    [0; 400000]
}

// Prints the run file on standard input, and answers what the printer answers.
pub fn of_input<R, F: FnOnce(&[u8], &mut Desk) -> R>(print: F) -> R
    requires { F.IsAlwaysCallable print }
    ensures { Printed F.FnOnce 400000 print result }
{
    let mut input = space();
    let n = io::read_full(STDIN_FILENO, &mut input);
    print(&input[..n], &mut Desk::new())
}

// The line `file N`.
fn announce(number: u16) {
    let mut text = [0u8; 11];
    let a = line::text(&mut text, 0, b"file ");
    let end = line::put(&mut text, a, number, b'\n');
    flush(&text, end);
}

// How long the next file of a bundle is, which is read whole; nothing where the bundle ends.
fn next(space: &mut [u8; 65536]) -> Option<u16> {
    let mut size = [0u8; 2];
    let read = io::read_full(STDIN_FILENO, &mut size);
    let Ok(n) = script::count_of(&size[..read], 0, 65535) else {
        return None;
    };
    let all = io::read_full(STDIN_FILENO, &mut space[..usize::from(n)]);
    if all == usize::from(n) { Some(n) } else { None }
}

// Prints a bundle of run files on standard input: each after its length, two bytes with the low one first.
// A line `file N`, counted from 1, comes before what is printed of each. Answers how many were printed.
pub fn of_bundle<F: FnMut(&[u8], &mut Desk)>(mut print: F) -> u16
    requires { F.IsAlwaysCallable print }
    ensures within { result ≤ 65534 }
    ensures printed { (after : F) × PrintedAll F.FnMut 65535 result print after }
{
    let mut space = io::large_buffer();
    for number in 1..65535 {
        let Some(n) = next(&mut space) else {
            return number - 1;
        };
        announce(number);
        print(&space[..usize::from(n)], &mut Desk::new());
    }
    65534
}
