// The bus of a run file: what the driver has to tell of each turn, as text in a lent buffer; and that text written out, a block at a time.
#![tactic(auto)]

ghost use Rattle.std.specs.Prelude.{◌≡◌, ◌+◌, ◌≤◌, length};
ghost use Rattle.line.specs.Text.{Written};
ghost use Rattle.driver.specs.Driver.{store, store_at};
ghost use Rattle.sheet.specs.Chart.{Ends};
ghost use Rattle.clerk.specs.Bus.{tick_of, text_by, told_of};
ghost use Rattle.clerk.specs.Machinery.Page.{begun_of, roomed, said_on, page_on};

use access::Reads;
use chip::Chip;
use driver::{Event, Run};
use script::Found;

// A run on its way: its text goes on at `at`.
#[derive(Clone, Copy)]
pub struct Page {
    pub run: Run,
    pub at: usize,
}

fn begun(kind: u8) -> Page
    ensures { result ≡ begun_of kind }
{
    Page {
        run: driver::begun(kind),
        at: 0,
    }
}

// ---- the text

// A tick's line.
fn tick(out: &mut [u8], at: usize, chip: Chip, reads: Reads) -> usize
    requires { at + 46 ≤ length out.old }
    ensures { (result ≤ at + 46) × Written out.old at (tick_of chip reads) out.new result }
{
    let lost = (chip.side.bus.lost % 65536) as u16;
    ledger::line(
        out,
        at,
        chip.side.beam.cycle,
        chip.side.beam.raster,
        lost,
        reads,
    )
}

// What is said of a turn.
fn told(out: &mut [u8], at: usize, event: Event, run: Run, reads: Reads) -> usize
    requires { at + 46 ≤ length out.old }
    ensures { (result ≤ at + 46) × Written out.old at (text_by event run.chip run.done reads) out.new result }
{
    match event {
        Event::Nothing => at,
        Event::Steps(n) => line::steps(out, at, n),
        Event::Tick => tick(out, at, run.chip, reads),
        Event::Refused(number) => line::refused(out, at, number, run.done),
    }
}

// What was read, done.
fn turn(
    before: Page,
    found: Found,
    ram: &mut [u8],
    rom: &mut [u8],
    colour: &mut [u8],
    out: &mut [u8],
) -> Page
    requires { before.at + 46 ≤ length out.old }
    ensures at_bound { result.at ≤ before.at + 46 }
    ensures value { result ≡ page_on (store ram.old rom.old colour.old) before found }
    ensures written { Written out.old before.at (said_on (store ram.old rom.old colour.old) before found) out.new result.at }
    ensures colour_after { store ram.new rom.new colour.new ≡ store_at (store ram.old rom.old colour.old) found.item }
{
    let made = driver::turn(before.run, found, ram, rom, colour);
    let at = told(out, before.at, made.event, made.run, made.reads);
    Page { run: made.run, at }
}

// ---- the blocks

// Room for a line: where there is none, what is there is written out.
fn with_room(before: Page, out: &[u8]) -> Page
    requires { before.at ≤ length out.now }
    ensures { result ≡ roomed before }
{
    let at = sheet::room(out, before.at, 65490);
    Page { at, ..before }
}

// The bus of a whole run on a kind of chip to standard output, and the run as it ended. The memory that is lent is the run's own, and starts 0.
pub fn print(
    kind: u8,
    input: &[u8],
    ram: &mut [u8],
    rom: &mut [u8],
    colour: &mut [u8],
    out: &mut [u8],
) -> Page
    requires { 65536 ≡ length out.old }
    ensures run_value { result.run ≡ (told_of kind (store ram.old rom.old colour.old) input.now).run }
    ensures colour_after { store ram.new rom.new colour.new ≡ (told_of kind (store ram.old rom.old colour.old) input.now).store }
    ensures ends { Ends (told_of kind (store ram.old rom.old colour.old) input.now).text out.new result.at }
{
    let mut page = begun(kind);
    while page.run.going {
        let roomy = with_room(page, out);
        let found = roomy.run.cursor.next(input);
        page = turn(roomy, found, ram, rom, colour, out);
    }
    sheet::flush(out, page.at);
    page
}
