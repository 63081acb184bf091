// A run file at work: what it says next, done on a chip and its memory, turn by turn. What is told of a turn is the caller's affair.
#![tactic(auto)]

ghost use Rattle.std.specs.Prelude.{◌≡◌};
ghost use Rattle.driver.specs.Driver.{store, set_in, store_set, begun_of, cursor_at, going≔, one_more, step_done, made_reading, made, event_of, made_doing, made_on, store_at};

use access::Reads;
use chip::Chip;
use run::Done;
use script::{Cursor, Found, Item, Part, Step};

// A run on its way: `done` steps are done.
#[derive(Clone, Copy)]
pub struct Run {
    pub chip: Chip,
    pub cursor: Cursor,
    pub done: u16,
    pub bank: u8,
    pub going: bool,
}

// What there is to tell of a turn: the number of the steps, a tick, whose chip is the run's, or a refusal.
#[derive(Clone, Copy)]
pub enum Event {
    Nothing,
    Steps(u16),
    Tick,
    Refused(u8),
}

// The run after a turn, what there is to tell, and a tick's reads.
#[derive(Clone, Copy)]
pub struct Made {
    pub run: Run,
    pub event: Event,
    pub reads: Reads,
}

// ---- the run

// A run file does not say of which kind its chip is.
#[tactic(auto, unfolding(crate::specs::Driver::begun_of))]
pub fn begun(kind: u8) -> Run
    ensures { result ≡ begun_of kind }
{
    Run {
        chip: chip::power_up(kind),
        cursor: Cursor::start(),
        done: 0,
        bank: 0,
        going: true,
    }
}

// The run at another place of its file.
fn moved(run: Run, cursor: Cursor) -> Run
    ensures { result ≡ cursor_at run cursor }
{
    Run { cursor, ..run }
}

// The run that goes on or not.
fn set_going(run: Run, going: bool) -> Run
    ensures { result ≡ going≔ going run }
{
    Run { going, ..run }
}

// One more; a file has 65,535 steps at most, so the count never stays.
fn one_more(done: u16) -> u16
    ensures { result ≡ one_more done }
{
    done.saturating_add(1)
}

// A step is done.
fn counted(run: Run, did: Done) -> Run
    ensures { result ≡ step_done run did }
{
    Run {
        chip: did.chip,
        done: one_more(run.done),
        bank: did.bank,
        ..run
    }
}

// ---- the memory

// A byte of a memory; past its end, which no file gets to, nothing.
#[tactic(auto, unfolding(crate::specs::Driver::set_in))]
fn set(memory: &mut [u8], address: u16, value: u8)
    ensures { memory.new ≡ set_in memory.old address value }
{
    let at = usize::from(address);
    if at < memory.len() {
        memory[at] = value;
    }
}

#[tactic(auto, unfolding(crate::specs::Driver::store_set))]
fn change(ram: &mut [u8], rom: &mut [u8], colour: &mut [u8], part: Part, address: u16, value: u8)
    ensures { store ram.new rom.new colour.new ≡ store_set part address value (store ram.old rom.old colour.old) }
{
    match part {
        Part::Ram => set(ram, address, value),
        Part::Rom => set(rom, address, value),
        Part::Colour => set(colour, address, value),
        Part::Start | Part::Steps => (),
    }
}

// ---- a turn

// A tick is told; another step is not.
#[tactic(auto, unfolding(crate::specs::Driver::event_of))]
fn event_of(step: Step) -> Event
    ensures { result ≡ event_of step }
{
    match step {
        Step::Tick => Event::Tick,
        _ => Event::Nothing,
    }
}

fn with_reads(run: Run, event: Event, reads: Reads) -> Made
    ensures { result ≡ made_reading run event reads }
{
    Made { run, event, reads }
}

// Nothing is read.
fn with_event(run: Run, event: Event) -> Made
    ensures { result ≡ made run event }
{
    with_reads(run, event, access::no_reads())
}

fn act(run: Run, step: Step, ram: &[u8], rom: &[u8], colour: &[u8]) -> Made
    ensures { result ≡ made_doing (store ram.now rom.now colour.now) run step }
{
    let did = run::step(run.chip, run.bank, step, ram, rom, colour);
    if did.refused == 0 {
        return with_reads(counted(run, did), event_of(step), did.reads);
    }
    with_event(set_going(run, false), Event::Refused(did.refused))
}

// What was read, done.
pub fn turn(before: Run, found: Found, ram: &mut [u8], rom: &mut [u8], colour: &mut [u8]) -> Made
    ensures { (result ≡ made_on (store ram.old rom.old colour.old) before found) × (store ram.new rom.new colour.new ≡ store_at (store ram.old rom.old colour.old) found.item) }
{
    let run = moved(before, found.cursor);
    match found.item {
        Item::Changes(_, _) => with_event(run, Event::Nothing),
        Item::Change(part, address, value) => {
            change(ram, rom, colour, part, address, value);
            with_event(run, Event::Nothing)
        }
        Item::Steps(n) => with_event(set_going(run, true), Event::Steps(n)),
        Item::Do(step) => act(run, step, ram, rom, colour),
        Item::Done => with_event(set_going(run, false), Event::Nothing),
        Item::Refused(number) => with_event(set_going(run, false), Event::Refused(number)),
    }
}
