// A capture, read in parts that the caller lends, and told one record at a time.
#![tactic(auto)]

ghost use Rattle.std.specs.Prelude.{◌≡◌, length, drop};
ghost use Rattle.grammar.specs.Grammar.{go_to};
ghost use Rattle.grammar.specs.Reading.{later, begins};
ghost use Rattle.intake.specs.Machine.{holds, opened_of, unfit_of, kept_of, pool_kept, entered_of, noted_of, listed_of, pool_of, fresh, grown_of, room_of, machine, step_of, closed_of, with_word, white_of, byte_of, waits, busy, scan, scan_of};
ghost use Rattle.intake.specs.Answers.{record_of, with_head, tell_of, next_tick, body_end, cut_off, last_of, idle_of, waiting_of, answer_of, start_of, next, next_of, end_of};

use grammar::{Head, Phase};
use phrase::Table;

// The word that is being read: its first bytes stand in the lent room; whether there are more; its place, the place of the next byte,
// and the place of the item that it belongs to.
#[derive(Clone, Copy)]
pub struct Word {
    pub len: usize,
    pub over: bool,
    pub start: u64,
    pub at: u64,
    pub item: u64,
}

#[derive(Clone, Copy)]
pub struct Reader {
    pub head: Head,
    pub table: Table,
    pub word: Word,
    pub ended: bool,
}

// A tick: the bits that are 1, and the bits that are unknown, of each of the eight.
#[derive(Clone, Copy)]
pub struct Record {
    pub time: u64,
    pub values: [u16; 8],
    pub unknown: [u16; 8],
}

// What a reader answers: how many of the eight are declared, a tick's record, that it wants the next part, that all is told, or a fault and its place.
#[derive(Clone, Copy)]
pub enum Said {
    Signals(u8),
    Tick,
    More,
    End,
    Refused(u8, u64),
}

#[derive(Clone, Copy)]
pub struct Told {
    pub said: Said,
    pub tick: Record,
    pub reader: Reader,
    pub at: usize,
}

// ---- the table

// Whether an identifier of so many bytes fits the pool.
#[tactic(auto, unfolding(crate::specs::Machine::holds))]
fn holds(used: usize, len: usize, over: bool, pool: usize) -> bool
    ensures { result ≡ holds used len over pool }
{
    !over && used <= pool && len <= pool - used
}

fn opened(table: Table, tail: usize) -> Table
    ensures { result ≡ opened_of table tail }
{
    Table {
        tail,
        fits: true,
        ..table
    }
}

fn unfit(table: Table) -> Table
    ensures { result ≡ unfit_of table }
{
    Table {
        fits: false,
        ..table
    }
}

// An identifier into the pool, where it fits.
#[tactic(auto, unfolding(crate::specs::Machine::kept_of, crate::specs::Machine::pool_kept), using(crate::proofs::Fit::holds_fits))]
fn kept(table: Table, word: &[u8], over: bool, pool: &mut [u8]) -> Table
    ensures { (result ≡ kept_of table word.now over pool.old) × (pool.new ≡ pool_kept table word.now over pool.old) }
{
    if holds(table.used, word.len(), over, pool.len()) {
        let tail = line::text(pool, table.used, word);
        return opened(table, tail);
    }
    unfit(table)
}

#[tactic(auto, unfolding(crate::specs::Machine::entered_of))]
fn entered(table: Table, which: u8) -> Table
    ensures { result ≡ entered_of table which }
{
    let n = table.count;
    if n < 64 {
        let mut t = table;
        t.ends[n] = table.tail;
        t.which[n] = which;
        t.count = n + 1;
        t.used = table.tail;
        return t;
    }
    table
}

#[tactic(auto, unfolding(crate::specs::Machine::noted_of, line::specs::Text::ascii))]
fn noted(table: Table, word: &[u8], size: u8, which: u8) -> Table
    ensures { result ≡ noted_of table word.now size which }
{
    let ends = spelling::same(word, b"$end");
    let count = phrase::least(table.count, 64);
    let number = phrase::fate(size, which, count, table.fits);
    if ends & (number == 0) {
        return entered(table, which);
    }
    table
}

// The table after a word.
#[tactic(auto, unfolding(crate::specs::Machine::listed_of, crate::specs::Machine::pool_of))]
fn listed(phase: Phase, table: Table, word: &[u8], over: bool, pool: &mut [u8]) -> Table
    ensures { (result ≡ listed_of phase table word.now over pool.old) × (pool.new ≡ pool_of phase table word.now over pool.old) }
{
    match phase {
        Phase::Identifier(_) => kept(table, word, over, pool),
        Phase::Closing(size, which) => noted(table, word, size, which),
        _ => table,
    }
}

// ---- a byte

// A word with which an item begins comes next.
#[tactic(auto, unfolding(grammar::specs::Reading::begins))]
fn begins(phase: Phase) -> bool
    ensures { result ≡ begins phase }
{
    matches!(phase, Phase::Heading | Phase::Body)
}

#[tactic(auto, unfolding(grammar::specs::Reading::later))]
fn later(place: u64) -> u64
    ensures { result ≡ later place }
{
    place.saturating_add(1)
}

fn fresh(at: u64, item: u64) -> Word
    ensures { result ≡ fresh at item }
{
    Word {
        len: 0,
        over: false,
        start: at,
        at,
        item,
    }
}

// A byte of a word.
#[tactic(auto, unfolding(crate::specs::Machine::grown_of, crate::specs::Machine::room_of))]
fn grown(w: Word, b: u8, room: &mut [u8]) -> Word
    ensures { (result ≡ grown_of w (length room.old)) × (room.new ≡ room_of w b room.old) }
{
    if w.len < room.len() {
        room[w.len] = b;
        return Word {
            len: w.len + 1,
            at: later(w.at),
            ..w
        };
    }
    Word {
        over: true,
        at: later(w.at),
        ..w
    }
}

// The word is over, and is read.
#[tactic(auto, unfolding(crate::specs::Machine::step_of, laws::specs::Pick::pick))]
fn step(r: Reader, room: &[u8], pool: &mut [u8]) -> Reader
    ensures { machine result room.now pool.new ≡ step_of (machine r room.now pool.old) }
{
    let w = r.word;
    let phase = r.head.phase;
    let word = phrase::part(room, 0, w.len);
    let head = phrase::read(r.head, word, w.over, r.table, pool);
    let table = listed(phase, r.table, word, w.over, pool);
    let item = laws::pick(begins(phase), w.start, w.item);
    Reader {
        head,
        table,
        word: fresh(w.at, item),
        ..r
    }
}

#[tactic(auto, unfolding(crate::specs::Machine::closed_of))]
fn closed(r: Reader, room: &[u8], pool: &mut [u8]) -> Reader
    ensures { machine result room.now pool.new ≡ closed_of (machine r room.now pool.old) }
{
    if 0 < r.word.len {
        return step(r, room, pool);
    }
    r
}

fn with_word(r: Reader, word: Word) -> Reader
    ensures { result ≡ with_word r word }
{
    Reader { word, ..r }
}

// What ends a word, or stands between two.
#[tactic(auto, unfolding(crate::specs::Machine::white_of))]
fn white(r: Reader, room: &[u8], pool: &mut [u8]) -> Reader
    ensures { machine result room.now pool.new ≡ white_of (machine r room.now pool.old) }
{
    let c = closed(r, room, pool);
    with_word(c, fresh(later(c.word.at), c.word.item))
}

#[tactic(auto, unfolding(crate::specs::Machine::byte_of, crate::specs::Machine::black_of))]
fn byte(r: Reader, b: u8, room: &mut [u8], pool: &mut [u8]) -> Reader
    ensures { machine result room.new pool.new ≡ byte_of (machine r room.old pool.old) b }
{
    if 32 < b {
        return with_word(r, grown(r.word, b, room));
    }
    white(r, room, pool)
}

// ---- a part

// Something is to be told before the next byte is read.
#[tactic(auto, unfolding(crate::specs::Machine::waits))]
fn waits(phase: Phase) -> bool
    ensures { result ≡ waits phase }
{
    matches!(phase, Phase::Declared | Phase::Done | Phase::Refused(_))
}

#[tactic(auto, unfolding(crate::specs::Machine::busy))]
fn busy(r: Reader) -> bool
    ensures { result ≡ busy r }
{
    r.ended | (r.head.time < r.head.mark) | waits(r.head.phase)
}

#[derive(Clone, Copy)]
struct Scanned {
    reader: Reader,
    at: usize,
}

// Up to the first byte after which something is to be told.
fn scan(reader: Reader, text: &[u8], from: usize, room: &mut [u8], pool: &mut [u8]) -> Scanned
    ensures { scan (machine result.reader room.new pool.new) result.at ≡ scan_of (machine reader room.old pool.old) (drop from text.now) from }
{
    let mut r = reader;
    for i in from..text.len() {
        if busy(r) {
            return Scanned { reader: r, at: i };
        }
        r = byte(r, text[i], room, pool);
    }
    let at = from.max(text.len());
    Scanned { reader: r, at }
}

// ---- answers

fn record_of(h: Head) -> Record
    ensures { result ≡ record_of h }
{
    let values = h.values;
    let unknown = h.unknown;
    Record {
        time: h.time,
        values,
        unknown,
    }
}

fn with_head(r: Reader, head: Head) -> Reader
    ensures { result ≡ with_head r head }
{
    Reader { head, ..r }
}

fn tell(said: Said, r: Reader, head: Head, at: usize) -> Told
    ensures { result ≡ tell_of said r head at }
{
    Told {
        said,
        tick: record_of(r.head),
        reader: with_head(r, head),
        at,
    }
}

fn next_tick(head: Head) -> Head
    ensures { result ≡ next_tick head }
{
    Head {
        time: later(head.time),
        ..head
    }
}

// At the end of the file, between two items.
#[tactic(auto, unfolding(crate::specs::Answers::body_end, laws::specs::Pick::pick))]
fn body_end(r: Reader, at: usize) -> Told
    ensures { result ≡ body_end r at }
{
    let said = laws::pick(r.head.begun, Said::Tick, Said::End);
    tell(said, r, phrase::go_to(r.head, Phase::Done), at)
}

// At the end of the file, in an item, or where one is missing.
#[tactic(auto, unfolding(crate::specs::Answers::cut_off))]
fn cut_off(r: Reader, place: u64, at: usize) -> Told
    ensures { result ≡ cut_off r place at }
{
    let done = phrase::go_to(r.head, Phase::Done);
    tell(Said::Refused(14, place), r, done, at)
}

#[tactic(auto, unfolding(crate::specs::Answers::last_of))]
fn last(r: Reader, at: usize) -> Told
    ensures { result ≡ last_of r.head.phase r at }
{
    match r.head.phase {
        Phase::Heading => cut_off(r, r.word.at, at),
        Phase::Body => body_end(r, at),
        _ => cut_off(r, r.word.item, at),
    }
}

#[tactic(auto, unfolding(crate::specs::Answers::idle_of))]
fn idle(r: Reader, at: usize) -> Told
    ensures { result ≡ idle_of r at }
{
    if r.ended {
        return last(r, at);
    }
    tell(Said::More, r, r.head, at)
}

// How many of the eight are declared.
fn signals(r: Reader, at: usize) -> Told
    ensures { result ≡ tell_of (Said.Signals r.head.signals) r (go_to r.head Phase.Body) at }
{
    let body = phrase::go_to(r.head, Phase::Body);
    tell(Said::Signals(r.head.signals), r, body, at)
}

// A fault at the place of its item.
fn refused(r: Reader, number: u8, at: usize) -> Told
    ensures { result ≡ tell_of (Said.Refused number r.word.item) r (go_to r.head Phase.Done) at }
{
    let done = phrase::go_to(r.head, Phase::Done);
    tell(Said::Refused(number, r.word.item), r, done, at)
}

#[tactic(auto, unfolding(crate::specs::Answers::waiting_of))]
fn waiting(r: Reader, at: usize) -> Told
    ensures { result ≡ waiting_of r.head.phase r at }
{
    match r.head.phase {
        Phase::Declared => signals(r, at),
        Phase::Done => tell(Said::End, r, r.head, at),
        Phase::Refused(number) => refused(r, number, at),
        _ => idle(r, at),
    }
}

#[tactic(auto, unfolding(crate::specs::Answers::answer_of))]
fn answer(r: Reader, at: usize) -> Told
    ensures { result ≡ answer_of r at }
{
    if r.head.time < r.head.mark {
        return tell(Said::Tick, r, next_tick(r.head), at);
    }
    waiting(r, at)
}

// ---- the calls

#[tactic(auto, unfolding(crate::specs::Answers::start_of, grammar::specs::Reading::start_head))]
pub fn start() -> Reader
    ensures { result ≡ start_of }
{
    let head = Head {
        phase: Phase::Heading,
        signals: 0,
        declared: [false; 8],
        values: [0; 8],
        unknown: [127, 511, 1, 1, 255, 7, 1023, 1],
        begun: false,
        time: 0,
        mark: 0,
    };
    let table = Table {
        count: 0,
        ends: [0; 64],
        which: [0; 64],
        used: 0,
        tail: 0,
        fits: false,
    };
    Reader {
        head,
        table,
        word: fresh(0, 0),
        ended: false,
    }
}

// What comes next, from a place of the part that is lent; the place from which to read on.
#[tactic(auto, unfolding(crate::specs::Answers::next_of, crate::specs::Answers::answered))]
pub fn next(reader: Reader, text: &[u8], from: usize, room: &mut [u8], pool: &mut [u8]) -> Told
    ensures { next result room.new pool.new ≡ next_of (machine reader room.old pool.old) text.now from }
{
    if room.len() < 32 {
        let done = phrase::go_to(reader.head, Phase::Done);
        return tell(Said::Refused(17, reader.word.at), reader, done, from);
    }
    let s = scan(reader, text, from, room, pool);
    answer(s.reader, s.at)
}

// The file ends here.
#[tactic(auto, unfolding(crate::specs::Answers::end_of))]
pub fn end(reader: Reader, room: &[u8], pool: &mut [u8]) -> Reader
    ensures { machine result room.now pool.new ≡ end_of (machine reader room.now pool.old) }
{
    Reader {
        ended: true,
        ..closed(reader, room, pool)
    }
}
