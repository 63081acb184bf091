// What a word does to what a reader holds besides its table.
#![tactic(auto)]

ghost use Rattle.std.specs.Prelude.{◌≡◌, Bool, ◌<◌, ◌≤◌, take, drop, get_or};
ghost use Rattle.grammar.specs.Signals.{which_of};
ghost use Rattle.grammar.specs.Grammar.{go_to, in_heading, until_end, within, ours, fate, more_signals, declare, judged, closing, set_on, entry_on, changes_on, changed, apply, moved, timed, marked, passed, section, in_body, head_by};
ghost use Rattle.phrase.specs.Table.{part_of, least_of, table_of};

use grammar::{Change, Digits, Head, Phase};

// The declared signals: where each identifier ends in the lent pool, each beginning where the one before ends, and which of the eight it is.
// The identifier of a `$var` that is being read stands from `used` to `tail`, where it fits.
#[derive(Clone, Copy)]
pub struct Table {
    pub count: usize,
    pub ends: [usize; 64],
    pub which: [u8; 64],
    pub used: usize,
    pub tail: usize,
    pub fits: bool,
}

// ---- parts

#[tactic(auto, unfolding(crate::specs::Table::part_of))]
pub fn part(s: &[u8], from: usize, to: usize) -> &[u8]
    ensures { result.now ≡ part_of s.now from to }
{
    s.get(from..to).unwrap_or(&[])
}

fn first(word: &[u8]) -> u8
    ensures { result ≡ get_or word.now 0 0 }
{
    word.first().copied().unwrap_or(0)
}

fn rest(word: &[u8]) -> &[u8]
    ensures { result.now ≡ drop 1 word.now }
{
    word.get(1..).unwrap_or(&[])
}

fn one(word: &[u8]) -> &[u8]
    ensures { result.now ≡ take 1 word.now }
{
    word.get(..1).unwrap_or(&[])
}

#[tactic(auto, unfolding(crate::specs::Table::least_of))]
pub fn least(a: usize, b: usize) -> usize
    ensures { result ≡ least_of a b }
{
    a.min(b)
}

// ---- the head

pub fn go_to(head: Head, phase: Phase) -> Head
    ensures { result ≡ go_to head phase }
{
    Head { phase, ..head }
}

// ---- declarations

#[tactic(auto, unfolding(grammar::specs::Grammar::in_heading, line::specs::Text::ascii))]
fn heading(head: Head, word: &[u8]) -> Head
    ensures { result ≡ in_heading head word.now }
{
    if spelling::same(word, b"$var") {
        return go_to(head, Phase::Kind);
    }
    if spelling::same(word, b"$enddefinitions") {
        return go_to(head, Phase::Ending);
    }
    if spelling::same(word, b"$end") {
        return go_to(head, Phase::Refused(14));
    }
    if first(word) == b'$' {
        return go_to(head, Phase::Skipping);
    }
    go_to(head, Phase::Refused(14))
}

// On to the next phase at `$end`.
#[tactic(auto, unfolding(grammar::specs::Grammar::until_end, line::specs::Text::ascii))]
fn until_end(head: Head, word: &[u8], next: Phase) -> Head
    ensures { result ≡ until_end head word.now next }
{
    if spelling::same(word, b"$end") {
        return go_to(head, next);
    }
    head
}

// A word of a `$var`, which may not end here.
#[tactic(auto, unfolding(grammar::specs::Grammar::within, line::specs::Text::ascii))]
fn within(head: Head, word: &[u8], next: Phase) -> Head
    ensures { result ≡ within head word.now next }
{
    if spelling::same(word, b"$end") {
        return go_to(head, Phase::Refused(14));
    }
    go_to(head, next)
}

// The first declaration of a name counts.
#[tactic(auto, unfolding(grammar::specs::Grammar::ours, laws::specs::Pick::pick))]
fn ours(declared: [bool; 8], which: u8) -> u8
    ensures { result ≡ ours declared which }
{
    let k = which as usize;
    if k < 8 {
        return laws::pick(declared[k], 8, which);
    }
    8
}

// Which of the eight a name declares.
fn which(head: Head, word: &[u8]) -> u8
    ensures { result ≡ ours head.declared (which_of word.now) }
{
    ours(head.declared, spelling::which_of(word))
}

// What a `$var` that is read comes to: 0, or the number of its refusal.
#[tactic(auto, unfolding(grammar::specs::Grammar::fate))]
pub fn fate(size: u8, which: u8, count: usize, fits: bool) -> u8
    ensures { result ≡ fate size which count fits }
{
    if (which < 8) & (size != spelling::width_of(which)) {
        return 14;
    }
    if 64 <= count {
        return 15;
    }
    if fits {
        return 0;
    }
    17
}

#[tactic(auto, unfolding(grammar::specs::Grammar::more_signals))]
fn more_signals(n: u8) -> u8
    ensures { result ≡ more_signals n }
{
    if n < 8 {
        return n + 1;
    }
    n
}

// One of the eight is declared.
#[tactic(auto, unfolding(grammar::specs::Grammar::declare))]
fn declare(head: Head, which: u8) -> Head
    ensures { result ≡ declare head which }
{
    let k = which as usize;
    if k < 8 {
        let mut h = head;
        h.declared[k] = true;
        h.signals = more_signals(head.signals);
        return h;
    }
    head
}

#[tactic(auto, unfolding(grammar::specs::Grammar::judged))]
fn judged(head: Head, which: u8, number: u8) -> Head
    ensures { result ≡ judged head which number }
{
    if number == 0 {
        return go_to(declare(head, which), Phase::Heading);
    }
    go_to(head, Phase::Refused(number))
}

#[tactic(auto, unfolding(grammar::specs::Grammar::closing, line::specs::Text::ascii))]
fn closing(head: Head, word: &[u8], size: u8, which: u8, count: usize, fits: bool) -> Head
    ensures { result ≡ closing head word.now size which count fits }
{
    if spelling::same(word, b"$end") {
        return judged(head, which, fate(size, which, count, fits));
    }
    head
}

// ---- changes

// One of the eight has the identifier.
#[tactic(auto, unfolding(grammar::specs::Grammar::set_on))]
fn set(c: Change, digits: Digits, which: u8) -> Change
    ensures { result ≡ set_on c digits which }
{
    let k = which as usize;
    let mut n = c;
    n.found = true;
    if k < 8 {
        let full = spelling::full_of(which);
        n.values[k] = digits.value;
        n.unknown[k] = digits.unknown % (full + 1);
        n.fine = c.fine & digits.fine & (digits.ones <= full);
        return n;
    }
    n
}

#[tactic(auto, unfolding(grammar::specs::Grammar::entry_on))]
fn entry(c: Change, digits: Digits, which: u8, hit: bool) -> Change
    ensures { result ≡ entry_on c digits which hit }
{
    if hit {
        return set(c, digits, which);
    }
    c
}

fn changes(
    start: Change,
    digits: Digits,
    id: &[u8],
    over: bool,
    table: Table,
    pool: &[u8],
) -> Change
    ensures { result ≡ changes_on start digits id.now over (table_of table pool.now) }
{
    let n = least(table.count, 64);
    let mut c = start;
    let mut from = 0;
    for i in 0..n {
        let to = table.ends[i];
        let hit = !over & spelling::same(id, part(pool, from, to));
        c = entry(c, digits, table.which[i], hit);
        from = to;
    }
    c
}

#[tactic(auto, unfolding(grammar::specs::Grammar::changed))]
fn changed(head: Head, c: Change) -> Head
    ensures { result ≡ changed head c }
{
    if c.found & c.fine {
        let values = c.values;
        let unknown = c.unknown;
        return Head {
            phase: Phase::Body,
            values,
            unknown,
            ..head
        };
    }
    go_to(head, Phase::Refused(14))
}

#[tactic(auto, unfolding(grammar::specs::Grammar::apply))]
fn apply(head: Head, digits: Digits, id: &[u8], over: bool, table: Table, pool: &[u8]) -> Head
    ensures { result ≡ apply head digits id.now over (table_of table pool.now) }
{
    let values = head.values;
    let unknown = head.unknown;
    let start = Change {
        values,
        unknown,
        found: false,
        fine: true,
    };
    changed(head, changes(start, digits, id, over, table, pool))
}

// ---- time

#[tactic(auto, unfolding(grammar::specs::Grammar::moved, laws::specs::Pick::pick))]
fn moved(head: Head, time: u64) -> Head
    ensures { result ≡ moved head time }
{
    Head {
        begun: true,
        time: laws::pick(head.begun, head.time, time),
        mark: time,
        ..head
    }
}

// A mark with its time.
#[tactic(auto, unfolding(grammar::specs::Grammar::timed))]
fn timed(head: Head, time: u64, over: bool) -> Head
    ensures { result ≡ timed head time over }
{
    if over {
        return go_to(head, Phase::Refused(17));
    }
    if head.begun & (time < head.mark) {
        return go_to(head, Phase::Refused(16));
    }
    moved(head, time)
}

#[tactic(auto, unfolding(grammar::specs::Grammar::marked))]
fn mark(head: Head, digits: &[u8], over: bool) -> Head
    ensures { result ≡ marked head digits.now over }
{
    match spelling::time_of(digits) {
        Ok(time) => timed(head, time, over),
        Err(_) => go_to(head, Phase::Refused(14)),
    }
}

// ---- after the declarations

#[tactic(auto, unfolding(grammar::specs::Grammar::passed, line::specs::Text::ascii))]
fn passed(word: &[u8]) -> bool
    ensures { result ≡ passed word.now }
{
    spelling::same(word, b"$end")
        | spelling::same(word, b"$dumpvars")
        | spelling::same(word, b"$dumpall")
        | spelling::same(word, b"$dumpon")
        | spelling::same(word, b"$dumpoff")
}

#[tactic(auto, unfolding(grammar::specs::Grammar::section))]
fn section(head: Head, word: &[u8]) -> Head
    ensures { result ≡ section head word.now }
{
    if passed(word) {
        return head;
    }
    go_to(head, Phase::Aside)
}

// A value whose identifier is the next word.
fn valued(head: Head, digits: Digits) -> Head
    ensures { result ≡ go_to head (Phase.Valued digits) }
{
    go_to(head, Phase::Valued(digits))
}

#[tactic(auto, unfolding(grammar::specs::Grammar::in_body))]
fn body(head: Head, word: &[u8], over: bool, table: Table, pool: &[u8]) -> Head
    ensures { result ≡ in_body head word.now over (table_of table pool.now) }
{
    match spelling::lower(first(word)) {
        b'#' => mark(head, rest(word), over),
        b'$' => section(head, word),
        b'b' => valued(head, spelling::digits_of(rest(word))),
        b'r' | b's' => valued(head, spelling::broken()),
        _ => {
            let digits = spelling::digits_of(one(word));
            apply(head, digits, rest(word), over, table, pool)
        },
    }
}

// ---- a word

// The head after a word.
#[tactic(auto, unfolding(grammar::specs::Grammar::head_by), using(crate::proofs::Walk::table_length))]
pub fn read(head: Head, word: &[u8], over: bool, table: Table, pool: &[u8]) -> Head
    ensures { result ≡ head_by head.phase head word.now over (table_of table pool.now) table.fits }
{
    match head.phase {
        Phase::Heading => heading(head, word),
        Phase::Skipping => until_end(head, word, Phase::Heading),
        Phase::Kind => within(head, word, Phase::Size),
        Phase::Size => within(head, word, Phase::Identifier(spelling::size_of(word))),
        Phase::Identifier(size) => within(head, word, Phase::Name(size)),
        Phase::Name(size) => within(head, word, Phase::Closing(size, which(head, word))),
        Phase::Closing(size, which) => {
            let count = least(table.count, 64);
            closing(head, word, size, which, count, table.fits)
        },
        Phase::Ending => until_end(head, word, Phase::Declared),
        Phase::Body => body(head, word, over, table, pool),
        Phase::Aside => until_end(head, word, Phase::Body),
        Phase::Valued(digits) => apply(head, digits, word, over, table, pool),
        Phase::Declared | Phase::Done | Phase::Refused(_) => head,
    }
}
