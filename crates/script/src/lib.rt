// The run file: what stands at a place of its bytes, one record at a time.
#![tactic(auto)]

ghost use Rattle.std.specs.Prelude.{◌≡◌, ◌+◌, ◌-◌, ◌≤◌, ◌<◌, length, drop};
ghost use Rattle.laws.specs.Bytes.{word};
ghost use Rattle.script.specs.Step.{fault_number, complete, allowed_if, step_decoded, step_of, bytes_of};
ghost use Rattle.script.specs.File.{size_of, count_of, change_of, end_of};
ghost use Rattle.script.specs.Machinery.Cursor.{on, stays, refused, step_from, at_step, changes_begun, steps_begun, changed, step_read, begun, recorded, start_of, next_of};
ghost use Rattle.script.specs.Machinery.Block.{block_steps, block_len, block_from};

// A step of the run, with its fields as 01 lists them.
#[derive(Clone, Copy)]
pub enum Step {
    Tick,
    Write(u8, u8),
    Expand(u8),
    Controls(u8, u8, u16),
    Late(u8),
    Borders,
    Bank(u8),
    Control1(u8),
    Control2(u8),
}

// Why a record is refused: the file ends in it, a field is not allowed, its kind is retired.
#[derive(Clone, Copy, PartialEq, Eq)]
pub enum Fault {
    Early,
    NotAllowed,
    Retired,
}

// A change of a memory: the byte that is put, and where.
#[derive(Clone, Copy)]
pub struct Changed {
    pub address: u16,
    pub value: u8,
}

// The parts of a run file; at Start none is begun.
#[derive(Clone, Copy)]
pub enum Part {
    Start,
    Ram,
    Rom,
    Colour,
    Steps,
}

// What a run file says, one after the other: a memory's count and its changes, the count of the steps and the steps, the end.
#[derive(Clone, Copy)]
pub enum Item {
    Changes(Part, u16),
    Change(Part, u16, u8),
    Steps(u16),
    Do(Step),
    Done,
    Refused(u8),
}

// A place of a run file, the part that it lies in, and how many records of that part are left.
#[derive(Clone, Copy)]
pub struct Cursor {
    pub at: usize,
    pub part: Part,
    pub left: u16,
}

// What stands at a cursor, and the cursor past it; at the end and at a fault the cursor stays.
#[derive(Clone, Copy)]
pub struct Found {
    pub item: Item,
    pub cursor: Cursor,
}

// ---- one record

impl Fault {
    // The number by which a file is refused.
    #[tactic(auto, unfolding(crate::specs::Step::fault_number))]
    pub fn number(self) -> u8
        ensures { result ≡ fault_number self }
    {
        match self {
            Fault::Early => 7,
            Fault::NotAllowed => 8,
            Fault::Retired => 10,
        }
    }
}

// Two bytes, low byte first.
fn word(low: u8, high: u8) -> u16
    ensures { result ≡ word low high }
{
    u16::from_le_bytes([low, high])
}

// Whether a record of n bytes is there; where the file ends in it, that is the fault, before its fields are judged.
fn complete(s: &[u8], at: usize, n: usize) -> Result<(), Fault>
    ensures { result ≡ complete n (drop at s.now) }
{
    if s.len().saturating_sub(at) < n {
        return Err(Fault::Early);
    }
    Ok(())
}

#[tactic(auto, unfolding(crate::specs::Step::allowed_if))]
fn allowed_if(fine: bool, step: Step) -> Result<Step, Fault>
    ensures { result ≡ allowed_if fine step }
{
    if fine {
        return Ok(step);
    }
    Err(Fault::NotAllowed)
}

// The five bytes of a step, judged by the kind; a retired kind whatever its fields.
#[tactic(auto, unfolding(crate::specs::Step::step_decoded))]
fn decode(kind: u8, a: u8, b: u8, c: u8, d: u8) -> Result<Step, Fault>
    ensures { result ≡ step_decoded kind a b c d }
{
    match kind {
        0 => allowed_if((a == 0) & (b == 0) & (c == 0) & (d == 0), Step::Tick),
        1 => allowed_if((c == 0) & (d == 0), Step::Write(a, b)),
        2 => allowed_if((b == 0) & (c == 0) & (d == 0), Step::Expand(a)),
        3 => allowed_if(word(c, d) <= 511, Step::Controls(a, b, word(c, d))),
        4 => allowed_if((b == 0) & (c == 0) & (d == 0), Step::Late(a)),
        5 => allowed_if((a == 0) & (b == 0) & (c == 0) & (d == 0), Step::Borders),
        6 => Err(Fault::Retired),
        7 => allowed_if((a <= 3) & (b == 0) & (c == 0) & (d == 0), Step::Bank(a)),
        8 => allowed_if((b == 0) & (c == 0) & (d == 0), Step::Control1(a)),
        9 => allowed_if((b == 0) & (c == 0) & (d == 0), Step::Control2(a)),
        _ => Err(Fault::NotAllowed),
    }
}

// The step at a place.
#[tactic(auto, unfolding(crate::specs::Step::step_of))]
pub fn step_of(s: &[u8], at: usize) -> Result<Step, Fault>
    ensures { result ≡ step_of (drop at s.now) }
{
    complete(s, at, 5)?;
    decode(s[at], s[at + 1], s[at + 2], s[at + 3], s[at + 4])
}

// The five bytes of a step.
#[tactic(auto, unfolding(crate::specs::Step::bytes_of))]
pub fn bytes_of(step: Step) -> [u8; 5]
    ensures { result ≡ bytes_of step }
{
    match step {
        Step::Tick => [0, 0, 0, 0, 0],
        Step::Write(address, value) => [1, address, value, 0, 0],
        Step::Expand(value) => [2, value, 0, 0, 0],
        Step::Controls(ctrl1, ctrl2, compare) => {
            let [low, high] = compare.to_le_bytes();
            [3, ctrl1, ctrl2, low, high]
        }
        Step::Late(value) => [4, value, 0, 0, 0],
        Step::Borders => [5, 0, 0, 0, 0],
        Step::Bank(bank) => [7, bank, 0, 0, 0],
        Step::Control1(value) => [8, value, 0, 0, 0],
        Step::Control2(value) => [9, value, 0, 0, 0],
    }
}

// ---- the memory sections

// The bytes of a memory, and the most changes that its section may have.
pub fn size_of(part: Part) -> u16
    ensures { result ≡ size_of part }
{
    match part {
        Part::Start => 0,
        Part::Ram => 16384,
        Part::Rom => 4096,
        Part::Colour => 1024,
        Part::Steps => 0,
    }
}

// The count at a place.
#[tactic(auto, unfolding(crate::specs::File::count_of))]
pub fn count_of(s: &[u8], at: usize, most: u16) -> Result<u16, Fault>
    ensures { result ≡ count_of most (drop at s.now) }
{
    complete(s, at, 2)?;
    let n = word(s[at], s[at + 1]);
    if most < n {
        return Err(Fault::NotAllowed);
    }
    Ok(n)
}

// The change at a place, of a memory of size bytes.
#[tactic(auto, unfolding(crate::specs::File::change_of))]
pub fn change_of(s: &[u8], at: usize, size: u16) -> Result<Changed, Fault>
    ensures { result ≡ change_of size (drop at s.now) }
{
    complete(s, at, 3)?;
    let address = word(s[at], s[at + 1]);
    if size <= address {
        return Err(Fault::NotAllowed);
    }
    Ok(Changed {
        address,
        value: s[at + 2],
    })
}

// ---- the whole file

// The count of a memory's section.
#[tactic(auto, unfolding(crate::specs::Machinery::Cursor::changes_begun))]
fn changes_begin(s: &[u8], here: Cursor, memory: Part) -> Found
    ensures { result ≡ changes_begun s.now here memory }
{
    match count_of(s, here.at, size_of(memory)) {
        Ok(n) => here.on(2, memory, n, Item::Changes(memory, n)),
        Err(fault) => here.refused(fault),
    }
}

// The count of the steps.
#[tactic(auto, unfolding(crate::specs::Machinery::Cursor::steps_begun))]
fn steps_begin(s: &[u8], here: Cursor) -> Found
    ensures { result ≡ steps_begun s.now here }
{
    match count_of(s, here.at, 65535) {
        Ok(n) => here.on(2, Part::Steps, n, Item::Steps(n)),
        Err(fault) => here.refused(fault),
    }
}

// Nothing stands after the last step.
#[tactic(auto, unfolding(crate::specs::File::end_of))]
fn end_of(s: &[u8], at: usize) -> Item
    ensures { result ≡ end_of (drop at s.now) }
{
    if s.len() <= at {
        return Item::Done;
    }
    Item::Refused(9)
}

// The count after a part whose records are all read, or the end of the file.
#[tactic(auto, unfolding(crate::specs::Machinery::Cursor::begun))]
fn begin(s: &[u8], here: Cursor) -> Found
    ensures { result ≡ begun here.part s.now here }
{
    match here.part {
        Part::Start => changes_begin(s, here, Part::Ram),
        Part::Ram => changes_begin(s, here, Part::Rom),
        Part::Rom => changes_begin(s, here, Part::Colour),
        Part::Colour => steps_begin(s, here),
        Part::Steps => here.stays(end_of(s, here.at)),
    }
}

// A change of a memory.
#[tactic(auto, unfolding(crate::specs::Machinery::Cursor::changed))]
fn change_in(s: &[u8], here: Cursor, memory: Part) -> Found
    requires { 0 < here.left }
    ensures { result ≡ changed s.now here memory }
{
    match change_of(s, here.at, size_of(memory)) {
        Ok(Changed { address, value }) => {
            here.on(
                3,
                memory,
                here.left - 1,
                Item::Change(memory, address, value),
            )
        }
        Err(fault) => here.refused(fault),
    }
}

// A step, the first of the block that is lent for it.
fn step_in(s: &[u8], here: Cursor) -> Found
    requires { 0 < here.left }
    ensures { result ≡ step_read s.now here }
{
    let lent = block(s, here.at, here.left);
    here.in_block(lent, here.at)
}

// The next record of a part.
#[tactic(auto, unfolding(crate::specs::Machinery::Cursor::recorded))]
fn record_in(s: &[u8], here: Cursor) -> Found
    requires { 0 < here.left }
    ensures { result ≡ recorded here.part s.now here }
{
    match here.part {
        Part::Steps => step_in(s, here),
        memory => change_in(s, here, memory),
    }
}

impl Cursor {
    // Where a run file begins.
    #[tactic(auto, unfolding(crate::specs::Machinery::Cursor::start_of))]
    pub fn start() -> Self
        ensures { result ≡ start_of }
    {
        Cursor {
            at: 0,
            part: Part::Start,
            left: 0,
        }
    }

    // What the file says at the cursor.
    #[tactic(auto, unfolding(crate::specs::Machinery::Cursor::next_of))]
    pub fn next(self, s: &[u8]) -> Found
        ensures { result ≡ next_of s.now self }
    {
        if self.left == 0 {
            return begin(s, self);
        }
        record_in(s, self)
    }

    // Whether a step is to come.
    #[tactic(auto, unfolding(crate::specs::Machinery::Cursor::at_step))]
    pub fn at_step(self) -> bool
        ensures { result ≡ at_step self.part self.left }
    {
        match self.part {
            Part::Steps => 0 < self.left,
            _ => false,
        }
    }

    // The step at the cursor, in the steps that are lent from a place on.
    pub fn in_block(self, lent: &[u8], from: usize) -> Found
        requires { (from ≤ self.at) × (0 < self.left) × (length lent.now ≤ 18446744073709551615 - from) }
        ensures { result ≡ step_from self (step_of (drop (self.at - from) lent.now)) }
    {
        match step_at(lent, self.at - from) {
            Ok(step) => self.on(5, Part::Steps, self.left - 1, Item::Do(step)),
            Err(fault) => self.refused(fault),
        }
    }

    // A record was read: the cursor goes past its bytes.
    fn on(self, bytes: usize, part: Part, left: u16, item: Item) -> Found
        requires { self.at + bytes ≤ 18446744073709551615 }
        ensures { result ≡ on self bytes part left item }
    {
        Found {
            item,
            cursor: Cursor {
                at: self.at + bytes,
                part,
                left,
            },
        }
    }

    // The end, or a fault: the cursor stays at it.
    fn stays(self, item: Item) -> Found
        ensures { result ≡ stays self item }
    {
        Found { item, cursor: self }
    }

    // A fault, by its number.
    fn refused(self, fault: Fault) -> Found
        ensures { result ≡ refused self fault }
    {
        self.stays(Item::Refused(fault.number()))
    }
}

// ---- the steps, a block at a time

// How many of the steps that are left are lent at once.
#[tactic(auto, unfolding(crate::specs::Machinery::Block::block_steps))]
pub fn block_steps(left: u16) -> u16
    ensures { result ≡ block_steps left }
{
    left.min(13107)
}

// The bytes of those steps.
pub fn block_len(left: u16) -> usize
    ensures { result ≡ block_len left }
{
    block_steps(left) as usize * 5
}

// The block at a place; where the file ends early, what is there.
pub fn block<'a>(s: &'a [u8], at: usize, left: u16) -> &'a [u8]
    ensures { result.now ≡ block_from left (drop at s.now) }
{
    let rest = &s[at.min(s.len())..];
    &rest[..block_len(left).min(rest.len())]
}

// ---- the reader that holds the lent steps and its place

#[derive(Clone, Copy)]
pub struct Steps<'a> {
    pub script: &'a [u8],
    pub at: usize,
}

// At the first of the lent steps.
pub fn new<'a>(script: &'a [u8]) -> Steps<'a>
    ensures { (result.script ≡ script.entry) × (result.at ≡ 0) }
{
    Steps { script, at: 0 }
}

// The step at its place.
pub fn next<'a>(r: Steps<'a>) -> Result<Step, Fault>
    ensures { result ≡ step_of (drop r.entry.at r.entry.script.now) }
{
    step_of(r.script, r.at)
}

// The same steps, at another place.
pub fn moved<'a>(r: Steps<'a>, at: usize) -> Steps<'a>
    ensures { (result.script ≡ r.entry.script) × (result.at ≡ at) }
{
    Steps { at, ..r }
}

// The step at a place of the lent steps, through the reader.
pub fn step_at(s: &[u8], at: usize) -> Result<Step, Fault>
    ensures { result ≡ step_of (drop at s.now) }
{
    next(moved(new(s), at))
}
