// Lines beside their ticks: from a seed it makes accepted states at the last cycle of a line, with the corners of a line among them, and
// works each through one to three lines twice, by lines as a whole and by ticks called one by one. The two scenes must be alike, byte for
// byte. For each kind it tells how many states there were, how many of them are accepted and how many ended alike, then the first place
// of the first few that did not, and how often each corner was met.
#![tactic(auto)]

ghost use Rattle.std.specs.Prelude.{◌≡◌, ◌<◌, ◌≤◌, length};

use chip::Chip;
use streams::STDOUT_FILENO;

const STATES: u64 = 1500;

// ---- dice

fn rolled(x: u64) -> u64 {
    let a = x ^ (x << 13);
    let b = a ^ (a >> 7);
    b ^ (b << 17)
}

// A byte out of the middle of a die.
fn byte(x: u64) -> u8 {
    (x / 65536 % 256) as u8
}

fn fill(bytes: &mut [u8], seed: u64) -> u64 {
    let mut x = seed;
    for place in bytes.iter_mut() {
        x = rolled(x);
        *place = byte(x);
    }
    x
}

fn one_in(n: u64, x: u64) -> bool
    requires { 0 < n }
{
    x / 256 % n == 0
}

// ---- the bytes of a scene

fn low(v: u64) -> u8 {
    (v % 256) as u8
}

// The low two bytes of a number, the low one first.
fn word_bytes(v: u64) -> [u8; 2] {
    ((v % 65536) as u16).to_le_bytes()
}

fn head(body: &mut [u8; 311], kind: u8) {
    body[..4].copy_from_slice(b"NPS\x05");
    body[4..6].copy_from_slice(&schedule::last_cycle(kind).to_le_bytes());
    body[308] = kind;
    body[309] %= 64;
}

// The flags of the beam, the interrupt and the border, of the bus, the rows and the frame, which are 0 or 1.
fn flags(body: &mut [u8; 311]) {
    for at in [
        8, 9, 11, 12, 13, 58, 59, 60, 61, 62, 257, 258, 259, 260, 261, 262, 265, 271, 272, 273,
    ] {
        body[at] %= 2;
    }
}

// A counter from -1 to 3, as a byte.
fn waits(b: u8) -> u8 {
    match b % 5 {
        4 => 255,
        n => n,
    }
}

// A place of the forty, or none.
fn pending(b: u8) -> u8 {
    if b < 128 { b % 40 } else { 255 }
}

// What is held to a range: VC, RC, VMLI, the modes, the AEC counter, the pending place.
fn counters(body: &mut [u8; 311]) {
    body[252] %= 4;
    body[254] %= 4;
    body[255] %= 8;
    body[256] %= 41;
    body[263] %= 8;
    body[264] %= 8;
    body[274] = waits(body[274]);
    body[307] = pending(body[307]);
}

// A sprite's number, MC and base, which is often near its last row.
fn sprite(body: &mut [u8; 311], k: usize, x: u64)
    requires { k < 8 }
{
    let at = 75 + 12 * k;
    body[at] = low(k as u64);
    body[at + 2] %= 64;
    body[at + 3] %= 64;
    body[at + 4] = 0;
    if one_in(4, x) {
        body[at + 2] = 60 + body[at + 2] % 4;
    }
    if one_in(3, x) {
        body[at + 3] = 60 + body[at + 3] % 4;
    }
}

// A sprite's Y: often the line's that begins, and 0, which meets lines 0 and 256.
fn height(body: &mut [u8; 311], k: usize, line: u64, x: u64)
    requires { k < 8 }
{
    let y = match x / 256 % 4 {
        0 => low(line),
        1 => 0,
        _ => byte(x),
    };
    body[22 + k] = y;
}

fn sprites(body: &mut [u8; 311], line: u64, seed: u64) -> u64 {
    let mut x = seed;
    for k in 0..8 {
        x = rolled(x);
        sprite(body, k, x);
        x = rolled(x);
        height(body, k, line, x);
    }
    x
}

// ---- the corners of a line

// The line before: the frame's last one, those at which something begins or ends, and any.
fn before(last: u64, x: u64) -> u64
    requires { last < 65536 }
{
    match x / 256 % 16 {
        0 | 1 => last,
        2 | 3 => 0x2F,
        4 => 0x30,
        5 => 0x32,
        6 => 0x36,
        7 => 0xF6,
        8 => 0xFA,
        _ => x / 4096 % (last + 1),
    }
}

fn compared(old: u64, line: u64, x: u64) -> u64 {
    match x / 256 % 4 {
        0 => 0,
        1 => line % 512,
        2 => x / 4096 % 512,
        _ => old % 512,
    }
}

fn edge(line: u64, usual: u64, x: u64) -> u64 {
    match x / 256 % 8 {
        0 => 0,
        1 => line,
        2 => x / 4096 % 65536,
        3 => 65535,
        _ => usual,
    }
}

// The compare line and the border's, all often the line's own; the compare line also the one before, which a frame's end does not leave.
fn compares(body: &mut [u8; 311], old: u64, line: u64, seed: u64) -> u64 {
    let x = rolled(seed);
    body[52..54].copy_from_slice(&word_bytes(compared(old, line, x)));
    let y = rolled(x);
    body[65..67].copy_from_slice(&word_bytes(edge(line, 0x33 + y / 65536 % 2 * 4, y)));
    let z = rolled(y);
    body[67..69].copy_from_slice(&word_bytes(edge(line, 0xF7 + z / 65536 % 2 * 4, z)));
    z
}

// Every other line is a bad one, where a line may be; every fourth frame flag stays; half of the rows are the first.
fn bad(body: &mut [u8; 311], line: u64, seed: u64) -> u64 {
    let x = rolled(seed);
    if one_in(2, x) {
        body[50] = (body[50] & 0xE0) | 16 | low(line % 8);
        body[271] = 1;
    }
    if !one_in(4, x / 2) {
        body[272] = 0;
    }
    if one_in(2, x / 8) {
        body[255] = 0;
    }
    x
}

// Few sprites fetch, and few wait to be cleared.
fn masks(body: &mut [u8; 311], seed: u64) -> u64 {
    let x = rolled(seed);
    if one_in(3, x) {
        body[71] = 0;
    }
    if one_in(4, x / 8) {
        body[71] = 1u8 << (x / 65536 % 8);
    }
    if one_in(2, x / 64) {
        body[70] = 0;
    }
    x
}

// The forced clock is in the line or near it, or any.
fn clocks(body: &mut [u8; 311], seed: u64) -> u64 {
    let x = rolled(seed);
    let clock = 1000 + x / 256 % 1099511627776;
    body[299..307].copy_from_slice(&clock.to_le_bytes());
    let y = rolled(x);
    let near = clock - 60 + y / 4096 % 240;
    let forced = if one_in(2, y) { near } else { y / 4096 };
    body[291..299].copy_from_slice(&forced.to_le_bytes());
    y
}

// A scene of this kind at the last cycle of its line.
fn made(body: &mut [u8; 311], kind: u8, seed: u64) -> u64 {
    let a = fill(body, seed);
    head(body, kind);
    flags(body);
    counters(body);
    let b = rolled(a);
    let line = before(u64::from(schedule::last_line(kind)), b);
    body[6..8].copy_from_slice(&word_bytes(line));
    let next = more(line, true);
    let c = sprites(body, next, b);
    let d = compares(body, line, next, c);
    let e = bad(body, next, d);
    let f = masks(body, e);
    clocks(body, f)
}

// ---- the two of them

// What the host lends.
#[derive(Clone, Copy)]
struct Memories<'a> {
    ram: &'a [u8],
    rom: &'a [u8],
    colour: &'a [u8],
}

fn single(chip: Chip, memories: Memories<'_>, bank: u8) -> Chip {
    sequencer::tick(chip, memories.ram, memories.rom, memories.colour, bank).chip
}

fn one_by_one(chip: Chip, memories: Memories<'_>, bank: u8, n: u64) -> Chip {
    let mut at = chip;
    for _ in 0..n {
        at = single(at, memories, bank);
    }
    at
}

fn as_a_whole(chip: Chip, memories: Memories<'_>, bank: u8, n: u64) -> Chip {
    if n == 1 {
        return sequencer::line(chip, memories.ram, memories.rom, memories.colour, bank).chip;
    }
    sequencer::lines(chip, memories.ram, memories.rom, memories.colour, bank, n).chip
}

// The first place at which two scenes differ.
fn first_apart(a: &[u8; 311], b: &[u8; 311]) -> Option<usize> {
    a.iter().zip(b.iter()).position(|(x, y)| x != y)
}

// The ticks of one line, of two or of three.
fn ticks_of(n: u64, last: u16) -> u64 {
    let cycles = u64::from(last);
    match n {
        1 => cycles,
        2 => cycles + cycles,
        _ => cycles + cycles + cycles,
    }
}

// Where the lines as a whole and the ticks one by one end in scenes that are not alike.
fn apart(chip: Chip, kind: u8, memories: Memories<'_>, bank: u8, n: u64) -> Option<usize> {
    let whole = as_a_whole(chip, memories, bank, n);
    let ticks = ticks_of(n, schedule::last_cycle(kind));
    let ticked = one_by_one(chip, memories, bank, ticks);
    let mut first = [0u8; 311];
    let mut second = [0u8; 311];
    scene::encode(whole, &mut first);
    scene::encode(ticked, &mut second);
    first_apart(&first, &second)
}

// ---- what is told

fn more(n: u64, met: bool) -> u64 {
    n.wrapping_add(u64::from(met))
}

// Whether the line that begins is a bad one.
fn is_bad(body: &[u8; 311], line: u64) -> bool {
    let den = body[50] / 16 % 2 == 1;
    let latch = if line == 0x30 { den } else { body[271] == 1 };
    latch & (0x30 <= line) & (line <= 0xF7) & (low(line % 8) == body[50] % 8)
}

fn word(body: &[u8; 311], at: usize) -> u64
    requires { at < 310 }
    ensures { result < 65536 }
{
    u64::from(u16::from_le_bytes([body[at], body[at + 1]]))
}

// How often each corner was met.
#[derive(Clone, Copy, Default)]
struct Met {
    frame_end: u64,
    frame_flag: u64,
    line_30: u64,
    bad: u64,
    no_rise: u64,
    against: u64,
    crunch: u64,
    forced: u64,
    mode: u64,
    place: u64,
    transition: u64,
    dma: u64,
}

// A clock by its low six bytes.
fn clock_at(body: &[u8; 311], at: usize) -> u64
    requires { at < 305 }
    ensures { result < 281474976710656 }
{
    let a = word(body, at);
    let b = word(body, at + 2);
    let c = word(body, at + 4);
    a + b * 65536 + c * 4294967296
}

// Whether the forced clock is one of the line's.
fn is_forced(body: &[u8; 311], cycle: u64) -> bool {
    let clock = clock_at(body, 299);
    let forced = clock_at(body, 291);
    if forced <= clock {
        return false;
    }
    (forced - clock - 1) / 2 < cycle
}

fn tally(met: Met, body: &[u8; 311], kind: u8) -> Met {
    let last = u64::from(schedule::last_line(kind));
    let raster = word(body, 6);
    let bad = is_bad(body, more(raster, true));
    let low = body[257] == 1;
    Met {
        frame_end: more(met.frame_end, raster == last),
        frame_flag: more(met.frame_flag, (raster != last) & (body[272] == 1)),
        line_30: more(met.line_30, raster == 0x2F),
        bad: more(met.bad, bad),
        no_rise: more(met.no_rise, bad & (body[11] == 1) & (body[260] == 0)),
        against: more(met.against, (body[274] == 3) == low),
        crunch: more(met.crunch, body[70] != 0),
        forced: more(
            met.forced,
            is_forced(body, u64::from(schedule::last_cycle(kind))),
        ),
        mode: more(met.mode, body[265] == 1),
        place: more(met.place, body[307] != 255),
        transition: more(met.transition, body[261] == 1),
        dma: more(met.dma, body[71] != 0),
    }
}

fn say(words: &[u8], n: u64) {
    io::write_all(STDOUT_FILENO, words);
    io::print_decimal(STDOUT_FILENO, n);
}

fn tell_corners(met: Met) {
    say(b"  frame end ", met.frame_end);
    say(b"\n  frame flag on another line ", met.frame_flag);
    say(b"\n  line 0x30 ", met.line_30);
    say(b"\n  bad line ", met.bad);
    say(b"\n  bad line without a rise, idle ", met.no_rise);
    say(b"\n  AEC counter against the BA flag ", met.against);
}

fn tell_others(met: Met) {
    say(b"\n  crunch pending ", met.crunch);
    say(b"\n  forced clock in the line ", met.forced);
    say(b"\n  mode changing ", met.mode);
    say(b"\n  place pending ", met.place);
    say(b"\n  transition pending ", met.transition);
    say(b"\n  sprites with DMA ", met.dma);
    io::write_all(STDOUT_FILENO, b"\n");
}

// A state that did not end alike: its number, the lines, and the scene's byte.
fn tell_apart(number: u64, n: u64, place: u64) {
    say(b"  state ", number);
    say(b" after lines ", n);
    say(b": apart at byte ", place);
    io::write_all(STDOUT_FILENO, b"\n");
}

// What was found of a kind so far.
#[derive(Clone, Copy, Default)]
struct Found {
    accepted: u64,
    alike: u64,
    met: Met,
}

// The first few that do not end alike are told.
fn compared_with(
    found: Found,
    chip: Chip,
    body: &[u8; 311],
    kind: u8,
    memories: Memories<'_>,
    x: u64,
    number: u64,
) -> Found {
    let n = 1 + x / 4096 % 3;
    let bank = low(x / 256 % 4);
    let place = apart(chip, kind, memories, bank, n);
    if let Some(place) = place
        && found.alike.wrapping_add(5) > found.accepted
    {
        tell_apart(number, n, place as u64);
    }
    Found {
        accepted: more(found.accepted, true),
        alike: more(found.alike, place.is_none()),
        met: tally(found.met, body, kind),
    }
}

fn one(
    found: Found,
    body: &[u8; 311],
    kind: u8,
    memories: Memories<'_>,
    x: u64,
    number: u64,
) -> Found {
    let Ok(chip) = scene::decode_newest(body) else {
        return found;
    };
    if !chip::is_accepted(chip) {
        return found;
    }
    compared_with(found, chip, body, kind, memories, x, number)
}

fn kind_of(kind: u8, memories: Memories<'_>, seed: u64) {
    let mut x = seed;
    let mut found = Found::default();
    for i in 0..STATES {
        let mut body = [0u8; 311];
        x = made(&mut body, kind, x);
        found = one(found, &body, kind, memories, x, i);
    }
    say(b"states ", STATES);
    say(b", accepted ", found.accepted);
    say(b", alike ", found.alike);
    io::write_all(STDOUT_FILENO, b"\n");
    tell_corners(found.met);
    tell_others(found.met);
}

fn main() {
    let mut ram = [0u8; 16384];
    let mut rom = [0u8; 4096];
    let mut colour = [0u8; 1024];
    let a = fill(&mut ram, 88172645463325252);
    let b = fill(&mut rom, a);
    let c = fill(&mut colour, b);
    let memories = Memories {
        ram: &ram,
        rom: &rom,
        colour: &colour,
    };
    io::write_all(STDOUT_FILENO, b"6569\n");
    kind_of(schedule::KIND_6569, memories, c);
    io::write_all(STDOUT_FILENO, b"6567R8\n");
    kind_of(schedule::KIND_6567R8, memories, c);
}
