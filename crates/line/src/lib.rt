// The chart's text: a tick's eight numbers, in decimal, in a lent buffer; and the pieces that every text is made of.
#![tactic(auto)]

ghost use Rattle.std.specs.Prelude.{◌≡◌, [], ◌∷◌, ◌+◌, ◌/◌, ◌≤◌, ◌<◌, ◌%◌, length};
ghost use Rattle.calls.specs.Calls.{dma_count};
ghost use Rattle.line.specs.Line.{level_of, numbers_of};
ghost use Rattle.line.specs.Text.{glyph_of, digits_of, text_of, Written, four_of, line_of, steps_of, refused_of};

use chip::Chip;

// A tick's line: 0 is low.
#[derive(Clone, Copy)]
pub struct Eight {
    pub cycle: u16,
    pub raster: u16,
    pub ba: u16,
    pub aec: u16,
    pub dma: u16,
    pub rc: u16,
    pub vc: u16,
    pub irq: u16,
}

fn level(low: bool) -> u16
    ensures { result ≡ level_of low }
{
    if low {
        return 0;
    }
    1
}

// How many sprites have DMA on.
fn sprites(chip: Chip) -> u16
    ensures { result ≡ dma_count chip }
{
    calls::sprite_count(chip) as u16
}

// The eight numbers of a chip after a tick.
#[tactic(auto, unfolding(crate::specs::Line::numbers_of))]
pub fn numbers(chip: Chip) -> Eight
    ensures { result ≡ numbers_of chip }
{
    Eight {
        cycle: chip.side.beam.cycle,
        raster: chip.side.beam.raster,
        ba: level(chip.side.bus.balow),
        aec: level(chip.side.bus.aeclow),
        dma: sprites(chip),
        rc: u16::from(chip.side.rows.rc),
        vc: chip.side.rows.vc,
        irq: u16::from(chip.side.irq.flags % 16),
    }
}

// ---- text at a place of a buffer; each answers the place after it

// A byte.
pub fn byte(out: &mut [u8], at: usize, value: u8) -> usize
    requires { at + 1 ≤ length out.old }
    ensures { (result ≡ at + 1) × Written out.old at (value ∷ []) out.new result }
{
    out[at] = value;
    at + 1
}

// Bytes that are there already.
pub fn text(out: &mut [u8], at: usize, words: &[u8]) -> usize
    requires { at + length words.now ≤ length out.old }
    ensures { (result ≡ at + length words.now) × Written out.old at words.now out.new result }
{
    out[at..at + words.len()].copy_from_slice(words);
    at + words.len()
}

// A number over a base, and its last digit in it. Two and ten stand here as constants, since a division by what is not known costs as much as all the rest.
fn over(n: u64, base: u64) -> u64
    requires { 0 < base }
    ensures { result ≡ n / base }
{
    match base {
        10 => n / 10,
        2 => n / 2,
        _ => n / base,
    }
}

fn digit_in(n: u64, base: u64) -> u64
    requires { 0 < base }
    ensures { result ≡ n % base }
{
    match base {
        10 => n % 10,
        2 => n % 2,
        _ => n % base,
    }
}

// A number in a base, of one digit and at most so many more.
pub fn digits(out: &mut [u8], at: usize, base: u64, more: u16, n: u64) -> usize
    requires { (at + more + 1 ≤ length out.old) × (0 < base) × (base ≤ 10) }
    ensures { (result ≤ at + more + 1) × Written out.old at (digits_of base more n) out.new result }
{
    if (more == 0) | (n < base) {
        return byte(out, at, (48 + digit_in(n, base)) as u8);
    }
    let a = digits(out, at, base, more - 1, over(n, base));
    byte(out, a, (48 + digit_in(n, base)) as u8)
}

// A number's last digit.
fn digit(out: &mut [u8], at: usize, n: u16) -> usize
    requires { at + 1 ≤ length out.old }
    ensures { (result ≡ at + 1) × Written out.old at (glyph_of n ∷ []) out.new result }
{
    byte(out, at, (48 + n % 10) as u8)
}

// The last digit, and then the byte `end`.
fn last(out: &mut [u8], at: usize, n: u16, end: u8) -> usize
    requires { at + 2 ≤ length out.old }
    ensures { (result ≡ at + 2) × Written out.old at (glyph_of n ∷ end ∷ []) out.new result }
{
    let a = digit(out, at, n);
    byte(out, a, end)
}

// A number in decimal, and then the byte `end`; by its length, since a chart has eight of them a tick.
pub fn put(out: &mut [u8], at: usize, n: u16, end: u8) -> usize
    requires { at + 6 ≤ length out.old }
    ensures { (result ≤ at + 6) × Written out.old at (text_of n end) out.new result }
{
    if n < 10 {
        return last(out, at, n, end);
    }
    if n < 100 {
        let a = digit(out, at, n / 10);
        return last(out, a, n, end);
    }
    if n < 1000 {
        let a = digit(out, at, n / 100);
        let b = digit(out, a, n / 10);
        return last(out, b, n, end);
    }
    if n < 10000 {
        let a = digit(out, at, n / 1000);
        let b = digit(out, a, n / 100);
        let c = digit(out, b, n / 10);
        return last(out, c, n, end);
    }
    let a = digit(out, at, n / 10000);
    let b = digit(out, a, n / 1000);
    let c = digit(out, b, n / 100);
    let d = digit(out, c, n / 10);
    last(out, d, n, end)
}

// Four numbers, one space apart.
fn four(out: &mut [u8], at: usize, v: u16, w: u16, x: u16, y: u16, end: u8) -> usize
    requires { at + 24 ≤ length out.old }
    ensures { (result ≤ at + 24) × Written out.old at (four_of v w x y end) out.new result }
{
    let a = put(out, at, v, b' ');
    let b = put(out, a, w, b' ');
    let c = put(out, b, x, b' ');
    put(out, c, y, end)
}

// A tick's line.
pub fn line(out: &mut [u8], at: usize, e: Eight) -> usize
    requires { at + 48 ≤ length out.old }
    ensures { (result ≤ at + 48) × Written out.old at (line_of e) out.new result }
{
    let a = four(out, at, e.cycle, e.raster, e.ba, e.aec, b' ');
    four(out, a, e.dma, e.rc, e.vc, e.irq, b'\n')
}

// The line `steps N`.
pub fn steps(out: &mut [u8], at: usize, n: u16) -> usize
    requires { at + 12 ≤ length out.old }
    ensures { (result ≤ at + 12) × Written out.old at (steps_of n) out.new result }
{
    let a = text(out, at, b"steps ");
    put(out, a, n, b'\n')
}

// The line `refused R K`.
pub fn refused(out: &mut [u8], at: usize, number: u8, done: u16) -> usize
    requires { at + 20 ≤ length out.old }
    ensures { (result ≤ at + 20) × Written out.old at (refused_of number done) out.new result }
{
    let a = text(out, at, b"refused ");
    let b = put(out, a, u16::from(number), b' ');
    put(out, b, done, b'\n')
}
