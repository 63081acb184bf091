// What a capture comes to, as text in a lent buffer: how many signals, a line a tick, a fault.
#![tactic(auto)]

ghost use Rattle.std.specs.Prelude.{◌≡◌, ◌+◌, ◌≤◌, length};
ghost use Rattle.line.specs.Text.{Written};
ghost use Rattle.printout.specs.Text.{digit_of, bits_of, value_text, beam_text, rest_text, tick_text, signals_text, refused_text};

use intake::Record;

// ---- text at a place of a buffer; each answers the place after it

// A binary digit; `x` where it is unknown.
fn digit(value: u16, unknown: u16) -> u8
    ensures { result ≡ digit_of value unknown }
{
    if unknown % 2 == 1 {
        return b'x';
    }
    (48 + value % 2) as u8
}

// So many binary digits.
fn bits(out: &mut [u8], at: usize, width: u8, value: u16, unknown: u16) -> usize
    requires { at + width ≤ length out.old }
    ensures { (result ≤ at + width) × Written out.old at (bits_of width value unknown) out.new result }
{
    if width == 0 {
        return at;
    }
    let a = bits(out, at, width - 1, value / 2, unknown / 2);
    line::byte(out, a, digit(value, unknown))
}

// A value: in decimal, or all its digits where one is unknown.
fn value(out: &mut [u8], at: usize, width: u8, value: u16, unknown: u16) -> usize
    requires { (at + 11 ≤ length out.old) × (width ≤ 10) }
    ensures { (result ≤ at + 11) × Written out.old at (value_text width value unknown) out.new result }
{
    let a = line::byte(out, at, b' ');
    if unknown == 0 {
        return line::digits(out, a, 10, 4, u64::from(value));
    }
    bits(out, a, width, value, unknown)
}

// The first four signals.
fn beam(out: &mut [u8], at: usize, r: Record) -> usize
    requires { at + 44 ≤ length out.old }
    ensures { (result ≤ at + 44) × Written out.old at (beam_text r) out.new result }
{
    let a = value(out, at, 7, r.values[0], r.unknown[0]);
    let b = value(out, a, 9, r.values[1], r.unknown[1]);
    let c = value(out, b, 1, r.values[2], r.unknown[2]);
    value(out, c, 1, r.values[3], r.unknown[3])
}

// The last four.
fn rest(out: &mut [u8], at: usize, r: Record) -> usize
    requires { at + 44 ≤ length out.old }
    ensures { (result ≤ at + 44) × Written out.old at (rest_text r) out.new result }
{
    let a = value(out, at, 8, r.values[4], r.unknown[4]);
    let b = value(out, a, 3, r.values[5], r.unknown[5]);
    let c = value(out, b, 10, r.values[6], r.unknown[6]);
    value(out, c, 1, r.values[7], r.unknown[7])
}

// ---- the lines

// A tick: `T cycle raster ba aec dma rc vc irq`.
pub fn tick(out: &mut [u8], at: usize, r: Record) -> usize
    requires { at + 109 ≤ length out.old }
    ensures { (result ≤ at + 109) × Written out.old at (tick_text r) out.new result }
{
    let a = line::digits(out, at, 10, 19, r.time);
    let b = beam(out, a, r);
    let c = rest(out, b, r);
    line::byte(out, c, b'\n')
}

// `signals K`.
pub fn signals(out: &mut [u8], at: usize, n: u8) -> usize
    requires { at + 14 ≤ length out.old }
    ensures { (result ≤ at + 14) × Written out.old at (signals_text n) out.new result }
{
    let a = line::text(out, at, b"signals ");
    line::put(out, a, u16::from(n), b'\n')
}

// `refused R P`.
pub fn refused(out: &mut [u8], at: usize, number: u8, place: u64) -> usize
    requires { at + 35 ≤ length out.old }
    ensures { (result ≤ at + 35) × Written out.old at (refused_text number place) out.new result }
{
    let a = line::text(out, at, b"refused ");
    let b = line::put(out, a, u16::from(number), b' ');
    let c = line::digits(out, b, 10, 19, place);
    line::byte(out, c, b'\n')
}
