// The text of a tick on the bus: its place, and each read with its word and its address, in a lent buffer.
#![tactic(auto)]

ghost use Rattle.std.specs.Prelude.{◌≡◌, ◌+◌, ◌≤◌, length};
ghost use Rattle.line.specs.Text.{Written};
ghost use Rattle.ledger.specs.Text.{hex_of, address_of, named, word_of, end_of, read_of, line_of};

use access::{Read, Reads};

// A number's last hexadecimal digit.
#[tactic(auto, unfolding(crate::specs::Text::hex_of))]
fn hex(n: u16) -> u8
    ensures { result ≡ hex_of n }
{
    b"0123456789ABCDEF"[usize::from(n % 16)]
}

// What stands before a read, or ends the line.
fn end(more: bool) -> u8
    ensures { result ≡ end_of more }
{
    if more {
        return b' ';
    }
    b'\n'
}

// Whether a number is a reason's.
#[tactic(auto, unfolding(crate::specs::Text::named))]
fn is_named(reason: u8) -> bool
    ensures { result ≡ named reason }
{
    (1 <= reason) & (reason <= 6)
}

// ---- text at a place of a buffer; each answers the place after it

// An address, and then the byte `end`.
fn address(out: &mut [u8], at: usize, n: u16, end: u8) -> usize
    requires { at + 5 ≤ length out.old }
    ensures { (result ≡ at + 5) × Written out.old at (address_of n end) out.new result }
{
    line::text(
        out,
        at,
        &[hex(n / 4096), hex(n / 256), hex(n / 16), hex(n), end],
    )
}

// A reason's word and a space.
fn word(out: &mut [u8], at: usize, reason: u8) -> usize
    requires { at + 9 ≤ length out.old }
    ensures { (result ≤ at + 9) × Written out.old at (word_of reason) out.new result }
{
    match reason {
        1 => line::text(out, at, b"pointer "),
        2 => line::text(out, at, b"sprite "),
        3 => line::text(out, at, b"matrix "),
        4 => line::text(out, at, b"graphics "),
        5 => line::text(out, at, b"idle "),
        _ => line::text(out, at, b"refresh "),
    }
}

// A read; where the number is no reason's, nothing.
fn read(out: &mut [u8], at: usize, r: Read, end: u8) -> usize
    requires { at + 14 ≤ length out.old }
    ensures { (result ≤ at + 14) × Written out.old at (read_of r end) out.new result }
{
    if is_named(r.reason) {
        let a = word(out, at, r.reason);
        return address(out, a, r.address, end);
    }
    at
}

// A tick's line.
pub fn line(out: &mut [u8], at: usize, cycle: u16, raster: u16, lost: u16, reads: Reads) -> usize
    requires { at + 46 ≤ length out.old }
    ensures { (result ≤ at + 46) × Written out.old at (line_of cycle raster lost reads) out.new result }
{
    let one = is_named(reads.first.reason);
    let two = is_named(reads.second.reason);
    let any = end(one | two);
    let another = end(two);
    let a = line::put(out, at, cycle, b' ');
    let b = line::put(out, a, raster, b' ');
    let c = line::put(out, b, lost, any);
    let d = read(out, c, reads.first, another);
    read(out, d, reads.second, b'\n')
}
