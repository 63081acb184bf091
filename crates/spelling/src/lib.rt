// The words of a capture: whether two are the same, which signal a name is, the digits of a value and of a time.
#![tactic(auto)]

ghost use Rattle.std.specs.Prelude.{◌≡◌, ◌||◌, not, [], ◌+◌, ◌*◌, ◌<◌, ◌≤◌, eqb, drop};
ghost use Rattle.grammar.specs.Words.{same, lower, name_of};
ghost use Rattle.grammar.specs.Signals.{which_of, size_of, width_of, full_of};
ghost use Rattle.grammar.specs.Values.{is_bit, is_unknown, shifted, none, broken, above, known_on, hidden_on, digit_on, digits_from};
ghost use Rattle.grammar.specs.Times.{grown, time_by, time_on, time_from, time_of};

use grammar::Digits;

// ---- words

pub fn same(a: &[u8], b: &[u8]) -> bool
    ensures { result ≡ same a.now b.now }
{
    a == b
}

// A capital as a small letter.
#[tactic(auto, unfolding(grammar::specs::Words::lower))]
pub fn lower(b: u8) -> u8
    ensures { result ≡ lower b }
{
    b.to_ascii_lowercase()
}

// Whether a name ends here: with the word, or at a `[`.
#[tactic(auto, using(crate::proofs::Alike::ends_at, crate::proofs::Alike::ends_over))]
fn ends(word: &[u8], at: usize) -> bool
    ensures { result ≡ same (name_of (drop at word.now)) [] }
{
    match word.get(at) {
        Some(b) => *b == b'[',
        None => true,
    }
}

fn differs(b: u8, letter: u8) -> bool
    ensures { result ≡ (eqb b 91 || not (eqb (lower b) letter)) }
{
    (b == b'[') | (lower(b) != letter)
}

fn named(word: &[u8], name: &[u8]) -> bool
    ensures { result ≡ same (name_of word.now) name.now }
{
    if word.len() < name.len() {
        return false;
    }
    for (b, letter) in word.iter().zip(name) {
        if differs(*b, *letter) {
            return false;
        }
    }
    ends(word, name.len())
}

// Which of the eight a name is; 8 for another.
#[tactic(auto, unfolding(grammar::specs::Signals::which_of, line::specs::Text::ascii))]
pub fn which_of(word: &[u8]) -> u8
    ensures { result ≡ which_of word.now }
{
    if named(word, b"cycle") {
        return 0;
    }
    if named(word, b"raster") {
        return 1;
    }
    if named(word, b"ba") {
        return 2;
    }
    if named(word, b"aec") {
        return 3;
    }
    if named(word, b"dma") {
        return 4;
    }
    if named(word, b"rc") {
        return 5;
    }
    if named(word, b"vc") {
        return 6;
    }
    if named(word, b"irq") {
        return 7;
    }
    8
}

// A size's text as the number, where it is one of the eight's; else 0.
#[tactic(auto, unfolding(grammar::specs::Signals::size_of, line::specs::Text::ascii))]
pub fn size_of(word: &[u8]) -> u8
    ensures { result ≡ size_of word.now }
{
    if same(word, b"1") {
        return 1;
    }
    if same(word, b"3") {
        return 3;
    }
    if same(word, b"7") {
        return 7;
    }
    if same(word, b"8") {
        return 8;
    }
    if same(word, b"9") {
        return 9;
    }
    if same(word, b"10") {
        return 10;
    }
    0
}

// The size of each of the eight.
#[tactic(auto, unfolding(grammar::specs::Signals::width_of))]
pub fn width_of(which: u8) -> u8
    ensures { result ≡ width_of which }
{
    match which {
        0 => 7,
        1 => 9,
        4 => 8,
        5 => 3,
        6 => 10,
        _ => 1,
    }
}

// All its bits.
#[tactic(auto, unfolding(grammar::specs::Signals::full_of))]
pub fn full_of(which: u8) -> u16
    ensures { (result ≡ full_of which) × (result ≤ 1023) }
{
    match which {
        0 => 127,
        1 => 511,
        4 => 255,
        5 => 7,
        6 => 1023,
        _ => 1,
    }
}

// ---- digits

pub fn is_bit(b: u8) -> bool
    ensures { result ≡ is_bit b }
{
    matches!(b, b'0' | b'1')
}

pub fn is_unknown(b: u8) -> bool
    ensures { result ≡ is_unknown b }
{
    matches!(lower(b), b'x' | b'z' | b'u' | b'w' | b'l' | b'h' | b'-')
}

fn shifted(bits: u16, bit: u16) -> u16
    requires { bit ≤ 1 }
    ensures { result ≡ shifted bits bit }
{
    bits % 32768 * 2 + bit
}

// No digit: nothing is known.
pub fn none() -> Digits
    ensures { result ≡ none }
{
    Digits {
        value: 0,
        unknown: 65535,
        ones: 0,
        fine: true,
    }
}

// What is no value of ours.
pub fn broken() -> Digits
    ensures { result ≡ broken }
{
    Digits {
        value: 0,
        unknown: 0,
        ones: 0,
        fine: false,
    }
}

// What is unknown after a 0 or a 1: nothing above a first one.
#[tactic(auto, unfolding(grammar::specs::Values::above))]
fn above(ones: u16, unknown: u16) -> u16
    ensures { result ≡ above ones unknown }
{
    if ones == 0 {
        return 0;
    }
    shifted(unknown, 0)
}

// A 0 or a 1 more.
fn known(d: Digits, b: u8) -> Digits
    ensures { result ≡ known_on d b }
{
    Digits {
        value: shifted(d.value, u16::from(b % 2)),
        unknown: above(d.ones, d.unknown),
        ones: shifted(d.ones, 1),
        ..d
    }
}

// An unknown digit more.
fn hidden(d: Digits) -> Digits
    ensures { result ≡ hidden_on d }
{
    Digits {
        value: shifted(d.value, 0),
        unknown: shifted(d.unknown, 1),
        ones: shifted(d.ones, 1),
        ..d
    }
}

// A digit more.
#[tactic(auto, unfolding(grammar::specs::Values::digit_on))]
fn digit(d: Digits, b: u8) -> Digits
    ensures { result ≡ digit_on d b }
{
    if 1022 < d.ones {
        return broken();
    }
    if is_bit(b) {
        return known(d, b);
    }
    if is_unknown(b) {
        return hidden(d);
    }
    broken()
}

// A value's digits.
pub fn digits_of(text: &[u8]) -> Digits
    ensures { result ≡ digits_from none text.now }
{
    let mut d = none();
    for b in text {
        d = digit(d, *b);
    }
    d
}

// ---- a time

// A digit more; none where 64 bits have no room for it.
#[tactic(auto, unfolding(grammar::specs::Times::grown))]
fn on(t: u64, digit: u64) -> Option<u64>
    requires { digit < 10 }
    ensures { result ≡ grown t digit }
{
    t.checked_mul(10)?.checked_add(digit)
}

#[tactic(auto, unfolding(grammar::specs::Times::grown, grammar::specs::Times::time_by, grammar::specs::Times::time_on))]
fn time_digit(t: Result<u64, u64>, b: u8) -> Result<u64, u64>
    ensures { result ≡ time_on t b }
{
    if !b.is_ascii_digit() {
        return Err(0);
    }
    let digit = (b - 48) as u64;
    match t {
        Ok(t) => on(t, digit).ok_or(0),
        Err(t) => Err(on(t, digit).unwrap_or(0)),
    }
}

// What a text's digits make of a time so far.
fn time_from(start: Result<u64, u64>, text: &[u8]) -> Result<u64, u64>
    ensures { result ≡ time_from start text.now }
{
    let mut t = start;
    for b in text {
        t = time_digit(t, *b);
    }
    t
}

// A time's digits; where they are no time, what the last of them make of 0.
#[tactic(auto, unfolding(grammar::specs::Times::time_of))]
pub fn time_of(text: &[u8]) -> Result<u64, u64>
    ensures { result ≡ time_of text.now }
{
    if text.is_empty() {
        return time_from(Err(0), text);
    }
    time_from(Ok(0), text)
}
