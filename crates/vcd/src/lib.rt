// The text of a Value Change Dump, piece by piece, in a lent buffer.
#![tactic(auto)]

ghost use Rattle.std.specs.Prelude.{◌≡◌, [], ◌∷◌, ◌++◌, ◌+◌, ◌-◌, ◌≤◌, ◌<◌, ◌%◌, length};
ghost use Rattle.line.specs.Text.{pasted, Written};
ghost use Rattle.vcd.specs.Text.{declarations, digits_of, value_text, mark_text, first_text, later_text, refusal_text, next_time, time_of, piece_of, wave_after, fresh};
ghost use Rattle.vcd.specs.Machinery.Steps.{part_text, beam_text, rest_text};

// A tick's values, in the order of the declarations: 0 is low.
#[derive(Clone, Copy)]
pub struct Record {
    pub cycle: u16,
    pub raster: u16,
    pub ba: u16,
    pub aec: u16,
    pub dma: u16,
    pub rc: u16,
    pub vc: u16,
    pub irq: u16,
}

// A dump on its way: whether a tick is written, its time and its values.
#[derive(Clone, Copy)]
pub struct Wave {
    pub begun: bool,
    pub time: u64,
    pub last: Record,
}

// ---- text at a place of a buffer; each answers the place after it

// A signal of one bit.
fn bit(out: &mut [u8], at: usize, signal: u8, value: u16) -> usize
    requires { (at + 3 ≤ length out.old) × (signal < 8) }
    ensures { (result ≡ at + 3) × Written out.old at ((48 + value % 2) ∷ (65 + signal) ∷ 10 ∷ []) out.new result }
{
    line::text(out, at, &[(48 + value % 2) as u8, 65 + signal, b'\n'])
}

// A signal of several bits.
fn vector(out: &mut [u8], at: usize, signal: u8, more: u16, value: u16) -> usize
    requires { (at + more + 5 ≤ length out.old) × (signal < 8) }
    ensures { (result ≤ at + more + 5) × Written out.old at (98 ∷ (digits_of 2 more value ++ (32 ∷ (65 + signal) ∷ 10 ∷ []))) out.new result }
{
    let a = line::byte(out, at, b'b');
    let b = line::digits(out, a, 2, more, u64::from(value));
    line::text(out, b, &[b' ', 65 + signal, b'\n'])
}

// A signal's line.
fn value(out: &mut [u8], at: usize, signal: u8, bits: u16, v: u16) -> usize
    requires { (at + 14 ≤ length out.old) × (signal < 8) × (0 < bits) × (bits ≤ 10) }
    ensures { (result ≤ at + 14) × Written out.old at (value_text signal bits v) out.new result }
{
    if bits == 1 {
        return bit(out, at, signal, v);
    }
    vector(out, at, signal, bits - 1, v)
}

// The line where it is to be there: at the first tick, and where the value changed.
fn part(out: &mut [u8], at: usize, signal: u8, bits: u16, all: bool, was: u16, v: u16) -> usize
    requires { (at + 14 ≤ length out.old) × (signal < 8) × (0 < bits) × (bits ≤ 10) }
    ensures { (result ≤ at + 14) × Written out.old at (part_text signal bits all was v) out.new result }
{
    if all | (was != v) {
        return value(out, at, signal, bits, v);
    }
    at
}

// ---- a tick's values

// The first four signals.
fn beam(out: &mut [u8], at: usize, all: bool, was: Record, r: Record) -> usize
    requires { at + 56 ≤ length out.old }
    ensures { (result ≤ at + 56) × Written out.old at (beam_text all was r) out.new result }
{
    let a = part(out, at, 0, 7, all, was.cycle, r.cycle);
    let b = part(out, a, 1, 9, all, was.raster, r.raster);
    let c = part(out, b, 2, 1, all, was.ba, r.ba);
    part(out, c, 3, 1, all, was.aec, r.aec)
}

// The last four.
fn rest(out: &mut [u8], at: usize, all: bool, was: Record, r: Record) -> usize
    requires { at + 56 ≤ length out.old }
    ensures { (result ≤ at + 56) × Written out.old at (rest_text all was r) out.new result }
{
    let a = part(out, at, 4, 8, all, was.dma, r.dma);
    let b = part(out, a, 5, 3, all, was.rc, r.rc);
    let c = part(out, b, 6, 10, all, was.vc, r.vc);
    part(out, c, 7, 1, all, was.irq, r.irq)
}

fn values(out: &mut [u8], at: usize, all: bool, was: Record, r: Record) -> usize
    requires { at + 112 ≤ length out.old }
    ensures { (result ≤ at + 112) × Written out.old at (beam_text all was r ++ rest_text all was r) out.new result }
{
    let a = beam(out, at, all, was, r);
    rest(out, a, all, was, r)
}

// ---- the pieces

// The declarations.
pub fn declare(out: &mut [u8], at: usize) -> usize
    requires { at + 292 ≤ length out.old }
    ensures { (result ≡ at + 292) × (out.new ≡ pasted out.old at declarations) }
{
    line::text(
        out,
        at,
        b"$version Nickelplait $end\n$timescale 1 us $end\n$scope module vic $end\n$var wire 7 A cycle $end\n$var wire 9 B raster $end\n$var wire 1 C ba $end\n$var wire 1 D aec $end\n$var wire 8 E dma $end\n$var wire 3 F rc $end\n$var wire 10 G vc $end\n$var wire 1 H irq $end\n$upscope $end\n$enddefinitions $end\n",
    )
}

// The first tick: every value, at time 0.
fn first(out: &mut [u8], at: usize, r: Record) -> usize
    requires { at + 130 ≤ length out.old }
    ensures { (result ≤ at + 130) × Written out.old at (first_text r) out.new result }
{
    let a = line::text(out, at, b"#0\n$dumpvars\n");
    let b = values(out, a, true, r, r);
    line::text(out, b, b"$end\n")
}

// A time mark.
fn mark(out: &mut [u8], at: usize, time: u64) -> usize
    requires { at + 22 ≤ length out.old }
    ensures { (result ≤ at + 22) × Written out.old at (mark_text time) out.new result }
{
    let a = line::byte(out, at, b'#');
    let b = line::digits(out, a, 10, 19, time);
    line::byte(out, b, b'\n')
}

// A later tick: its time, and the values that changed.
fn later(out: &mut [u8], at: usize, time: u64, was: Record, r: Record) -> usize
    requires { at + 134 ≤ length out.old }
    ensures { (result ≤ at + 134) × Written out.old at (later_text time was r) out.new result }
{
    let a = mark(out, at, time);
    values(out, a, false, was, r)
}

// The comment that ends a run that is refused.
pub fn refused(out: &mut [u8], at: usize, number: u8, done: u16) -> usize
    requires { at + 34 ≤ length out.old }
    ensures { (result ≡ at + length (refusal_text number done)) × (out.new ≡ pasted out.old at (refusal_text number done)) }
{
    let a = line::text(out, at, b"$comment refused ");
    let b = line::put(out, a, u16::from(number), b' ');
    let c = line::put(out, b, done, b' ');
    line::text(out, c, b"$end\n")
}

// ---- tick after tick

pub fn fresh() -> Wave
    ensures { result ≡ fresh }
{
    Wave {
        begun: false,
        time: 0,
        last: Record {
            cycle: 0,
            raster: 0,
            ba: 0,
            aec: 0,
            dma: 0,
            rc: 0,
            vc: 0,
            irq: 0,
        },
    }
}

// One unit later; the last time of 64 bits stays, and no run gets there: the clock refuses before.
#[tactic(auto, unfolding(crate::specs::Text::next_time))]
fn next(time: u64) -> u64
    ensures { result ≡ next_time time }
{
    time.saturating_add(1)
}

// The next tick's time.
fn time(w: Wave) -> u64
    ensures { result ≡ time_of w }
{
    if w.begun {
        return next(w.time);
    }
    0
}

// A tick's piece.
pub fn piece(out: &mut [u8], at: usize, w: Wave, r: Record) -> usize
    requires { at + 134 ≤ length out.old }
    ensures { (result ≡ at + length (piece_of w r)) × (out.new ≡ pasted out.old at (piece_of w r)) }
{
    if w.begun {
        return later(out, at, time(w), w.last, r);
    }
    first(out, at, r)
}

// The dump with that tick written.
pub fn after(w: Wave, r: Record) -> Wave
    ensures { result ≡ wave_after w r }
{
    Wave {
        begun: true,
        time: time(w),
        last: r,
    }
}
