// The forty columns of a line: the matrix line is filled, then the character latch goes over it.
// Nothing is done forty times but the fill of a bad line in display state, and the merge after a forced bad line.
#![tactic(auto)]

ghost use Rattle.std.specs.Prelude.{◌≡◌, Bool, cond, ◌<◌, get_or, set};
ghost use Rattle.access.specs.Merge.{merging, latched};
ghost use Rattle.lines.specs.Columns.{places_of, matrix_line, column_cycle, columns_line};
ghost use Rattle.columns.specs.Columns.{hidden_by, hides, since_in, word_in, lent_word, Clocks, last_shown};

use access::Latch;
use memory::Host;

// Where output is shut off: in column 0, in column 1, and from column 2 on.
#[derive(Clone, Copy)]
pub struct Hidden {
    pub first: bool,
    pub second: bool,
    pub rest: bool,
}

// ---- the matrix line

// A bad line in display state.
#[tactic(auto, unfolding(lines::specs::Columns::places_of))]
fn fill_all(matrix: &mut [u16; 40], base: u16, ptrs: u8, host: &Host<'_>)
    requires { base < 1024 }
    ensures { matrix.new ≡ places_of (lent_word host.now ptrs base) 40 matrix.old }
{
    for place in 0..40u16 {
        matrix[place as usize] = access::matrix_entry(host, ptrs, base + place).word;
    }
}

// One in idle state.
fn fill_first(matrix: &mut [u16; 40], base: u16, ptrs: u8, host: &Host<'_>)
    ensures { matrix.new ≡ set matrix.old 0 (lent_word host.now ptrs base 0) }
{
    matrix[0] = access::matrix_entry(host, ptrs, base).word;
}

#[tactic(auto, unfolding(lines::specs::Columns::matrix_line))]
fn fill_bad(matrix: &mut [u16; 40], shows: bool, base: u16, ptrs: u8, host: &Host<'_>)
    requires { base < 1024 }
    ensures { matrix.new ≡ matrix_line (lent_word host.now ptrs base) Bool.true shows matrix.old }
{
    if shows {
        fill_all(matrix, base, ptrs, host);
        return;
    }
    fill_first(matrix, base, ptrs, host);
}

#[tactic(auto, unfolding(lines::specs::Columns::matrix_line))]
fn fill_line(matrix: &mut [u16; 40], bad: bool, shows: bool, base: u16, ptrs: u8, host: &Host<'_>)
    requires { base < 1024 }
    ensures { matrix.new ≡ matrix_line (lent_word host.now ptrs base) bad shows matrix.old }
{
    if bad {
        fill_bad(matrix, shows, base, ptrs, host);
    }
}

// ---- the character latch

#[tactic(auto, unfolding(crate::specs::Columns::hidden_by))]
fn hidden_in(j: u8, hidden: Hidden) -> bool
    ensures { result ≡ hides hidden j }
{
    match j {
        0 => hidden.first,
        1 => hidden.second,
        _ => hidden.rest,
    }
}

#[tactic(auto, using(crate::proofs::Clocks::column_clock, laws::proofs::Signs::back64))]
fn since_in(j: u8, clock: i64, forced: i64) -> u8
    requires column { j < 40 }
    requires clocks { Clocks clock forced }
    ensures { result ≡ since_in clock forced j }
{
    access::since(arbitration::clock_on(clock, 16 + j), forced)
}

// Column j of a line that may merge.
fn merge_column(
    matrix: &mut [u16; 40],
    j: u8,
    latch: Latch,
    clock: i64,
    forced: i64,
    hidden: Hidden,
) -> Latch
    requires column { j < 40 }
    requires clocks { Clocks clock forced }
    ensures { merging result.ch result.carry matrix.new ≡ latched matrix.old Bool.true (hides hidden j) Bool.false (column_cycle j) (since_in clock forced j) j latch.ch latch.carry }
{
    let shut = hidden_in(j, hidden);
    let f = since_in(j, clock, forced);
    let cycle = laws::wide(16 + j);
    access::latched_char(matrix, true, shut, false, cycle, f, j, latch)
}

#[tactic(auto, using(crate::proofs::Latched::columns_none, crate::proofs::Latched::columns_next))]
fn merge_line(
    matrix: &mut [u16; 40],
    mut latch: Latch,
    clock: i64,
    forced: i64,
    hidden: Hidden,
) -> Latch
    requires { Clocks clock forced }
    ensures { merging result.ch result.carry matrix.new ≡ columns_line Bool.true Bool.false (hides hidden) (since_in clock forced) 40 (merging latch.ch latch.carry matrix.old) }
{
    for j in 0..40 {
        latch = merge_column(matrix, j, latch, clock, forced, hidden);
    }
    latch
}

// The character that is shown last, where nothing merges: kept where output is shut off, 0 in idle state.
#[tactic(auto, unfolding(laws::specs::Pick::pick))]
fn shown_last(matrix: &[u16; 40], ch: u16, shows: bool, hidden: Hidden) -> u16
    ensures { result ≡ last_shown hidden.first hidden.second hidden.rest ch (cond shows (get_or matrix.now 0 0) 0) (cond shows (get_or matrix.now 1 0) 0) (cond shows (get_or matrix.now 39 0) 0) }
{
    let zeroth = laws::pick(shows, matrix[0], 0);
    let next = laws::pick(shows, matrix[1], 0);
    let last = laws::pick(shows, matrix[39], 0);
    let one = laws::pick(hidden.first, ch, zeroth);
    let two = laws::pick(hidden.second, one, next);
    laws::pick(hidden.rest, two, last)
}

// Forty cycles after a forced bad line nothing merges any more, and the first column is the soonest.
#[tactic(auto, using(crate::proofs::Latched::quiet, crate::proofs::Clocks::all_late))]
fn latch_line(
    matrix: &mut [u16; 40],
    latch: Latch,
    shows: bool,
    plain: bool,
    clock: i64,
    forced: i64,
    hidden: Hidden,
) -> Latch
    requires { Clocks clock forced }
    ensures { merging result.ch result.carry matrix.new ≡ columns_line shows plain (hides hidden) (since_in clock forced) 40 (merging latch.ch latch.carry matrix.old) }
{
    let f = since_in(0, clock, forced);
    if shows & !plain & (f < 40) {
        return merge_line(matrix, latch, clock, forced, hidden);
    }
    let ch = shown_last(matrix, latch.ch, shows, hidden);
    Latch { ch, ..latch }
}

// The matrix line and the latch after the forty columns.
pub fn columns(
    matrix: &mut [u16; 40],
    latch: Latch,
    bad: bool,
    shows: bool,
    plain: bool,
    base: u16,
    clock: i64,
    forced: i64,
    hidden: Hidden,
    ptrs: u8,
    host: &Host<'_>,
) -> Latch
    requires base { base < 1024 }
    requires clocks { Clocks clock forced }
    ensures { merging result.ch result.carry matrix.new ≡ columns_line shows plain (hidden_by hidden.first hidden.second hidden.rest) (since_in clock forced) 40 (merging latch.ch latch.carry (matrix_line (word_in host.now.memory.ram.now host.now.memory.rom.now host.now.colour.now host.now.memory.bank ptrs base) bad shows matrix.old)) }
{
    fill_line(matrix, bad, shows, base, ptrs, host);
    latch_line(matrix, latch, shows, plain, clock, forced, hidden)
}
