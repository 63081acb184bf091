// The row counters VC, VCBASE, RC and VMLI, the states of the display logic, and the place of the matrix line that waits for the CPU's byte.
#![tactic(auto)]

ghost use Rattle.std.specs.Prelude.{◌≡◌, ◌<◌, Bool};
ghost use Rattle.schedule.specs.Diagram.{happens, graphics_access};
ghost use Rattle.rows.specs.Pending.{place_of, pending_after};
ghost use Rattle.rows.specs.Rows.{fresh, vc_after, vmli_after, rc_after, access_after, display_after, rowed, rows_later};

// The row counters and the states of the display logic.
#[derive(Clone, Copy)]
pub struct Rows {
    pub vc: u16,
    pub vcbase: u16,
    pub rc: u8,
    pub vmli: u8,
    // true is Display, false Idle
    pub display: bool,
    // true is pending, false Stable
    pub transition: bool,
    pub access: bool,
}

// What the display logic does in a cycle, and the numbers that its accesses find.
#[derive(Clone, Copy)]
pub struct Rowed {
    pub rows: Rows,
    pub vc: u16,
    pub vmli: u8,
    pub rc: u8,
    pub graphics: bool,
    pub moves: bool,
    pub waiting: bool,
    pub fetches: bool,
}

// The place of the matrix line whose colour nibble is still to come from the CPU's side of the bus, if there is one.
// It has a record of its own: a place that comes or goes is then no new side.
#[derive(Clone, Copy)]
pub struct Waits {
    pub place: Option<u8>,
}

// The place of the matrix line for a count of VMLI.
#[tactic(auto, unfolding(crate::specs::Pending::place_of))]
pub fn place(vmli: u8) -> u8
    ensures { result ≡ place_of vmli }
{
    if vmli < 40 { vmli } else { vmli % 40 }
}

// An access that finds the bus still the CPU's makes its place pending, in place of an earlier one.
#[tactic(auto, unfolding(crate::specs::Pending::pending_after))]
pub fn next_pending(missed: bool, vmli: u8, old: Waits) -> Waits
    ensures { result ≡ pending_after missed vmli old }
{
    if missed {
        return Waits {
            place: Some(place(vmli)),
        };
    }
    old
}

// VC after k accesses.
#[tactic(auto, unfolding(crate::specs::Rows::vc_after))]
fn vc_after(k: u8, moves: bool, vc: u16) -> u16
    ensures { result ≡ vc_after k moves vc }
{
    if moves {
        return (vc % 1024 + laws::wide(k)) % 1024;
    }
    vc
}

#[tactic(auto, unfolding(crate::specs::Rows::vmli_after))]
fn vmli_after(k: u8, moves: bool, vmli: u8) -> u8
    ensures { result ≡ vmli_after k moves vmli }
{
    if moves {
        return std::num::wrapping_add_u8(vmli, k);
    }
    vmli
}

#[tactic(auto, unfolding(crate::specs::Rows::rc_after))]
fn rc_after(goes: bool, rc: u8) -> u8
    ensures { result ≡ rc_after goes rc }
{
    if goes {
        return (rc % 8 + 1) % 8;
    }
    rc
}

// Character accesses are chosen once a line, and end with it.
#[tactic(auto, unfolding(crate::specs::Rows::access_after))]
fn access_after(chosen: bool, ends: bool, bad: bool, access: bool) -> bool
    ensures { result ≡ access_after chosen ends bad access }
{
    if chosen {
        return bad;
    }
    access & !ends
}

#[tactic(auto, unfolding(crate::specs::Rows::display_after))]
fn display_after(ends: bool, rc: u8, bad: bool, display: bool) -> bool
    ensures { result ≡ display_after ends rc bad display }
{
    if ends {
        return (display & (rc != 7)) | bad;
    }
    display
}

impl Rows {
    #[tactic(auto, unfolding(crate::specs::Rows::fresh))]
    pub fn new() -> Self
        ensures { result ≡ fresh }
    {
        Self {
            vc: 0,
            vcbase: 0,
            rc: 0,
            vmli: 0,
            display: false,
            transition: false,
            access: false,
        }
    }

    // Some ticks on that only count, each with its graphics access.
    pub fn later(self, k: u8) -> Self
        ensures { result ≡ rows_later k self }
    {
        Rows {
            vc: vc_after(k, self.display, self.vc),
            vmli: vmli_after(k, self.display, self.vmli),
            ..self
        }
    }
}

fn turn(rows: Rows, cycle: u16, bad: bool, rising: bool, wraps: bool) -> Rowed
    ensures { result ≡ rowed cycle bad rising wraps rows }
{
    let loads = schedule::vc_load(cycle);
    let vc = laws::pick(loads, rows.vcbase, rows.vc);
    let vmli = laws::pick(loads, 0, rows.vmli);
    let rc = laws::pick(loads & bad, 0, rows.rc);
    let chosen = schedule::access_chosen(cycle);
    let over = schedule::access_ends(cycle);
    let access = access_after(chosen, over, bad, rows.access);
    let graphics = schedule::graphics_access(cycle);
    let display = rows.display | rising;
    let waiting = rows.transition & !chosen;
    let moves = graphics & display & !waiting;
    let fetches = schedule::character_access(cycle) & access;
    let ends = schedule::row_ends(cycle);
    let shows = display_after(ends, rc, bad, display);
    let based = laws::pick(wraps, 0, rows.vcbase);
    let base = laws::pick(ends & (rc == 7), vc, based);
    let next_vc = vc_after(1, moves, vc);
    let next_vmli = vmli_after(1, moves, vmli);
    let next_rc = rc_after(ends & shows, rc);
    let next = Rows {
        vc: next_vc,
        vcbase: base,
        rc: next_rc,
        vmli: next_vmli,
        display: shows,
        transition: waiting & !graphics,
        access,
    };
    Rowed {
        rows: next,
        vc,
        vmli,
        rc,
        graphics,
        moves,
        waiting,
        fetches,
    }
}

// A cycle with a graphics access: nothing is loaded and no row ends.
pub fn turn_lit(rows: Rows, cycle: u16, bad: bool, rising: bool) -> Rowed
    requires { happens graphics_access cycle ≡ Bool.true }
    ensures { result ≡ rowed cycle bad rising Bool.false rows }
{
    let over = schedule::access_ends(cycle);
    let access = rows.access & !over;
    let display = rows.display | rising;
    let moves = display & !rows.transition;
    let next = Rows {
        vc: vc_after(1, moves, rows.vc),
        vmli: vmli_after(1, moves, rows.vmli),
        display,
        transition: false,
        access,
        ..rows
    };
    Rowed {
        rows: next,
        vc: rows.vc,
        vmli: rows.vmli,
        rc: rows.rc,
        graphics: true,
        moves,
        waiting: rows.transition,
        fetches: access,
    }
}

// In most cycles without a graphics access no counter moves.
pub fn turn_dark(rows: Rows, cycle: u16, bad: bool, rising: bool, wraps: bool) -> Rowed
    requires { cycle < 66 }
    ensures { result ≡ rowed cycle bad rising wraps rows }
{
    let still = schedule::still(cycle);
    if !wraps & still {
        let next = Rows {
            display: rows.display | rising,
            ..rows
        };
        return Rowed {
            rows: next,
            vc: rows.vc,
            vmli: rows.vmli,
            rc: rows.rc,
            graphics: false,
            moves: false,
            waiting: rows.transition,
            fetches: false,
        };
    }
    turn(rows, cycle, bad, rising, wraps)
}
