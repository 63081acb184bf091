// Who has the bus: the request, BA, the AEC counter, the clocks of BA's edges, and the cycles that the CPU has lost on a line.
#![tactic(auto)]

ghost use Rattle.std.specs.Prelude.{◌≡◌, Bool, cond, ◌<◌};
ghost use Rattle.laws.specs.Clock.{InRange};
ghost use Rattle.schedule.specs.Kind.{kind_of};
ghost use Rattle.arbitration.specs.Bus.{fresh, clock_on, clocked, sprite_asks, requested, aec_after, low, arbitrated, lost_after, counted, phi1_mask, phi1_high};

#[derive(Clone, Copy)]
pub struct Bus {
    pub clock: i64,
    pub fall: i64,
    pub rise: i64,
    pub aec: i8,
    pub balow: bool,
    pub aeclow: bool,
    // the cycles of this line that the CPU has lost so far
    pub lost: u64,
}

// The clock k cycles on: it counts half cycles.
pub fn clock_on(clock: i64, k: u8) -> i64
    requires { InRange clock }
    ensures { result ≡ clock_on k clock }
{
    clock + (laws::wide(k) * 2) as i64
}

// Whether a sprite with DMA is among those that the schedule has in a cycle.
#[tactic(auto, unfolding(crate::specs::Bus::sprite_asks))]
pub fn sprite_asks(dma: u8, mask: u8) -> bool
    ensures { result ≡ sprite_asks dma mask }
{
    dma & mask != 0
}

// The bus is asked for by the matrix, whose BA output is low then, or by a sprite.
#[tactic(auto, unfolding(crate::specs::Bus::requested))]
pub fn request(ba: bool, dma: u8, mask: u8) -> bool
    ensures { result ≡ requested ba dma mask }
{
    !ba | sprite_asks(dma, mask)
}

// One less, and -1 stays.
#[tactic(auto, unfolding(crate::specs::Bus::aec_after))]
fn aec_down(aec: i8) -> i8
    ensures { result ≡ aec_after aec Bool.true }
{
    if aec < 0 { aec } else { aec - 1 }
}

#[tactic(auto, unfolding(crate::specs::Bus::aec_after))]
pub fn aec_after(aec: i8, asked: bool) -> i8
    ensures { result ≡ aec_after aec asked }
{
    if asked { aec_down(aec) } else { 3 }
}

pub fn is_low(aec: i8) -> bool
    ensures { result ≡ low aec }
{
    aec < 0
}

// The clock of an edge: the present one where the edge is here.
pub fn edge_clock(here: bool, clock: i64, old: i64) -> i64
    ensures { result ≡ cond here clock old }
{
    if here { clock } else { old }
}

// A line's lost cycles after a tick: none before it where the line begins, and one more where AEC is low.
#[tactic(auto, unfolding(crate::specs::Bus::lost_after))]
fn lost_after(begins: bool, taken: bool, lost: u64) -> u64
    requires { lost < 256 }
    ensures { result ≡ lost_after begins taken lost }
{
    let one = u64::from(taken);
    if begins {
        return one;
    }
    lost + one
}

// The mask that counts in the first clock phase: DMA that starts in this cycle is not in it yet.
#[tactic(auto, unfolding(crate::specs::Bus::phi1_mask))]
pub fn phi1_mask(kind: u8, dma: u8, previous: u8, cycle: u16) -> u8
    ensures { result ≡ phi1_mask (kind_of kind) dma previous cycle }
{
    let starting = schedule::first_phase(kind, cycle) | schedule::second_phase(kind, cycle);
    if starting { previous } else { dma }
}

#[tactic(auto, unfolding(crate::specs::Bus::phi1_high))]
pub fn ba_high_at_phi1(kind: u8, ba: bool, dma: u8, previous: u8, cycle: u16) -> bool
    ensures { result ≡ phi1_high (kind_of kind) ba dma previous cycle }
{
    let counted = phi1_mask(kind, dma, previous, cycle);
    let mask = schedule::mask(kind, cycle);
    ba & !sprite_asks(counted, mask)
}

impl Bus {
    #[tactic(auto, unfolding(crate::specs::Bus::fresh))]
    pub fn new() -> Self
        ensures { result ≡ fresh }
    {
        Self {
            clock: 0,
            fall: 0,
            rise: 0,
            aec: 3,
            balow: false,
            aeclow: false,
            lost: 0,
        }
    }

    // The same bus, k cycles later.
    #[tactic(auto, unfolding(crate::specs::Bus::clocked))]
    pub fn clocked(self, k: u8) -> Self
        requires { InRange self.clock }
        ensures { result ≡ clocked k self }
    {
        Bus {
            clock: clock_on(self.clock, k),
            ..self
        }
    }

    // One cycle's arbitration at the present clock.
    #[tactic(auto, unfolding(crate::specs::Bus::arbitrated))]
    pub fn arbitrate(self, asked: bool) -> Self
        ensures { result ≡ arbitrated self asked }
    {
        let aec = aec_after(self.aec, asked);
        Bus {
            fall: edge_clock(asked & !self.balow, self.clock, self.fall),
            rise: edge_clock(!asked & self.balow, self.clock, self.rise),
            aec,
            balow: asked,
            aeclow: is_low(aec),
            ..self
        }
    }

    // The tick counted, after its arbitration.
    #[tactic(auto, unfolding(crate::specs::Bus::counted))]
    pub fn count(self, begins: bool) -> Self
        requires { self.lost < 256 }
        ensures { result ≡ counted begins self }
    {
        Bus {
            lost: lost_after(begins, self.aeclow, self.lost),
            ..self
        }
    }
}
