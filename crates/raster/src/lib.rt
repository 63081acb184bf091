// The line and the frame: where a line begins and a frame ends, the raster match, and the interrupt that it raises. The refresh counter, which begins with a frame.
#![tactic(auto)]

ghost use Rattle.std.specs.Prelude.{◌≡◌, ◌<◌};
ghost use Rattle.schedule.specs.Kind.{kind_of};
ghost use Rattle.raster.specs.Frame.{fresh, raster_begun, line_matches, match_raises, frame_begun, frame_ended, raised, compared, swept};
ghost use Rattle.raster.specs.Refresh.{swept_with, less_by, refresh_after, refresh_address};

use registers::Irq;

// What waits from line to line: the frame's end and the raster match.
#[derive(Clone, Copy)]
pub struct Frame {
    pub ending: bool,
    pub matched: bool,
}

// What the line and the frame do in a cycle: the line and the DEN latch before a frame's end, and after it.
#[derive(Clone, Copy)]
pub struct Swept {
    pub begins: bool,
    pub line: u16,
    pub wraps: bool,
    pub raster: u16,
    pub latch: bool,
    pub kept: bool,
    pub frame: Frame,
    pub irq: Irq,
}

// The same, with the refresh counter as the tick finds it.
#[derive(Clone, Copy)]
pub struct SweptWith {
    pub swept: Swept,
    pub refresh: u8,
}

// What a comparison of the line leaves.
#[derive(Clone, Copy)]
pub struct Compared {
    pub frame: Frame,
    pub irq: Irq,
}

#[tactic(auto, unfolding(crate::specs::Frame::raster_begun))]
fn raster_begun(kind: u8, begins: bool, raster: u16) -> u16
    ensures { result ≡ raster_begun (kind_of kind) begins raster }
{
    if begins {
        return timing::next_line(kind, raster);
    }
    raster
}

// Whether the line is the compare line, where it is compared.
fn line_matches(compares: bool, raster: u16, compare: u16) -> bool
    ensures { result ≡ line_matches compares raster compare }
{
    compares & (raster == compare)
}

// A match raises the interrupt once.
#[tactic(auto, unfolding(crate::specs::Frame::match_raises))]
pub fn match_raises(matched: bool, before: bool) -> bool
    ensures { result ≡ match_raises matched before }
{
    matched & !before
}

#[tactic(auto, unfolding(crate::specs::Frame::raised))]
pub fn raise(irq: Irq, raises: bool) -> Irq
    ensures { result ≡ raised irq raises }
{
    if raises {
        return irq.trigger(1);
    }
    irq
}

impl Frame {
    #[tactic(auto, unfolding(crate::specs::Frame::fresh))]
    pub fn new() -> Self
        ensures { result ≡ fresh }
    {
        Self {
            ending: false,
            matched: false,
        }
    }

    // The first cycle of a line: the last line waits, any other is compared.
    #[tactic(auto, unfolding(crate::specs::Frame::frame_begun))]
    fn begin(self, begins: bool, last: bool, raster: u16, compare: u16) -> Self
        ensures { result ≡ frame_begun self begins last raster compare }
    {
        if begins {
            return Frame {
                ending: self.ending | last,
                matched: line_matches(!last, raster, compare),
            };
        }
        self
    }

    // A comparison between two ticks: the match goes by it, and the interrupt.
    #[tactic(auto, unfolding(crate::specs::Frame::compared))]
    pub fn compare(self, irq: Irq, raster: u16, compare: u16) -> Compared
        ensures { result ≡ compared self irq raster compare }
    {
        let now = line_matches(true, raster, compare);
        let raises = match_raises(now, self.matched);
        Compared {
            frame: Frame {
                matched: now,
                ..self
            },
            irq: raise(irq, raises),
        }
    }

    // The frame's end, in the second cycle.
    #[tactic(auto, unfolding(crate::specs::Frame::frame_ended))]
    fn end(mut self, wraps: bool) -> Self
        ensures { result ≡ frame_ended self wraps }
    {
        if wraps {
            self.ending = false;
            return self;
        }
        self
    }
}

// A line begins, and a frame ends.
fn sweep(
    kind: u8,
    frame: Frame,
    irq: Irq,
    cycle: u16,
    raster: u16,
    compare: u16,
    den: bool,
    latch: bool,
) -> Swept
    ensures { result ≡ swept (kind_of kind) frame irq cycle raster compare den latch }
{
    let begins = schedule::line_begins(cycle);
    let last = begins & timing::at_last_line(kind, raster);
    let line = raster_begun(kind, begins, raster);
    let begun = frame.begin(begins, last, line, compare);
    let wraps = schedule::frame_ends(cycle) & begun.ending;
    let shown = laws::pick(wraps, 0, line);
    let latched = timing::latched(begins, line, den, latch);
    let equal = match_raises(begun.matched, frame.matched);
    Swept {
        begins,
        line,
        wraps,
        raster: shown,
        latch: latched,
        kept: latched & !wraps,
        frame: begun.end(wraps),
        irq: raise(irq, equal | (wraps & (compare == 0))),
    }
}

// Past the second cycle neither happens, and the refresh counter stays.
pub fn turn(
    kind: u8,
    frame: Frame,
    irq: Irq,
    cycle: u16,
    raster: u16,
    compare: u16,
    den: bool,
    latch: bool,
    refresh: u8,
) -> SweptWith
    requires { cycle < 66 }
    ensures { result ≡ swept_with (kind_of kind) frame irq cycle raster compare den latch refresh }
{
    let later = schedule::later(cycle);
    if later {
        let latched = timing::latched(false, raster, den, latch);
        return SweptWith {
            swept: Swept {
                begins: false,
                line: raster,
                wraps: false,
                raster,
                latch: latched,
                kept: latched,
                frame,
                irq,
            },
            refresh,
        };
    }
    let swept = sweep(kind, frame, irq, cycle, raster, compare, den, latch);
    SweptWith {
        swept,
        refresh: laws::pick(swept.wraps, 255, refresh),
    }
}

// ---- the refresh counter

#[tactic(auto, unfolding(crate::specs::Refresh::less_by))]
fn one_less(counter: u8) -> u8
    ensures { result ≡ less_by 1 counter }
{
    if counter == 0 {
        return 255;
    }
    counter - 1
}

// As a tick leaves it.
#[tactic(auto, unfolding(crate::specs::Refresh::refresh_after))]
pub fn refresh_after(cycle: u16, counter: u8) -> u8
    ensures { result ≡ refresh_after cycle counter }
{
    if schedule::refresh(cycle) {
        return one_less(counter);
    }
    counter
}

// Where a refresh access reads.
pub fn refresh_address(counter: u8) -> u16
    ensures { result ≡ refresh_address counter }
{
    0x3F00 + laws::wide(counter)
}
