// The beam: cycle and raster line, the DEN latch, the bad line with its rise, and the BA output that a bad line asks for.
#![tactic(auto)]

ghost use Rattle.std.specs.Prelude.{◌≡◌};
ghost use Rattle.schedule.specs.Kind.{kind_of};
ghost use Rattle.timing.specs.Beam.{bad_line, latched, ba_output, next_cycle, at_last_line, next_line, fresh, beam_turned};

#[derive(Clone, Copy)]
pub struct Beam {
    // the kind of chip: 0 the 6569, 1 the 6567R8
    pub kind: u8,
    pub cycle: u16,
    pub raster: u16,
    pub den: bool,
    pub rsel: bool,
    pub yscroll: u8,
    // DEN was set on line 0x30
    pub latch: bool,
    pub bad: bool,
    pub rising: bool,
    // true is high: the matrix asks for nothing
    pub ba: bool,
}

// Whether a raster line is a bad one.
#[tactic(auto, unfolding(crate::specs::Beam::bad_line))]
pub fn bad_line(raster: u16, yscroll: u8, latch: bool) -> bool
    ensures { result ≡ bad_line raster yscroll latch }
{
    (0x30 <= raster) & (raster <= 0xF7) & (raster % 8 == laws::wide(yscroll)) & latch
}

// The DEN latch: line 0x30 stores DEN where it begins, and a set DEN sets it later.
pub fn latched(begins: bool, line: u16, den: bool, latch: bool) -> bool
    ensures { result ≡ latched begins line den latch }
{
    let here = line == 0x30;
    (here & den) | (latch & !(begins & here))
}

// The level of the BA output: low where a bad line asks for the matrix.
#[tactic(auto, unfolding(crate::specs::Beam::ba_output))]
pub fn ba_output(bad: bool, cycle: u16) -> bool
    ensures { result ≡ ba_output bad cycle }
{
    !(bad & schedule::matrix_request(cycle))
}

#[tactic(auto, unfolding(crate::specs::Beam::next_cycle))]
pub fn next_cycle(kind: u8, cycle: u16) -> u16
    ensures { result ≡ next_cycle (kind_of kind) cycle }
{
    if cycle < schedule::last_cycle(kind) {
        cycle + 1
    } else {
        1
    }
}

#[tactic(auto, unfolding(crate::specs::Beam::at_last_line))]
pub fn at_last_line(kind: u8, raster: u16) -> bool
    ensures { result ≡ at_last_line (kind_of kind) raster }
{
    schedule::last_line(kind) <= raster
}

// The line after this one; the last one waits for the frame's end.
#[tactic(auto, unfolding(crate::specs::Beam::next_line))]
pub fn next_line(kind: u8, raster: u16) -> u16
    ensures { result ≡ next_line (kind_of kind) raster }
{
    if raster < schedule::last_line(kind) {
        raster + 1
    } else {
        raster
    }
}

impl Beam {
    // Just before cycle 1 of the frame's end, as at power-up.
    #[tactic(auto, unfolding(crate::specs::Beam::fresh))]
    pub fn new(kind: u8) -> Self
        ensures { result ≡ fresh kind }
    {
        Self {
            kind,
            cycle: schedule::last_cycle(kind),
            raster: schedule::last_line(kind),
            den: false,
            rsel: false,
            yscroll: 0,
            latch: false,
            bad: false,
            rising: false,
            ba: true,
        }
    }

    // The beam after a tick: where it is, the control bits that the tick found, the bad line by the tick's latch, its rise, BA, and the latch that stays.
    #[tactic(auto, unfolding(crate::specs::Beam::beam_turned))]
    pub fn turn(
        self,
        cycle: u16,
        line: u16,
        latch: bool,
        kept: bool,
        raster: u16,
        den: bool,
        rsel: bool,
        yscroll: u8,
    ) -> Self
        ensures { result ≡ beam_turned self cycle line latch kept raster den rsel yscroll }
    {
        let bad = bad_line(line, yscroll, latch);
        Beam {
            cycle,
            raster,
            den,
            rsel,
            yscroll,
            latch: kept,
            bad,
            rising: bad & !self.bad,
            ba: ba_output(bad, cycle),
            ..self
        }
    }
}
