// What a reader of captures holds between two words.
#![tactic(auto)]

// A value's digits so far: the bits that are 1, the bits that are unknown, a 1 for each digit; and whether all are digits and no more than ten.
#[derive(Clone, Copy)]
pub struct Digits {
    pub value: u16,
    pub unknown: u16,
    pub ones: u16,
    pub fine: bool,
}

// What comes next.
#[derive(Clone, Copy)]
pub enum Phase {
    // between the sections of the declarations
    Heading,
    // in a section that is passed by
    Skipping,
    // in `$var`: the type, the size, the identifier, the name, the end
    Kind,
    Size,
    Identifier(u8),
    Name(u8),
    Closing(u8, u8),
    // in `$enddefinitions`
    Ending,
    // after it: the number of signals is to be told
    Declared,
    // a time mark, a change or a section
    Body,
    // in a section that is passed by
    Aside,
    // after a value's digits: the identifier
    Valued(Digits),
    // the last tick is told
    Done,
    // a fault of the item at hand
    Refused(u8),
}

// What a reader holds besides its table: what comes next, which of the eight are declared and how many,
// their values, and the time: the tick that is to be told next, and the mark that was read last.
#[derive(Clone, Copy)]
pub struct Head {
    pub phase: Phase,
    pub signals: u8,
    pub declared: [bool; 8],
    pub values: [u16; 8],
    pub unknown: [u16; 8],
    pub begun: bool,
    pub time: u64,
    pub mark: u64,
}

// The eight's values on their way through a change: whether its identifier is declared, and the value fits each of ours that has it.
#[derive(Clone, Copy)]
pub struct Change {
    pub values: [u16; 8],
    pub unknown: [u16; 8],
    pub found: bool,
    pub fine: bool,
}
