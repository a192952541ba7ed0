// The faults that a sheet can have, in the order in which they are checked: document 01's rules 1 to 13, with document 02's rule 1 for
// version 2, its 26 and its 27 among them and its 28 after them.
// Kept: no enum, since the programs draw the faults, compare them by order and count through them.

pub const NO_HEADER: u32 = 1;

pub const MARK: u32 = 2;

pub const VERSION: u32 = 3;

pub const NO_TICK: u32 = 4;

pub const BIDDER_COUNT: u32 = 5;

pub const SLOT_COUNT: u32 = 6;

pub const CONSTRAINT_COUNT: u32 = 7;

pub const TICK: u32 = 8;

pub const LENGTH: u32 = 9;

pub const EFFECT: u32 = 10;

pub const BID: u32 = 11;

pub const OFF_TICK: u32 = 12;

// Asked of each constraint in turn.
pub const OUT_OF_RANGE: u32 = 13;

pub const OTHER_IS_OWNER: u32 = 14;

pub const HALF_AN_OTHER: u32 = 15;

pub const FORBIDS_NOTHING: u32 = 16;

// Of version 2 alone.
pub const OUT_OF_ORDER: u32 = 17;

// How many there are.
pub const FAULTS: u32 = 17;

// The number of a call that is refused for the fault, 0 for no fault.
pub fn number(fault: u32) -> u32 {
    if BIDDER_COUNT <= fault && fault < OUT_OF_RANGE {
        return number_of_field(fault);
    }
    match fault {
        NO_HEADER | NO_TICK => 1,
        MARK => 2,
        VERSION => 3,
        OUT_OF_RANGE => 10,
        OTHER_IS_OWNER => 11,
        HALF_AN_OTHER => 12,
        FORBIDS_NOTHING => 13,
        OUT_OF_ORDER => 28,
        _ => 0,
    }
}

// The same for a count, the tick, the length, an effect or a bid.
fn number_of_field(fault: u32) -> u32 {
    match fault {
        BIDDER_COUNT => 4,
        SLOT_COUNT => 5,
        CONSTRAINT_COUNT => 6,
        TICK => 26,
        LENGTH => 7,
        EFFECT => 8,
        BID => 9,
        _ => 27,
    }
}
