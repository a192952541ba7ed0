// Why a sheet or a call is refused: the rules of documents 01 and 02 that it can break, each with its number.
#![tactic(auto)]

ghost use Rattle.std.specs.Prelude.{◌≡◌};
ghost use Rattle.refusal.specs.Numbers.{number_of, number_in};

// The first rule that a sheet or a call breaks. The discriminant is the rule's number ("numbers of a refused call").
#[derive(Clone, Copy, Debug, PartialEq, Eq)]
pub enum Refusal {
    // "The sheet has fewer than 9 bytes", or fewer than 13 in version 2
    SheetTooShort = 1,
    // "The mark is not P A S"
    WrongMark = 2,
    // the version is neither 1 nor 2
    WrongVersion = 3,
    // "n is 0 or above 64"
    WrongBidders = 4,
    // "m is 0 or above 16"
    WrongSlots = 5,
    // "c is above 1,024"
    TooManyConstraints = 6,
    // "The length is not 9 + 4 × (m + n + c)", or 4 more in version 2
    WrongLength = 7,
    // "An effect is 0, above 1,000,000 or above the one before it"
    WrongEffect = 8,
    // "A bid is above 1,000,000,000"
    WrongBid = 9,
    // "A condition has owner 0, owner or other bidder above n, or a place above m"
    OutOfRange = 10,
    // "A condition's other bidder is its owner"
    OtherIsOwner = 11,
    // "Just one of other bidder and other's place is 0"
    HalfAnOther = 12,
    // "Own place, other bidder and other's place are all 0"
    EmptyConstraint = 13,
    // "The truth sheet breaks any of 1 to 13", or of 26 to 28
    TruthRefused = 14,
    // "The truth sheet has another n or m"
    TruthDiffers = 15,
    // "The bidder named in the call is 0 or above n"
    WrongBidder = 16,
    // "The worth is above 1,000,000,000"
    WrongWorth = 17,
    // "The best page is sought with n above 8 or m above 8"
    TooLargeForBest = 18,
    // "The result buffer is shorter than the bytes to be written"
    ResultTooShort = 19,
    // the limit is 0 or above m
    WrongLimit = 20,
    // the list of bars is not n long, or a bar is above m
    WrongBars = 21,
    // the bar against the owner is not 0
    BarAgainstOwner = 22,
    // the rival sets are not exactly n, or a set has a number 0 or above n
    WrongSet = 23,
    // a bidder is in its own rival set
    RivalIsOwner = 24,
    // the rivals give more than 1,024 constraints
    TooManyTerms = 25,
    // the tick is 0 or above 1,000,000,000
    WrongTick = 26,
    // a bid is no multiple of the tick
    BidOffTick = 27,
    // a constraint of version 2 is not above the one before it
    OutOfOrder = 28,
    // a bidder's part is asked of a sheet of version 1
    UnorderedVersion = 29,
    // the list of floors is not m long
    WrongFloorCount = 30,
    // a floor is above 1,000,000,000
    WrongFloor = 31,
}

impl Refusal {
    // The rule's number.
    pub fn number(self) -> u32
        ensures { result ≡ number_of self }
    {
        self as u32
    }
}

// The number of what a call was refused for, or 0: what C is told.
pub fn number_in(answer: Result<(), Refusal>) -> u32
    ensures { result ≡ number_in answer }
{
    match answer {
        Ok(()) => 0,
        Err(refusal) => refusal.number(),
    }
}
