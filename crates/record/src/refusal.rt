// The refusals, one for each number of document 01's table, with the table's words and numbers.
ghost use Rattle.std.specs.Prelude.{◌≡◌};
ghost use Rattle.record.specs.Refusal.{number_of};

#[derive(Clone, Copy, PartialEq, Eq, Debug)]
pub enum Refusal {
    // client above 3
    ClientAboveThree = 10,
    // kind not 1 to 6
    UnknownKind = 11,
    // payload not 20 to 512
    PayloadOutOfRange = 12,
    // record not well formed
    NotWellFormed = 13,
    // lent output shorter than this answer
    OutputTooShort = 14,
    // part number not below the number of parts
    NoSuchPart = 15,
    // some range has least above greatest
    UnusableSetup = 16,
    // client not connected; for connect, already connected
    ConnectionMismatch = 17,
    // write of no octets
    EmptyWrite = 18,
    // indications off (ATT FD)
    IndicationsOff = 19,
    // a response awaits confirmation (ATT FE)
    ResponseAwaited = 20,
    // confirm by a client to whom no response is due
    NothingDue = 21,
    // Feature value not 8 octets
    NotEightOctets = 22,
    // notification above 512 octets
    NotificationTooLong = 30,
    // shorter than its flags
    ShorterThanFlags = 31,
    // shorter than flags and named groups
    ShorterThanGroups = 32,
    // fixed: a group not in the told set
    OutsideToldSet = 33,
    // fixed: incomplete at the last part
    Incomplete = 34,
    // told set has a bit not listed for the kind
    ToldSetUnlisted = 35,
    // capture above 65,536 octets
    CaptureTooLong = 36,
    // capture ends inside a length or notification
    CaptureCutShort = 37,
}

impl Refusal {
    // The number that the table gives a refusal.
    pub fn number(self) -> u8
        ensures { result ≡ number_of self }
    {
        self as u8
    }
}
