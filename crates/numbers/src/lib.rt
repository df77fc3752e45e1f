// What the calls of document 01 answer where they refuse, and for each refusal the number and the place of its table "Numbers given back".
#![tactic(auto)]

ghost use Rattle.std.specs.Prelude.{◌≡◌};
ghost use Rattle.numbers.specs.GivenBack.{refused_at, refusal_of, answer_by, header_says, writer_says, image_says, sealed_says};
ghost use Rattle.numbers.specs.GivenBack.{sealed_writer_says, power_up_says, three_numbers, reason_of, reason_refusal};
ghost use Rattle.numbers.specs.GivenBack.{command_number, mend_number, row_number, sheet_says};
ghost use Rattle.numbers.specs.declared.Refused.{Refused};
ghost use Rattle.numbers.specs.declared.SealedRefusal.TheVariants.{BadHeader as NotRead};
ghost use Rattle.numbers.specs.declared.SealedWriteRefusal.TheVariants.{NotWritten};
ghost use Rattle.numbers.specs.declared.ImageRefusal.TheVariants.{BadHeader};

// ---- the refusals

// Why a header is refused.
#[derive(Clone, Copy, PartialEq, Eq)]
pub enum HeaderRefusal {
    TooShort,
    WrongMagic,
    // The firmware's size is 0; in an image also: more than its sectors hold.
    WrongSize,
    TagDoesNotFit(usize),
    // The tag at this place has a type that has to be known, and is not.
    TagNotUnderstood(usize),
    WrongLength(usize),
    Repeated(usize),
    NoEnd(usize),
    // The type that is missing.
    Missing(usize),
}

// Why a header is not written.
#[derive(Clone, Copy, PartialEq, Eq)]
pub enum WriteRefusal {
    // The lent output is shorter than a header.
    TooShort,
    // No firmware; or, where a header is made for a firmware, one that a header cannot count.
    WrongSize,
}

// Why a header is not sealed.
#[derive(Clone, Copy, PartialEq, Eq)]
pub enum SealedRefusal {
    // The reader's refusal.
    BadHeader(HeaderRefusal),
    // The reader takes it, and this is the first place at which it differs from the written form of its values, or the place of the
    // missing hint.
    NotSealed(usize),
}

impl From<HeaderRefusal> for SealedRefusal {
    ghost from_gives = { λ r s. s ≡ NotRead r };

    fn from(refusal: HeaderRefusal) -> SealedRefusal {
        SealedRefusal::BadHeader(refusal)
    }
}

// Why a sealed header is not written.
#[derive(Clone, Copy, PartialEq, Eq)]
pub enum SealedWriteRefusal {
    // The writer's refusal.
    NotWritten(WriteRefusal),
    // A sealed header has a hint.
    NoHint,
}

impl From<WriteRefusal> for SealedWriteRefusal {
    ghost from_gives = { λ r s. s ≡ NotWritten r };

    fn from(refusal: WriteRefusal) -> SealedWriteRefusal {
        SealedWriteRefusal::NotWritten(refusal)
    }
}

// Why an image is refused.
#[derive(Clone, Copy, PartialEq, Eq)]
pub enum ImageRefusal {
    // Geometry or length outside the rules.
    OutsideRules,
    // The reader's refusal; or its "wrong size", where the firmware sectors cannot hold the firmware.
    BadHeader(HeaderRefusal),
    WrongDigest,
}

impl From<HeaderRefusal> for ImageRefusal {
    ghost from_gives = { λ r s. s ≡ BadHeader r };

    fn from(refusal: HeaderRefusal) -> ImageRefusal {
        ImageRefusal::BadHeader(refusal)
    }
}

// Why a power-up is refused.
#[derive(Clone, Copy, PartialEq, Eq)]
pub enum PowerUpRefusal {
    // Geometry or a length outside the rules.
    OutsideRules,
    // A status byte that BOOT or UPDATE may not hold.
    StatusNotAllowed,
    FlagsMalformed,
    // The image in BOOT is bad.
    BadBoot(ImageRefusal),
    // The image in UPDATE, to fall back to, is bad.
    NoFallback(ImageRefusal),
}

// Why an update was turned down.
#[derive(Clone, Copy, PartialEq, Eq)]
pub enum TurnDownReason {
    BadUpdate(ImageRefusal),
    NotNewer,
}

// Why arm or confirm is refused.
#[derive(Clone, Copy, PartialEq, Eq)]
pub enum CommandRefusal {
    OutsideRules,
    StatusNotAllowed,
    FlagsMalformed,
    WrongTime,
}

// Why mending is refused.
#[derive(Clone, Copy, PartialEq, Eq)]
pub enum MendRefusal {
    OutsideRules,
    StatusNotAllowed,
    WrongTime,
    NoMarkFits,
}

// Why a row of erase counts or its total is refused.
#[derive(Clone, Copy, PartialEq, Eq)]
pub enum RowRefusal {
    // The total is not the row's sum.
    TotalWrong,
    // Some count has no room for as many erases as there are firmware sectors.
    CountTooHigh,
}

// Why a release sheet is refused, with the number of its line, counted from 1.
#[derive(Clone, Copy, PartialEq, Eq)]
pub enum SheetRefusal {
    NotUnderstood(usize),
    UnknownName(usize),
    // Malformed, or out of range.
    BadValue(usize),
    RepeatedName(usize),
    // The type of the header's tag that has no line.
    MissingName(usize),
}

// ---- their numbers

// A number and its place. Both are 0 where nothing is refused.
#[derive(Clone, Copy, PartialEq, Eq)]
pub struct Refused {
    pub number: u32,
    pub place: usize,
}

// A power-up's number, and the own number and place of a bad image within it.
#[derive(Clone, Copy, PartialEq, Eq)]
pub struct RefusedInside {
    pub number: u32,
    pub inner: u32,
    pub place: usize,
}

fn refuse(number: u32, place: usize) -> Refused
    ensures { result ≡ refused_at number place }
{
    Refused { number, place }
}

// A refusal with a number and a place of its own in the table.
pub trait Numbered {
    ghost says: { Self → Refused };

    fn refused(self) -> Refused
        ensures { result ≡ says self };
}

// The number and the place of an answer: those of its refusal, or 0 and 0.
pub fn refused_by<T: Copy, E: Numbered + Copy>(answer: Result<T, E>) -> Refused
    ensures { result ≡ refusal_of (answer_by E.says answer) }
{
    match answer {
        Ok(_) => refuse(0, 0),
        Err(refusal) => refusal.refused(),
    }
}

impl Numbered for HeaderRefusal {
    ghost says = { header_says };

    fn refused(self) -> Refused {
        match self {
            HeaderRefusal::TooShort => refuse(16, 0),
            HeaderRefusal::WrongMagic => refuse(2, 0),
            HeaderRefusal::WrongSize => refuse(3, 4),
            HeaderRefusal::TagDoesNotFit(p) => refuse(4, p),
            HeaderRefusal::TagNotUnderstood(p) => refuse(18, p),
            HeaderRefusal::WrongLength(p) => refuse(5, p),
            HeaderRefusal::Repeated(p) => refuse(6, p),
            HeaderRefusal::NoEnd(p) => refuse(7, p),
            HeaderRefusal::Missing(t) => refuse(8, t),
        }
    }
}

impl Numbered for WriteRefusal {
    ghost says = { writer_says };

    fn refused(self) -> Refused {
        match self {
            WriteRefusal::TooShort => refuse(16, 0),
            WriteRefusal::WrongSize => refuse(3, 4),
        }
    }
}

impl Numbered for SealedRefusal {
    ghost says = { sealed_says };

    fn refused(self) -> Refused {
        match self {
            SealedRefusal::BadHeader(h) => h.refused(),
            SealedRefusal::NotSealed(p) => refuse(21, p),
        }
    }
}

impl Numbered for SealedWriteRefusal {
    ghost says = { sealed_writer_says };

    fn refused(self) -> Refused {
        match self {
            SealedWriteRefusal::NotWritten(w) => w.refused(),
            SealedWriteRefusal::NoHint => refuse(21, 138),
        }
    }
}

impl Numbered for ImageRefusal {
    ghost says = { image_says };

    fn refused(self) -> Refused {
        match self {
            ImageRefusal::OutsideRules => refuse(1, 0),
            ImageRefusal::BadHeader(h) => h.refused(),
            ImageRefusal::WrongDigest => refuse(9, 256),
        }
    }
}

impl Numbered for SheetRefusal {
    ghost says = { sheet_says };

    fn refused(self) -> Refused {
        match self {
            SheetRefusal::NotUnderstood(n) => refuse(101, n),
            SheetRefusal::UnknownName(n) => refuse(102, n),
            SheetRefusal::BadValue(n) => refuse(103, n),
            SheetRefusal::RepeatedName(n) => refuse(104, n),
            SheetRefusal::MissingName(t) => refuse(105, t),
        }
    }
}

fn within(number: u32, own: Refused) -> RefusedInside
    ensures { result ≡ record { number = number; inner = own.number; place = own.place } }
{
    RefusedInside {
        number,
        inner: own.number,
        place: own.place,
    }
}

impl From<PowerUpRefusal> for RefusedInside {
    ghost from_gives = { λ r n. n ≡ three_numbers (power_up_says r) };

    fn from(refusal: PowerUpRefusal) -> RefusedInside {
        match refusal {
            PowerUpRefusal::OutsideRules => within(1, refuse(0, 0)),
            PowerUpRefusal::StatusNotAllowed => within(10, refuse(0, 0)),
            PowerUpRefusal::FlagsMalformed => within(11, refuse(0, 0)),
            PowerUpRefusal::BadBoot(i) => within(12, i.refused()),
            PowerUpRefusal::NoFallback(i) => within(13, i.refused()),
        }
    }
}

// The number and the place of a turning down's reason; 0 and 0 where nothing is turned down.
pub fn of_reason(reason: Option<TurnDownReason>) -> Refused
    ensures { result ≡ reason_refusal (reason_of reason) }
{
    match reason {
        None => refuse(0, 0),
        Some(TurnDownReason::BadUpdate(i)) => i.refused(),
        Some(TurnDownReason::NotNewer) => refuse(15, 0),
    }
}

// What follows is refused at no place: a number alone.

impl From<CommandRefusal> for u32 {
    ghost from_gives = { λ r n. n ≡ command_number r };

    fn from(refusal: CommandRefusal) -> u32 {
        match refusal {
            CommandRefusal::OutsideRules => 1,
            CommandRefusal::StatusNotAllowed => 10,
            CommandRefusal::FlagsMalformed => 11,
            CommandRefusal::WrongTime => 14,
        }
    }
}

impl From<MendRefusal> for u32 {
    ghost from_gives = { λ r n. n ≡ mend_number r };

    fn from(refusal: MendRefusal) -> u32 {
        match refusal {
            MendRefusal::OutsideRules => 1,
            MendRefusal::StatusNotAllowed => 10,
            MendRefusal::WrongTime => 14,
            MendRefusal::NoMarkFits => 17,
        }
    }
}

impl From<RowRefusal> for u32 {
    ghost from_gives = { λ r n. n ≡ row_number r };

    fn from(refusal: RowRefusal) -> u32 {
        match refusal {
            RowRefusal::TotalWrong => 19,
            RowRefusal::CountTooHigh => 20,
        }
    }
}
