// error.rs: the refusals of the rules' table, and the answers of the operations.
#![tactic(auto)]

ghost use Rattle.std.specs.Prelude.{◌≡◌};
ghost use Rattle.error.specs.Refusal.{number_of};

// A cause of refusal. Where error.rs has a function for it, it has that function's name.
#[derive(Clone, Copy, Debug, PartialEq, Eq)]
pub enum Refusal {
    // A text of more than 16,384 bytes.
    TextTooLong = 1,
    // A byte or a form outside the text rules.
    BadForm = 2,
    // A number with too many digits.
    TooManyDigits = 3,
    // A closer without its opener, or an opener that is not closed.
    Unbalanced = 4,
    // A 65th opener while 64 are open.
    TooManyOpen = 5,
    // A name, mark, string, whole number, truth value or delimiter is missing.
    Missing = 6,
    UnknownKeyword = 7,
    // `malformed` in parser.rs.
    Malformed = 8,
    UnknownSpringPreset = 9,
    MissingDuration = 10,
    StaggerGridIncomplete = 11,
    // A 17th container inside 16 others.
    TooManyNested = 12,
    // Tokens left inside a delimiter.
    Leftover = 13,
    // A sheet slice that is shorter than the encoding.
    SheetTooShort = 14,
    // A waveform of the kind noise in a text.
    NoiseWritten = 15,
    // A scratch of fewer words than reading asks for.
    ScratchTooShort = 16,
    // Bytes that are no sheet for the text.
    NotASheet = 20,
    // `malformed` in validate.rs, but for the last two of its causes.
    OutOfRange = 21,
    ValueTypeMismatch = 22,
    UnknownEasing = 23,
    UnknownPreset = 24,
    InvalidColor = 25,
    // Two keyframes of a track at the same time.
    DuplicateTime = 26,
    // A track of fewer than 2 frames.
    TooFewFrames = 27,
    // A waveform of the kind noise in a sheet.
    NoiseHeld = 28,
    // No record has the ordinal.
    NoSuchRecord = 31,
    // An output slice that is shorter than the line.
    OutputTooShort = 32,
    // A 4,097th script, or totals with a figure above the limit.
    TooManyScripts = 33,
    // No text without an exponent reads to the tree.
    Unwritable = 34,
    // The script exceeds a text's limit or the buffer.
    ScriptTooLong = 35,
    // A list of colours other than 1 and 2.
    UnknownList = 36,
    // Two items of a book with the same name.
    NameTwice = 37,
    // A 129th item in a book.
    TooManyItems = 38,
    // A chain of calls that comes round to its start.
    RingOfCalls = 39,
    // Bytes that no sheet for the text planes to.
    NotPlaned = 40,
    // A waveform that is not drawn: noise, or a number that is no kind.
    NotDrawn = 41,
    // A phase of 256 or more.
    PhaseTooLarge = 42,
    // Neither book has the name.
    NoSuchItem = 43,
}

// What reading answers: the sheet's length, its count of node records and how many written numbers were rounded, or a
// refusal and its place.
#[derive(Clone, Copy)]
pub enum ReadAnswer {
    Accepted {
        length: usize,
        records: usize,
        rounded: usize,
    },
    Refused {
        refusal: Refusal,
        place: usize,
    },
}

// What checking answers: a refusal's place is 0, a place in the text, or a record's ordinal.
#[derive(Clone, Copy)]
pub enum CheckAnswer {
    Accepted,
    Refused { refusal: Refusal, place: usize },
}

// What lining answers: the line's length, or a refusal and its place or the ordinal.
#[derive(Clone, Copy)]
pub enum LineAnswer {
    Accepted { length: usize },
    Refused { refusal: Refusal, place: usize },
}

// What feeding answers: what the script was judged, which is counted; or a refusal, and nothing is counted.
#[derive(Clone, Copy)]
pub enum FeedAnswer {
    Counted { answer: CheckAnswer },
    Refused { refusal: Refusal, place: usize },
}

// A mean: a fraction in lowest terms; nothing, where there is no script or no track; or a refusal.
#[derive(Clone, Copy)]
pub enum MeanAnswer {
    Fraction { numerator: u32, denominator: u32 },
    Nothing,
    Refused { refusal: Refusal, place: usize },
}

// What a lookup answers: where the body stands, and in which book; or a refusal and its place.
#[derive(Clone, Copy)]
pub enum LookupAnswer {
    InStore { start: usize, size: usize },
    InChain { start: usize, size: usize },
    Refused { refusal: Refusal, place: usize },
}

// What listing the items of a book answers: how many are listed; or a refusal and its place.
#[derive(Clone, Copy)]
pub enum OrderAnswer {
    Listed { items: usize },
    Refused { refusal: Refusal, place: usize },
}

// The number of a refusal.
pub fn number_of(refusal: Refusal) -> u8
    ensures { result ≡ number_of refusal }
{
    refusal as u8
}
