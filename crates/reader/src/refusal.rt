// Refusals: why a step is declined, one case for each row of document 01's table, and of those that document 02 adds.
ghost use Rattle.std.specs.Prelude.{◌≡◌};
ghost use Rattle.reader.specs.Refusals.{told, tell, packed, result_number};

// Each case holds its places: byte offsets, tasks, bytes needed, a node, or what is no refusal's: a text's length or a number.
#[derive(Clone, Copy)]
pub enum Refusal {
    Short(usize),
    Version(usize),
    Count(usize),
    Value(usize),
    LinkOrder(usize),
    Tail(usize),
    Unable(usize),
    SameNode(usize),
    Early(usize),
    Late(usize),
    PrimaryUnfed(usize, usize),
    BackupUnfed(usize, usize),
    CommonLoss(usize),
    Overlap(usize, usize),
    NoPrimary(usize),
    NoBackup(usize),
    ShortBuffer(usize),
    NoSuchNode(u32),
    TooSoon(usize),
    Full(usize),
    Stale(usize),
    NotASentence(usize),
}

// A row of the table: the refusal's number and both places, which C is given as numbers.
#[derive(Clone, Copy)]
pub struct Told {
    pub number: u32,
    pub first: usize,
    pub second: usize,
}

impl Told {
    fn of(number: u32, first: usize, second: usize) -> Told
        ensures { result ≡ told number first second }
    {
        Told {
            number,
            first,
            second,
        }
    }

    // C's form, for which there is no method: the number in the lowest 8 bits, the first place in the next 32, the second in the top 24.
    fn packed(self) -> u64
        ensures { result ≡ packed self }
    {
        let number = (self.number % 256) as u64;
        let first = (self.first % 4294967296) as u64;
        let second = (self.second % 16777216) as u64;
        number + 256 * first + 1099511627776 * second
    }
}

impl From<Refusal> for Told {
    ghost from_gives = { λ refusal it. it ≡ tell refusal };

    fn from(refusal: Refusal) -> Told {
        match refusal {
            Refusal::Short(at) => Told::of(1, at, 0),
            Refusal::Version(at) => Told::of(2, at, 0),
            Refusal::Count(at) => Told::of(3, at, 0),
            Refusal::Value(at) => Told::of(4, at, 0),
            Refusal::LinkOrder(at) => Told::of(5, at, 0),
            Refusal::Tail(at) => Told::of(6, at, 0),
            Refusal::Unable(at) => Told::of(7, at, 0),
            Refusal::SameNode(j) => Told::of(8, j, j),
            Refusal::Early(j) => Told::of(9, j, j),
            Refusal::Late(j) => Told::of(10, j, j),
            Refusal::PrimaryUnfed(i, j) => Told::of(11, i, j),
            Refusal::BackupUnfed(i, j) => Told::of(12, i, j),
            Refusal::CommonLoss(j) => Told::of(13, j, j),
            Refusal::Overlap(i, j) => Told::of(14, i, j),
            Refusal::NoPrimary(j) => Told::of(15, j, j),
            Refusal::NoBackup(j) => Told::of(16, j, j),
            Refusal::ShortBuffer(n) => Told::of(17, n, 0),
            Refusal::NoSuchNode(q) => Told::of(18, q as usize, 0),
            Refusal::TooSoon(j) => Told::of(19, j, j),
            Refusal::Full(j) => Told::of(20, j, 0),
            Refusal::Stale(j) => Told::of(21, j, j),
            Refusal::NotASentence(n) => Told::of(22, n, 0),
        }
    }
}

// The answer of a step as the one number that crosses to C: 0 where it is done, else its refusal.
pub fn result_number(answer: Result<(), Refusal>) -> u64
    ensures { result ≡ result_number answer }
{
    match answer {
        Ok(()) => 0,
        Err(refusal) => Told::from(refusal).packed(),
    }
}
