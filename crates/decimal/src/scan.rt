// Looking for numbers in a text.
ghost use Rattle.std.specs.Char.{is_ascii_digit};
ghost use Rattle.std.specs.Prelude.{◌≤◌, ◌≡◌, true, length, position};
ghost use Rattle.decimal.specs.Numbers.{is_digit, grown};
ghost use Rattle.decimal.specs.Scans.{Skips, Takes, Finds};

// A number of a text, and the offset behind its digits.
#[derive(Clone, Copy)]
pub struct Found {
    pub value: usize,
    pub end: usize,
}

// A number with one digit more; 0 where it would not fit, as the definition has it: no refusal has that number either.
#[tactic(auto, using(crate::proofs::ScanLaws::grown_fits, crate::proofs::ScanLaws::grown_not, crate::proofs::ScanLaws::digit_most))]
fn grown(v: usize, b: u8) -> usize
    requires { is_digit b ≡ true }
    ensures { result ≡ grown v b }
{
    let d = (b - b'0') as usize;
    match v.checked_mul(10) {
        Some(tens) => tens.checked_add(d).unwrap_or(0),
        None => 0,
    }
}

// Where the first digit stands, if there is one.
fn first_digit(text: &[u8]) -> Option<usize>
    ensures { result ≡ position is_ascii_digit text.now }
{
    text.iter().position(|b| b.is_ascii_digit())
}

// The offset of the first digit at or behind another; without one, that of the end.
fn skip(text: &[u8], at: usize) -> usize
    requires { at ≤ length text.now }
    ensures { Skips text.now at result }
{
    match first_digit(&text[at..]) {
        Some(n) => at + n,
        None => text.len(),
    }
}

// The number that the digits from an offset on spell.
fn take(text: &[u8], at: usize) -> Found
    requires { at ≤ length text.now }
    ensures { Takes text.now at result }
{
    let mut v = 0;
    for i in at..text.len() {
        let b = text[i];
        if !b.is_ascii_digit() {
            return Found { value: v, end: i };
        }
        v = grown(v, b);
    }
    Found {
        value: v,
        end: text.len(),
    }
}

// The first number at or behind an offset.
pub fn find(text: &[u8], at: usize) -> Found
    requires { at ≤ length text.now }
    ensures { Finds text.now at result }
{
    let from = skip(text, at);
    take(text, from)
}
