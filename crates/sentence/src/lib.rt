// Refusals in sentences: printing one, reading one back, and the console's two calls.
#![tactic(auto)]

ghost use Rattle.std.specs.Prelude.{◌≤◌, ◌≡◌};
ghost use Rattle.reader.specs.Refusals.{told, answer_of, result_number};
ghost use Rattle.decimal.specs.Prints.{Prints};
ghost use Rattle.sentence.specs.Phrases.{tabled};
ghost use Rattle.sentence.specs.Sentence.{max_sentence, Tabled, sentence, print_sentence};
ghost use Rattle.sentence.specs.Reading.{same as same_bytes, shown, read_sentence, reading_of, handed};

use crate::phrase::put_phrases;
use decimal::print::Page;
use decimal::scan::find;
use reader::refusal::{Refusal, Told, result_number};
use writer::send;

pub mod phrase;

// Bytes of the longest sentence, and the last number of the tables.
pub const MAX_SENTENCE: usize = 120;

pub const LAST_NUMBER: usize = 22;

fn is_tabled(number: usize) -> bool
    ensures { result ≡ tabled number }
{
    (1..=LAST_NUMBER).contains(&number)
}

// A refusal's sentence, at the front of a buffer that holds any; gives its length.
#[tactic(auto, using(crate::proofs::PrintedLaws::sentence_room))]
fn put_sentence(d: &mut [u8; MAX_SENTENCE], told: Told) -> usize
    requires { Tabled told }
    ensures { (result ≤ max_sentence) × Prints d.old 0 (sentence told) d.new result }
{
    let mut page = Page { buffer: d, end: 0 };
    page.put_text(b"Refused ");
    page.put_decimal(told.number as usize);
    put_phrases(&mut page, told);
    page.put_text(b".");
    page.end
}

// Prints a refusal's sentence at the front of a buffer.
pub fn print_sentence(told: Told, out: &mut [u8]) -> Result<(), Refusal>
    ensures { print_sentence told out.old ≡ record { answer = result; buffer = out.new } }
{
    if !is_tabled(told.number as usize) {
        return Err(Refusal::NotASentence(told.number as usize));
    }
    let mut line = [0u8; MAX_SENTENCE];
    let need = put_sentence(&mut line, told);
    send(&line[..need], out)
}

// Whether a text is the sentence of a refusal.
fn says(text: &[u8], told: Told) -> bool
    requires { Tabled told }
    ensures { result ≡ same_bytes text.now (sentence told) }
{
    let mut line = [0u8; MAX_SENTENCE];
    let length = put_sentence(&mut line, told);
    text == &line[..length]
}

// The three numbers of a text, 0 for one that is not there, as the definition (`shown`) has it.
fn numbers(text: &[u8]) -> (usize, usize, usize)
    ensures { shown text.now ≡ told result.0 result.1 result.2 }
{
    let number = find(text, 0);
    let first = find(text, number.end);
    let second = find(text, first.end);
    (number.value, first.value, second.value)
}

// Reads a sentence back: its numbers are found, and the sentences that they can be of are compared with the text.
#[tactic(auto, using(crate::proofs::PhraseLaws::tabled_most))]
pub fn read_sentence(text: &[u8]) -> Result<Told, Refusal>
    ensures { result ≡ reading_of text.now (read_sentence text.now) }
{
    let (number, first, second) = numbers(text);
    if !is_tabled(number) {
        return Err(Refusal::NotASentence(text.len()));
    }
    let shown = Told {
        number: number as u32,
        first,
        second,
    };
    if says(text, shown) {
        return Ok(shown);
    }
    let repeated = Told {
        second: shown.first,
        ..shown
    };
    if says(text, repeated) {
        return Ok(repeated);
    }
    Err(Refusal::NotASentence(text.len()))
}

// Prints the sentence of a refusal into a buffer.
pub fn seqopchi_sentence(number: u32, first: u64, second: u64, out: &mut [u8]) -> u64
    ensures { (result ≡ result_number (print_sentence (told number first second) out.old).answer)
        × (out.new ≡ (print_sentence (told number first second) out.old).buffer) }
{
    let told = Told {
        number,
        first: first as usize,
        second: second as usize,
    };
    result_number(print_sentence(told, out))
}

// Reads a sentence back into three numbers, which a refusal leaves as they were.
fn read_into(text: &[u8], parts: &mut [u64; 3]) -> Result<(), Refusal>
    ensures { (result ≡ answer_of (reading_of text.now (read_sentence text.now)))
        × (parts.new ≡ handed (read_sentence text.now) parts.old) }
{
    let told = read_sentence(text)?;
    *parts = [told.number as u64, told.first as u64, told.second as u64];
    Ok(())
}

// Reads a sentence back into three numbers: the refusal's number and both places.
pub fn seqopchi_read_sentence(text: &[u8], parts: &mut [u64; 3]) -> u64
    ensures { (result ≡ result_number (answer_of (reading_of text.now (read_sentence text.now))))
        × (parts.new ≡ handed (read_sentence text.now) parts.old) }
{
    result_number(read_into(text, parts))
}
