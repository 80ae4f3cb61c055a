// The fixed phrases of each number of the tables, around the places.
ghost use Rattle.std.specs.Prelude.{◌+◌, ◌≤◌, ◌≡◌, true, length};
ghost use Rattle.decimal.specs.Prints.{Grows};
ghost use Rattle.sentence.specs.Phrases.{spelled, unsaid, mark as mark_of, tabled, row_of};
ghost use Rattle.sentence.specs.Sentence.{placed, front, phrases};

use crate::LAST_NUMBER;
use Second::{Again, Another, Nought};
use decimal::print::Page;
use reader::refusal::Told;

// What the tables have as second place: '/ 0', the first place again, or one to tell.
#[derive(Clone, Copy)]
pub enum Second {
    Nought,
    Again,
    Another,
}

impl Second {
    // Whether it goes without saying.
    #[tactic(auto, unfolding(crate::specs::Phrases::unsaid))]
    fn is_unsaid(self, told: Told) -> bool
        ensures { result ≡ unsaid self told.first told.second }
    {
        match self {
            Nought => told.second == 0,
            Again => told.second == told.first,
            Another => false,
        }
    }

    // What stands before it where it is told.
    #[tactic(auto, unfolding(crate::specs::Phrases::mark, crate::specs::Phrases::spelled))]
    fn mark(self) -> &'static [u8]
        ensures { result.now ≡ spelled (mark_of self) }
    {
        match self {
            Nought | Again => b", second ",
            Another => b"",
        }
    }
}

// What a number's sentence has before its first place, what behind it, and its second place.
#[derive(Clone, Copy)]
struct Phrase {
    front: &'static [u8],
    effect: &'static [u8],
    second: Second,
}

// Of numbers 1, 2, ..
static PHRASES: [Phrase; LAST_NUMBER] = [
    Phrase {
        front: b", short: the file ends before the number at byte ",
        effect: b" is whole",
        second: Nought,
    },
    Phrase {
        front: b", version: the version at byte ",
        effect: b" is not known here",
        second: Nought,
    },
    Phrase {
        front: b", count: the count at byte ",
        effect: b" is outside its limits",
        second: Nought,
    },
    Phrase {
        front: b", value: the number at byte ",
        effect: b" is outside its limits",
        second: Nought,
    },
    Phrase {
        front: b", link order: the link at byte ",
        effect: b" is not above the one before",
        second: Nought,
    },
    Phrase {
        front: b", tail: the file goes on at byte ",
        effect: b", where it should end",
        second: Nought,
    },
    Phrase {
        front: b", unable: the node at byte ",
        effect: b" cannot run its task",
        second: Nought,
    },
    Phrase {
        front: b", same node: both copies of task ",
        effect: b" are on one node or supply",
        second: Again,
    },
    Phrase {
        front: b", early: the backup of task ",
        effect: b" starts before a loss is noticed",
        second: Again,
    },
    Phrase {
        front: b", late: the backup of task ",
        effect: b" ends after the deadline",
        second: Again,
    },
    Phrase {
        front: b", primary unfed: the result of task ",
        effect: b" is late for the primary of task ",
        second: Another,
    },
    Phrase {
        front: b", backup unfed: a result of task ",
        effect: b" is late for the backup of task ",
        second: Another,
    },
    Phrase {
        front: b", common loss: one loss can stop both copies of task ",
        effect: b"",
        second: Again,
    },
    Phrase {
        front: b", overlap: one node is held at the same time by copies of tasks ",
        effect: b" and ",
        second: Another,
    },
    Phrase {
        front: b", no primary: no node has a place for the primary of task ",
        effect: b"",
        second: Again,
    },
    Phrase {
        front: b", no backup: no node has a place for the backup of task ",
        effect: b"",
        second: Again,
    },
    Phrase {
        front: b", short buffer: the output needs room for ",
        effect: b" bytes",
        second: Nought,
    },
    Phrase {
        front: b", no such node: the loss of ",
        effect: b" takes no node of the job",
        second: Nought,
    },
    Phrase {
        front: b", too soon: the primary of task ",
        effect: b" starts before it is ready",
        second: Again,
    },
    Phrase {
        front: b", full: the job has no room for task ",
        effect: b" or its links",
        second: Nought,
    },
    Phrase {
        front: b", stale: the place for task ",
        effect: b" now breaks a rule; ask again",
        second: Again,
    },
    Phrase {
        front: b", not a sentence: no refusal has it; its length or number: ",
        effect: b"",
        second: Nought,
    },
];

// The phrases of a number of the tables.
#[tactic(auto, using(crate::proofs::PhraseLaws::tabled_least, crate::proofs::PhraseLaws::tabled_most))]
fn phrase_of(number: u32) -> Phrase
    requires { tabled number ≡ true }
    ensures front { result.front.now ≡ front (row_of number) }
    ensures effect { result.effect.now ≡ spelled (row_of number).effect }
    ensures second { result.second ≡ (row_of number).second }
{
    PHRASES[number as usize - 1]
}

// Both places among their phrases, the second one unless it goes without saying.
fn put_placed(page: &mut Page<'_>, phrase: Phrase, told: Told)
    requires { page.old.end + length (placed phrase.second phrase.front.now phrase.effect.now told) ≤ length page.old.buffer.now }
    ensures { Grows page.old page.new (placed phrase.second phrase.front.now phrase.effect.now told) }
{
    page.put_text(phrase.front);
    page.put_decimal(told.first);
    page.put_text(phrase.effect);
    if phrase.second.is_unsaid(told) {
        return;
    }
    page.put_text(phrase.second.mark());
    page.put_decimal(told.second);
}

// The phrases of any number of the tables, and its places.
pub fn put_phrases(page: &mut Page<'_>, told: Told)
    requires { (tabled told.number ≡ true)
        × (page.old.end + length (phrases (row_of told.number) told) ≤ length page.old.buffer.now) }
    ensures { Grows page.old page.new (phrases (row_of told.number) told) }
{
    put_placed(page, phrase_of(told.number), told);
}
