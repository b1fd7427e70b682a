// The records of a list, counted: of each caller how many carry each returned number, and how many bytes they moved.
#![tactic(auto)]

ghost use Rattle.std.specs.Prelude.{◌≡◌, length};
ghost use Rattle.rules.specs.Record.{record_size};
ghost use Rattle.label.specs.Words.{words};
ghost use Rattle.tally.specs.Tally.{no_records, counted, with_records};

use records::SIZE;
use rules::Refusal;

// How many callers have a row of their own: those below. All from there on share the last.
pub const CALLERS: usize = 32;

// How many returned numbers have a count of their own, likewise.
pub const NUMBERS: usize = 18;

// A row: how many of its records carry each returned number from 0 to 17, then how many a higher one; and the sum of the bytes
// moved. All modulo 2 to the 64.
#[derive(Clone, Copy)]
pub struct Row {
    pub counts: [u64; NUMBERS + 1],
    pub bytes: u64,
}

// A row for each caller from 0 to 31, then one for all higher numbers.
#[derive(Clone, Copy)]
pub struct Tally {
    pub rows: [Row; CALLERS + 1],
}

impl Tally {
    // The tally of no records.
    pub fn new() -> Tally
        ensures { result ≡ no_records }
    {
        let row = Row {
            counts: [0; NUMBERS + 1],
            bytes: 0,
        };
        Tally {
            rows: [row; CALLERS + 1],
        }
    }

    // One record more.
    fn count(&mut self, entry: &[u8])
        requires { length entry.now ≡ record_size words }
        ensures { self.new ≡ counted self.old entry.now }
    {
        let row = &mut self.rows[usize::from(entry[1]).min(CALLERS)];
        let number = usize::from(entry[3]).min(NUMBERS);
        row.counts[number] = row.counts[number].wrapping_add(1);
        row.bytes = row.bytes.wrapping_add(u64::from(entry[4]));
    }

    // The tally with the records of a list, read from the front. A list that is no whole number of records is refused by 12.
    #[tactic(auto, unfolding(crate::specs::Tally::with_records), using(crate::proofs::Counting::counted_none))]
    pub fn with_records(mut self, list: &[u8]) -> Result<Tally, Refusal>
        ensures { result ≡ with_records self list.now }
    {
        if list.len() % SIZE != 0 {
            return Err(Refusal::ListNotWhole);
        }
        for entry in list.chunks_exact(SIZE) {
            self.count(entry);
        }
        Ok(self)
    }
}
