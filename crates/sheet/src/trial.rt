// One trial: an array is formatted and loaded, power is cut, and it is resynchronized.
use crate::bookkeeping::{note_all, settle};
use crate::disks::{Disks, wrong_on};
use crate::load::{DATA_BLOCKS, STRIPES};
use array::array::Array;
use array_model::answer::ResyncCounts;
use array_model::state::State;
use array_run::answer::Answer;
use array_run::call::Call;
use array_run::give_up::give_up_all;
use array_run::run::run;
use array_run::tokens::Tokens;
use geometry::layout::LeftSymmetric;
use intent_log::IntentLog;
use sheet_book::book::Book;
use std::alloc::{AllocError, Global};
use std::ops::AddAssign;

/// An array with layout 3 on disks that power can be cut from.
pub type TrialArray<G> = Array<Disks, G, LeftSymmetric>;

/// The calls of a trial.
#[derive(Drop)]
pub struct Script<'a> {
    pub load: Vec<Call<'a>>,
    pub resync: Vec<Call<'a>>,
    pub reads: Vec<Call<'a>>,
}

/// What was found around a resynchronization that was not cut.
#[derive(Clone, Copy, Default)]
pub struct Found {
    /// Stripes with wrong parity before it.
    pub wrong_before: usize,
    /// Stripes that the log named then.
    pub named: usize,
    /// Stripes that it mended.
    pub mended: usize,
    /// Stripes with wrong parity after it.
    pub wrong_after: usize,
    /// Blocks that did not hold their base or bytes on their list after a resynchronization.
    pub off_book: usize,
}

/// How a trial went.
#[derive(Clone, Copy)]
pub struct Trial {
    /// Was the load cut?
    pub load_cut: bool,
    /// Was the resynchronization after it cut, and made again?
    pub resync_cut: bool,
    pub found: Found,
}

impl AddAssign<Found> for Found {
    fn add_assign(&mut self, other: Found) {
        self.wrong_before = self.wrong_before.saturating_add(other.wrong_before);
        self.named = self.named.saturating_add(other.named);
        self.mended = self.mended.saturating_add(other.mended);
        self.wrong_after = self.wrong_after.saturating_add(other.wrong_after);
        self.off_book = self.off_book.saturating_add(other.off_book);
    }
}

// How many stripes of the array the log names.
fn named_stripes<G: IntentLog>(log: &G) -> usize {
    (0..STRIPES as u32)
        .filter(|stripe| log.is_named(*stripe) == Ok(true))
        .count()
}

// What a finish among the answers counted, where one was accepted.
fn finish_counts(answers: &[Answer]) -> Option<ResyncCounts> {
    answers.iter().find_map(|answer| match answer {
        Answer::Finish(counts) => counts.ok(),
        _ => None,
    })
}

/// A resynchronization that was accepted.
#[derive(Clone, Copy)]
struct Resynced {
    mended: usize,
    off_book: usize,
}

/// A trial as it runs: the array and its tokens, the book, and the calls to make.
struct Run<'a, G> {
    heap: Global,
    array: TrialArray<G>,
    tokens: Tokens,
    book: Book,
    script: &'a Script<'a>,
}

impl<'a, G: IntentLog> Run<'a, G> {
    // Makes calls, and feeds the book with them and their answers.
    fn make(&mut self, calls: &[Call]) -> Result<Vec<Answer>, AllocError> {
        let mut answers = Vec::new(self.heap);
        run(
            self.heap,
            &mut self.array,
            &mut self.tokens,
            calls,
            &mut answers,
        )?;
        note_all(&mut self.book, calls, answers.as_slice())?;
        Ok(answers)
    }

    fn is_fallen(&self) -> bool {
        self.array.state() == State::Fallen
    }

    // Opens, steps to the end and finishes. Once that is accepted, reads every block and compares it with the book.
    fn resync(&mut self) -> Result<Option<Resynced>, AllocError> {
        let answers = self.make(self.script.resync.as_slice())?;
        let Some(counts) = finish_counts(answers.as_slice()) else {
            return Ok(None);
        };
        let reads = self.script.reads.as_slice();
        let blocks = self.make(reads)?;
        Ok(Some(Resynced {
            mended: counts.mended,
            off_book: settle(&mut self.book, reads, blocks.as_slice()),
        }))
    }

    // Powers on after a cut, looks, and resynchronizes.
    fn recover(&mut self) -> Result<Found, AllocError> {
        let _ = self.make(&[Call::PowerOn])?;
        let wrong_before = wrong_on(self.array.store());
        let named = named_stripes(self.array.log());
        let resynced = self.resync()?.unwrap_or(Resynced {
            mended: 0,
            off_book: DATA_BLOCKS,
        });
        Ok(Found {
            wrong_before,
            named,
            mended: resynced.mended,
            wrong_after: wrong_on(self.array.store()),
            off_book: resynced.off_book,
        })
    }

    // Formats, opens, and makes the calls of the load. Answers how many blocks were off the book once it was opened.
    fn work(&mut self) -> Result<usize, AllocError> {
        let _ = self.make(&[Call::PowerOn, Call::Format, Call::PowerOn])?;
        let resynced = self.resync()?;
        let _ = self.make(self.script.load.as_slice())?;
        Ok(resynced.map_or(0, |resynced| resynced.off_book))
    }

    // Works and recovers: once, or twice where the first time was cut.
    fn play(&mut self) -> Result<Trial, AllocError> {
        let off_book = self.work()?;
        let load_cut = self.is_fallen();
        let mut found = self.recover()?;
        let resync_cut = self.is_fallen();
        if resync_cut {
            found = self.recover()?;
        }
        found.off_book = found.off_book.saturating_add(off_book);
        Ok(Trial {
            load_cut,
            resync_cut,
            found,
        })
    }

    // Gives up all tokens that are left.
    fn end(self)
    where
        G: Drop,
    {
        let Run {
            mut array,
            tokens,
            heap: _,
            book: _,
            script: _,
        } = self;
        give_up_all(&mut array, tokens);
    }
}

/// Runs a trial on a new array.
pub fn try_out<G: IntentLog + Drop>(
    heap: Global,
    array: TrialArray<G>,
    script: &Script,
) -> Result<Trial, AllocError> {
    let book = Book::new(heap, DATA_BLOCKS)?;
    let mut run = Run {
        heap,
        array,
        tokens: Tokens::new(heap),
        book,
        script,
    };
    let found = run.play();
    run.end();
    found
}
