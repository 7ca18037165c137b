// Feeds the book with calls and their answers.
use array_model::refusal::ArrayRefusal;
use array_run::answer::Answer;
use array_run::call::Call;
use intent_log::refusal::LogRefusal;
use member_store::refusal::Refusal;
use sheet_book::block_of;
use sheet_book::book::Book;
use std::alloc::AllocError;

// Was the call refused because power was gone?
fn is_power_cut(refusal: &ArrayRefusal) -> bool {
    matches!(
        refusal,
        ArrayRefusal::Members(Refusal::PowerOff(_))
            | ArrayRefusal::Log(LogRefusal::Off | LogRefusal::Store(Refusal::PowerOff(_)))
    )
}

fn note_write(
    book: &mut Book,
    block: usize,
    bytes: &[u8],
    answer: &Answer,
) -> Result<(), AllocError> {
    match (answer, block_of(bytes)) {
        (Answer::Plain(Ok(())), Some(content)) => book.write(block, content),
        _ => Ok(()),
    }
}

fn note_format(book: &mut Book, answer: &Answer) -> Result<(), AllocError> {
    match answer {
        Answer::Plain(Ok(())) => {
            book.format();
            Ok(())
        }
        Answer::Plain(Err(e)) if is_power_cut(e) => book.cut_format(),
        _ => Ok(()),
    }
}

// Flush and close.
fn note_flush(book: &mut Book, answer: &Answer) {
    if matches!(answer, Answer::Flush(Ok(_)) | Answer::Plain(Ok(()))) {
        book.flush();
    }
}

// One call; a finish is settled once the blocks are read.
fn note(book: &mut Book, call: &Call, answer: &Answer) -> Result<(), AllocError> {
    match call {
        Call::Write { block, bytes } => note_write(book, *block, bytes, answer),
        Call::Format => note_format(book, answer),
        Call::Flush | Call::Close => {
            note_flush(book, answer);
            Ok(())
        }
        _ => Ok(()),
    }
}

/// Feeds the book with calls and their answers, in order.
pub fn note_all(book: &mut Book, calls: &[Call], answers: &[Answer]) -> Result<(), AllocError> {
    for (call, answer) in calls.iter().zip(answers) {
        note(book, call, answer)?;
    }
    Ok(())
}

// One block after a finish: does it hold what the book allows? What it holds is its base from now on.
fn settle_block(book: &mut Book, call: &Call, answer: &Answer) -> bool {
    let (Call::Read { block, .. }, Answer::Read(Ok(bytes))) = (call, answer) else {
        return false;
    };
    let allowed = book.allows(*block, bytes.as_slice());
    if let Some(content) = block_of(bytes.as_slice()) {
        book.rebase(*block, content);
    }
    allowed
}

/// An accepted finish makes what each block holds its base and empties the lists: settles the book by reads of all
/// blocks, and answers how many were off the book.
pub fn settle(book: &mut Book, reads: &[Call], answers: &[Answer]) -> usize {
    let mut off = 0usize;
    for (call, answer) in reads.iter().zip(answers) {
        if !settle_block(book, call, answer) {
            off = off.saturating_add(1);
        }
    }
    book.empty_lists();
    off
}
