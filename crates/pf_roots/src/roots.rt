//! The words that a process has, and others in place of them.

ghost use Rattle.std.specs.Prelude.{◌≡◌, ◌++◌, ◌∷◌, [], length, OnOk};
ghost use Rattle.pf_roots.specs.Moved as moved;
ghost use Rattle.pf_roots.specs.Moved.{IsMoved};

use pf_errors::NoMemory;
use pf_heap::Word;
use pf_turns::{Process, Status};

/// The word of a status; `[]` where it has none.
fn word_in(status: Status) -> Word
    ensures { result ≡ moved.word_in status }
{
    match status {
        Status::Returns(word) => word,
        Status::Ends(word) => word,
        _ => Word::Nil,
    }
}

/// A status with another word, where it has one.
fn with_word(status: Status, word: Word) -> Status
    ensures { result ≡ moved.with_word status word }
{
    match status {
        Status::Returns(_) => Status::Returns(word),
        Status::Ends(_) => Status::Ends(word),
        _ => status,
    }
}

/// Adds the words of a process to the roots of a collection: those of its registers, and then that of its status.
pub fn add_roots(process: &Process, roots: &mut Vec<Word>) -> Result<(), NoMemory>
    ensures { OnOk result (roots.new.items
        ≡ (roots.old.items ++ process.now.machine.stack.words.items) ++ moved.word_in process.now.status ∷ []) }
{
    roots.extend_from_slice(&process.machine.stack.words)?;
    roots.push(word_in(process.status))?;
    Ok(())
}

/// Puts the words that a collection gave for the registers of a process, and the one for its status, in their places.
pub fn move_words(process: &mut Process, words: &[Word], last: Word)
    requires { length words.now ≡ length process.old.machine.stack.words.items }
    ensures { IsMoved process.old words.now last process.new }
{
    process.machine.stack.words.copy_from_slice(words);
    process.status = with_word(process.status, last);
}
