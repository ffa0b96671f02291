//! The words of all machines of a run as roots, and the words that a collection gave in their places.

ghost use Rattle.std.specs.Prelude.{◌≡◌, ◌+◌, ◌≤◌, ◌++◌, length, IfOk, List};
ghost use Rattle.std.specs.List.{All};
ghost use Rattle.pf_heap.specs.Heap.{word_values, Cell, IsWordOf};
ghost use Rattle.pf_roots.specs.Kept.{all_words_of, AreKept, ConstantsKept};
ghost use Rattle.pf_roots.specs.Puts.{ArePut, IsPut};

use crate::roots::{add_roots, move_words};
use pf_errors::NoMemory;
use pf_heap::Word;
use pf_machine::Machine;
use std::alloc::Global;

/// The words of constants and then those of all machines, in order.
pub(crate) fn all_roots(
    alloc: Global,
    constants: &[Word],
    machines: &[Machine],
) -> Result<Vec<Word>, NoMemory>
    ensures { IfOk result (λ v. v.items ≡ constants.now ++ all_words_of machines.now) }
{
    let mut roots = Vec::new(alloc);
    roots.extend_from_slice(constants)?;
    let mut rest = machines;
    while let Some((machine, others)) = rest.split_first() {
        add_roots(&machine.process, &mut roots)?;
        rest = others;
    }
    Ok(roots)
}

/// Puts the first of these words in place of those of a machine, and answers the others.
pub fn move_machine<'a>(machine: &mut Machine, words: &'a [Word]) -> &'a [Word]
    requires { length machine.old.process.machine.stack.words.items + 1 ≤ length words.now }
    ensures { IsPut machine.old words.now machine.new result.now }
{
    let count = machine.process.machine.stack.words.len();
    move_words(&mut machine.process, &words[..count], words[count]);
    &words[count + 1..]
}

/// Puts words in place of those of all machines.
fn move_machines(machines: &mut [Machine], words: &[Word])
    requires { length (all_words_of machines.old) ≤ length words.now }
    ensures { ArePut machines.old words.now machines.new }
{
    let mut rest = words;
    for index in 0..machines.len() {
        rest = move_machine(&mut machines[index], rest);
    }
}

/// Puts the words that a collection gave for all roots of a run in their places.
pub(crate) fn move_all(constants: &mut Vec<Word>, machines: &mut [Machine], words: &[Word])
    requires { length words.now ≡ length constants.old.items + length (all_words_of machines.old) }
    ensures constants { (h g : List Cell)
        → word_values g words.now ≡ word_values h (constants.old.items ++ all_words_of machines.old)
        → All (IsWordOf g) words.now → ConstantsKept h constants.old.items g constants.new.items }
    ensures machines { (h g : List Cell)
        → word_values g words.now ≡ word_values h (constants.old.items ++ all_words_of machines.old)
        → All (IsWordOf g) words.now → AreKept h machines.old g machines.new }
{
    let count = constants.len();
    constants.copy_from_slice(&words[..count]);
    move_machines(machines, &words[count..]);
}
