//! The words of generators, and what is chosen by them.

ghost use Rattle.std.specs.Prelude.{◌<◌};

use pf_choice::Choices;
use pf_strategy::Priorities;
use rand_pcg::Lcg64Xsh32;
use std::alloc::Global;
use std::test::Fail;

// Among as many things as a word has values, the choice is the word.
const WORDS: usize = 4294967296;

/// Whether choices among these numbers of processes and channels are these.
fn chooses(choices: &mut Choices, procs: usize, chans: usize, wanted: &[usize]) -> bool
    requires { 0 < procs }
{
    for choice in wanted {
        if choices.next_of(procs, chans) != *choice {
            return false;
        }
    }
    true
}

/// The generator's published words of state 42 and stream 54.
const PUBLISHED: [usize; 6] = [
    0xa15c02b7, 0x7b47f409, 0xba1d3330, 0x83d2f293, 0xbfa4784b, 0xcbed606e,
];

/// The first words of seeds, from the generator's public definition, worked out apart from this crate.
const WORDS_OF_SEEDS: [(u64, [usize; 4]); 4] = [
    (0, [0x11cdd903, 0xfc843fd7, 0x140833d3, 0x3efaaf3e]),
    (1, [0x33a70be6, 0x7dbcf3ee, 0xcadf4751, 0x11ac71c0]),
    (7, [0x91915ee9, 0x18ae1cbe, 0xa388049d, 0xd2193ac4]),
    (u64::MAX, [0x982f997e, 0x513da686, 0xe017d20c, 0xc8ade03d]),
];

#[test]
fn words_are_those_of_the_generator(rt: HostRuntime) {
    let mut published = Choices::generator(Lcg64Xsh32::new(42, 54));
    assert!(rt; chooses(&mut published, WORDS, 0, &PUBLISHED));
    for (seed, words) in WORDS_OF_SEEDS {
        assert!(rt; chooses(&mut Choices::seed(seed), WORDS, 0, &words));
    }
}

/// Two processes and three channels by weights 3 and 1: the choices by the first words of seed 0, of which each goes by
/// a number from 0 to 8, modulo 9.
const THREE_TO_ONE: [usize; 16] = [0, 1, 1, 0, 2, 1, 1, 0, 4, 0, 1, 1, 0, 0, 1, 2];

#[test]
fn weights_and_schedules_choose(rt: HostRuntime) -> Result<(), Fail> {
    assert!(rt; chooses(&mut Choices::weighted(0, 3, 1), 2, 3, &THREE_TO_ONE));
    let mut choices: Choices = Choices::schedule(vec![in rt.alloc(); 7, 4294967295]?);
    assert!(rt; choices.next(3) == 1 && chooses(&mut choices, WORDS, 0, &[4294967295, 0]));
    Ok(())
}

/// Processes and channels.
type Among = (&'static [u32], &'static [(u32, u32)]);

/// Those who may go, event after event: some come between others, some vanish, and some come back.
const EVENTS: [Among; 9] = [
    (&[2], &[(0, 5), (0, 9)]),
    (&[2], &[(0, 5), (0, 9)]),
    (&[3], &[(0, 5)]),
    (&[3], &[(0, 5), (0, 9)]),
    (&[3], &[(0, 9)]),
    (&[3], &[]),
    (&[0, 1, 2, 3], &[(0, 4), (0, 5)]),
    (&[0, 1, 2, 3], &[(0, 4), (0, 5)]),
    (&[0, 1, 2, 3], &[(0, 4), (0, 5)]),
];

/// Whether the priorities of a seed choose so.
fn prefers(alloc: Global, seed: u64, wanted: &[usize]) -> Result<bool, Fail> {
    let mut priorities = Priorities::seed(alloc, seed);
    for ((pids, channels), index) in EVENTS.iter().zip(wanted) {
        if pids.is_empty() || channels.len() > 2 || pids.len() > 4 {
            return Ok(false);
        }
        if priorities.choose(pids, channels)? != *index {
            return Ok(false);
        }
    }
    Ok(true)
}

// Worked out apart from the crate, from the generator's public definition.
#[test]
fn priorities_go_by_the_words_of_seeds(rt: HostRuntime) -> Result<(), Fail> {
    for (seed, wanted) in [
        (0, [1, 1, 1, 2, 0, 0, 2, 2, 3]),
        (1, [2, 1, 0, 0, 0, 0, 5, 2, 0]),
        (7, [2, 2, 0, 0, 0, 0, 3, 4, 0]),
    ] {
        assert!(rt; prefers(rt.alloc(), seed, &wanted)?);
    }
    Ok(())
}
