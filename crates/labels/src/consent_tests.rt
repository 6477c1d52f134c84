// Consent labels, with words and formulas worked out by hand: bit n of a word stands for the parties p for which bit p of n is set.
use super::{Consent, Label, UnlawfulLabel};
use std::process::Abort;
use std::test::Fail;

const NEVER: u64 = 0;

const ALWAYS: u64 = 0xFFFF_FFFF_FFFF_FFFF;

const PARTY_0: u64 = 0xAAAA_AAAA_AAAA_AAAA;

const PARTY_1: u64 = 0xCCCC_CCCC_CCCC_CCCC;

const PARTY_2: u64 = 0xF0F0_F0F0_F0F0_F0F0;

const PARTY_3: u64 = 0xFF00_FF00_FF00_FF00;

const PARTY_4: u64 = 0xFFFF_0000_FFFF_0000;

const PARTY_5: u64 = 0xFFFF_FFFF_0000_0000;

const BOTH_0_AND_1: u64 = 0x8888_8888_8888_8888;

const EITHER_0_OR_1: u64 = 0xEEEE_EEEE_EEEE_EEEE;

const ALL_OF_0_1_2: u64 = 0x8080_8080_8080_8080;

const TWO_OF_0_1_2: u64 = 0xE8E8_E8E8_E8E8_E8E8;

const ALL_SIX: u64 = 0x8000_0000_0000_0000;

// A value, and the word of its own label in secrecy and in integrity.
const OWN_LABELS: [(i32, u64, u64); 10] = [
    (0, PARTY_0, PARTY_0),
    (1, PARTY_1, PARTY_1),
    (2, PARTY_2, PARTY_2),
    (3, PARTY_3, PARTY_3),
    (4, PARTY_4, PARTY_4),
    (5, PARTY_5, PARTY_5),
    (6, NEVER, ALWAYS),
    (-1, NEVER, ALWAYS),
    (-2147483648, NEVER, ALWAYS),
    (2147483647, NEVER, ALWAYS),
];

// The secrecy and the integrity of a label.
type Words = (u64, u64);

// Two labels, whether the first flows to the second, their join and their meet.
const PAIRS: [(Words, Words, bool, Words, Words); 8] = [
    (
        (PARTY_0, PARTY_0),
        (PARTY_1, PARTY_1),
        false,
        (BOTH_0_AND_1, EITHER_0_OR_1),
        (EITHER_0_OR_1, BOTH_0_AND_1),
    ),
    (
        (ALWAYS, NEVER),
        (PARTY_2, PARTY_2),
        true,
        (PARTY_2, PARTY_2),
        (ALWAYS, NEVER),
    ),
    (
        (PARTY_2, PARTY_2),
        (NEVER, ALWAYS),
        true,
        (NEVER, ALWAYS),
        (PARTY_2, PARTY_2),
    ),
    (
        (NEVER, ALWAYS),
        (PARTY_2, PARTY_2),
        false,
        (NEVER, ALWAYS),
        (PARTY_2, PARTY_2),
    ),
    (
        (TWO_OF_0_1_2, NEVER),
        (ALL_OF_0_1_2, ALL_SIX),
        true,
        (ALL_OF_0_1_2, ALL_SIX),
        (TWO_OF_0_1_2, NEVER),
    ),
    (
        (PARTY_3, PARTY_4),
        (PARTY_3, PARTY_4),
        true,
        (PARTY_3, PARTY_4),
        (PARTY_3, PARTY_4),
    ),
    (
        (PARTY_5, PARTY_2),
        (PARTY_5, NEVER),
        false,
        (PARTY_5, PARTY_2),
        (PARTY_5, NEVER),
    ),
    (
        (PARTY_5, NEVER),
        (ALWAYS, NEVER),
        false,
        (PARTY_5, NEVER),
        (ALWAYS, NEVER),
    ),
];

// A label, and what is printed of it.
const PRINTED: [(Words, &str); 12] = [
    (
        (ALWAYS, NEVER),
        "[always (0xffffffffffffffff); never (0x0000000000000000)]",
    ),
    (
        (PARTY_0, PARTY_0),
        "[0 (0xaaaaaaaaaaaaaaaa); 0 (0xaaaaaaaaaaaaaaaa)]",
    ),
    (
        (PARTY_1, PARTY_1),
        "[1 (0xcccccccccccccccc); 1 (0xcccccccccccccccc)]",
    ),
    (
        (PARTY_2, PARTY_2),
        "[2 (0xf0f0f0f0f0f0f0f0); 2 (0xf0f0f0f0f0f0f0f0)]",
    ),
    (
        (PARTY_3, PARTY_3),
        "[3 (0xff00ff00ff00ff00); 3 (0xff00ff00ff00ff00)]",
    ),
    (
        (PARTY_4, PARTY_4),
        "[4 (0xffff0000ffff0000); 4 (0xffff0000ffff0000)]",
    ),
    (
        (PARTY_5, PARTY_5),
        "[5 (0xffffffff00000000); 5 (0xffffffff00000000)]",
    ),
    (
        (BOTH_0_AND_1, EITHER_0_OR_1),
        "[0&1 (0x8888888888888888); 0 | 1 (0xeeeeeeeeeeeeeeee)]",
    ),
    (
        (EITHER_0_OR_1, BOTH_0_AND_1),
        "[0 | 1 (0xeeeeeeeeeeeeeeee); 0&1 (0x8888888888888888)]",
    ),
    (
        (0xF8F8_F8F8_F8F8_F8F8, NEVER),
        "[0&1 | 2 (0xf8f8f8f8f8f8f8f8); never (0x0000000000000000)]",
    ),
    (
        (TWO_OF_0_1_2, ALWAYS),
        "[0&1 | 0&2 | 1&2 (0xe8e8e8e8e8e8e8e8); always (0xffffffffffffffff)]",
    ),
    (
        (ALL_SIX, 0xFAFA_FAFA_F0F0_F0F0),
        "[0&1&2&3&4&5 (0x8000000000000000); 2 | 0&5 (0xfafafafaf0f0f0f0)]",
    ),
];

fn check_words(rt: &impl Abort, label: Consent, words: Words) {
    assert_eq!(rt; label.secrecy(), words.0);
    assert_eq!(rt; label.integrity(), words.1);
}

#[test]
fn own_labels(rt: HostRuntime) {
    for (value, secrecy, integrity) in &OWN_LABELS {
        check_words(&rt, Consent::own_label(*value), (*secrecy, *integrity));
    }
}

#[test]
fn pairs(rt: HostRuntime) -> Result<(), Fail> {
    for (a, b, flows, join, meet) in &PAIRS {
        let a = Consent::new(a.0, a.1)?;
        let b = Consent::new(b.0, b.1)?;
        assert_eq!(rt; a.flows_to(b), *flows);
        check_words(&rt, a.join(b), *join);
        check_words(&rt, a.meet(b), *meet);
    }
    check_words(&rt, Consent::lowest(), (ALWAYS, NEVER));
    Ok(())
}

fn check_unlawful(rt: &impl Abort, word: u64) {
    assert_eq!(rt; Consent::new(word, NEVER), Err(UnlawfulLabel));
    assert_eq!(rt; Consent::new(ALWAYS, word), Err(UnlawfulLabel));
}

// In 0x2 bit 1 is set and bit 3 is not. Of the words with one bit, only that of all six parties is lawful.
#[test]
fn unlawful_words(rt: HostRuntime) -> Result<(), Fail> {
    check_unlawful(&rt, 0x2);
    check_unlawful(&rt, 0x7FFF_FFFF_FFFF_FFFF);
    for n in 0..63u32 {
        check_unlawful(&rt, 1 << n);
    }
    check_words(&rt, Consent::new(ALL_SIX, ALL_SIX)?, (ALL_SIX, ALL_SIX));
    Ok(())
}

#[test]
fn printed(rt: HostRuntime) -> Result<(), Fail> {
    for (words, text) in &PRINTED {
        let label = Consent::new(words.0, words.1)?;
        let shown = label.to_string(rt.alloc())?;
        assert_eq!(rt; shown.as_str(), *text);
    }
    Ok(())
}
