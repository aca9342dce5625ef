//! Lists of words, and the commands that they are.
use super::*;
use std::test::*;

// Words with one blank between them: two blanks, or one at an end, have an empty word beside them.
const LISTS: [(&str, Option<Command>); 91] = [
    ("one", Some(Command::One)),
    ("check", Some(Command::Check)),
    ("gen --seed 7", Some(Command::Gen { seed: 7 })),
    ("gen --seed=7", Some(Command::Gen { seed: 7 })),
    ("gen --seed 007", Some(Command::Gen { seed: 7 })),
    ("gen --seed=007", Some(Command::Gen { seed: 7 })),
    ("gen --seed 0", Some(Command::Gen { seed: 0 })),
    ("gen --seed=00", Some(Command::Gen { seed: 0 })),
    (
        "gen --seed 18446744073709551615",
        Some(Command::Gen {
            seed: 18446744073709551615,
        }),
    ),
    (
        "gen --seed=18446744073709551615",
        Some(Command::Gen {
            seed: 18446744073709551615,
        }),
    ),
    (
        "gen --seed 00000000000000000007",
        Some(Command::Gen { seed: 7 }),
    ),
    // More than 2^64 - 1, and more than 20 digits.
    ("gen --seed 18446744073709551616", None),
    ("gen --seed 99999999999999999999", None),
    ("gen --seed 000000000000000000007", None),
    ("gen --seed=000000000000000000007", None),
    ("gen --seed 018446744073709551615", None),
    // Values that are no digits.
    ("gen --seed", None),
    ("gen --seed ", None),
    ("gen --seed=", None),
    ("gen --seed -1", None),
    ("gen --seed=-1", None),
    ("gen --seed +1", None),
    ("gen --seed=+1", None),
    ("gen --seed 0x7", None),
    ("gen --seed 7a", None),
    ("gen --seed 7.0", None),
    ("gen --seed 1_000", None),
    ("gen --seed \u{0667}", None),
    ("gen --seed==7", None),
    ("gen --seed=7=7", None),
    ("gen --seed -", None),
    ("gen --seed --", None),
    ("gen --seed --seed", None),
    ("gen --seed --seed 7", None),
    ("gen --seed= 7", None),
    // An option twice, and options that the command hasn't.
    ("gen --seed 7 --seed 7", None),
    ("gen --seed=7 --seed=7", None),
    ("gen --seed 7 --seed", None),
    ("gen --seed 7 --workers 1", None),
    ("gen --workers 1", None),
    ("gen --see 7", None),
    ("gen --seeds 7", None),
    ("gen --SEED 7", None),
    ("gen -seed 7", None),
    ("gen -s 7", None),
    ("gen --=7", None),
    ("gen seed 7", None),
    ("gen seed=7", None),
    // Words that no option has.
    ("gen", None),
    ("gen 7", None),
    ("gen --seed 7 8", None),
    ("gen 8 --seed 7", None),
    ("gen --seed 7 ", None),
    ("gen --seed 7 --", None),
    ("gen -- --seed 7", None),
    ("gen --seed 7 -h", None),
    ("gen --seed 7 --help", None),
    ("gen --seed 7 --version", None),
    ("gen help", None),
    ("one now", None),
    ("one one", None),
    ("one ", None),
    ("one --", None),
    ("one --help", None),
    ("one --seed 7", None),
    ("one -V", None),
    ("check x", None),
    ("check --seed=7", None),
    ("check help", None),
    // First words that are no command.
    ("run --workers 1", None),
    ("run --workers 0", None),
    ("ONE", None),
    ("on", None),
    ("ones", None),
    ("xfrm one", None),
    (" one", None),
    ("--one", None),
    ("--seed 7 gen", None),
    ("--seed=7 gen", None),
    ("--", None),
    ("-- one", None),
    ("-", None),
    ("-h", None),
    ("--help", None),
    ("help", None),
    ("help gen", None),
    ("-V", None),
    ("--version", None),
    ("version", None),
    ("", None),
    (" ", None),
];

#[test]
fn lists_of_words(rt: HostRuntime) {
    let alloc = rt.alloc();
    for (list, command) in LISTS.iter() {
        let mut words = Vec::new(alloc);
        for word in list.split(" ") {
            let word = String::from_str(alloc, word).expect(&rt, "memory");
            words.push(word).expect(&rt, "memory");
        }
        let found = read_command(alloc, words.as_slice()).expect(&rt, "memory");
        assert!(rt; found == *command, "{list}");
    }
}

#[test]
fn no_words(rt: HostRuntime) {
    let found = read_command(rt.alloc(), &[]).expect(&rt, "memory");
    assert!(rt; found == None);
}
