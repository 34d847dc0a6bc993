// What is wrong with words that ask for nothing.
use crate::shown::shown;
use decimals::number_of;
use std::alloc::{AllocError, Global};

// A number that a word has to be; both ends count.
#[derive(Clone, Copy)]
struct Wanted {
    name: &'static str,
    least: u64,
    most: u64,
}

const OPTIONS: [Wanted; 3] = [
    Wanted {
        name: "--tries",
        least: 1,
        most: 1_000_000,
    },
    Wanted {
        name: "--slots",
        least: 4,
        most: 4_096,
    },
    Wanted {
        name: "--snap",
        least: 1,
        most: 65_536,
    },
];

const EPOCH: [Wanted; 1] = [Wanted {
    name: "EPOCH",
    least: 0,
    most: 1_048_575,
}];

const MADE: [Wanted; 3] = [
    Wanted {
        name: "SEED",
        least: 0,
        most: 2_147_483_647,
    },
    Wanted {
        name: "WORKERS",
        least: 1,
        most: 8,
    },
    Wanted {
        name: "LINES",
        least: 1,
        most: 65_536,
    },
];

/// What is wrong with the first word of a call that can't stand there; nothing where help is asked for.
pub(crate) fn reason(alloc: Global, words: &[&str]) -> Result<String, AllocError> {
    if words.iter().any(|word| is_help(word)) {
        return Ok(String::new(alloc));
    }
    if words.len() < 2 {
        return String::from_str(alloc, "a command is missing");
    }
    let rest = &words[2..];
    match words[1] {
        "run" => reason_of_options(alloc, rest),
        "dump" => reason_of_numbers(alloc, rest, &[]),
        "snaps" => reason_of_numbers(alloc, rest, &[]),
        "snap" => reason_of_numbers(alloc, rest, &EPOCH),
        "make" => reason_of_numbers(alloc, rest, &MADE),
        word => no_command(alloc, word),
    }
}

fn is_help(word: &str) -> bool {
    word == "--help" || word == "-h" || word == "help"
}

fn no_command(alloc: Global, word: &str) -> Result<String, AllocError> {
    let word = shown(alloc, word.as_bytes())?;
    format!(in alloc; "`{word}` is no command")
}

fn is_number(word: &str, wanted: Wanted) -> bool {
    match number_of(word.as_bytes()) {
        Some(number) => wanted.least <= number && number <= wanted.most,
        None => false,
    }
}

fn no_number(alloc: Global, word: &str, wanted: Wanted) -> Result<String, AllocError> {
    let word = shown(alloc, word.as_bytes())?;
    let (name, least, most) = (wanted.name, wanted.least, wanted.most);
    format!(in alloc; "`{word}` is no number from {least} to {most} for {name}")
}

fn missing(alloc: Global, wanted: Wanted) -> Result<String, AllocError> {
    let (name, least, most) = (wanted.name, wanted.least, wanted.most);
    format!(in alloc; "the number for {name} is missing, from {least} to {most}")
}

// Of words that are numbers, as many as are wanted.
fn reason_of_numbers(
    alloc: Global,
    words: &[&str],
    wanted: &[Wanted],
) -> Result<String, AllocError> {
    for index in 0..wanted.len() {
        if index >= words.len() {
            return missing(alloc, wanted[index]);
        }
        if !is_number(words[index], wanted[index]) {
            return no_number(alloc, words[index], wanted[index]);
        }
    }
    if words.len() > wanted.len() {
        return too_many(alloc, words[wanted.len()]);
    }
    Ok(String::new(alloc))
}

fn too_many(alloc: Global, word: &str) -> Result<String, AllocError> {
    let word = shown(alloc, word.as_bytes())?;
    format!(in alloc; "`{word}` is one word too many")
}

// Of the options of a run.
fn reason_of_options(alloc: Global, words: &[&str]) -> Result<String, AllocError> {
    let mut at = 0usize;
    for _ in 0..words.len() {
        if at >= words.len() {
            break;
        }
        let reason = reason_of_option(alloc, &words[..at], &words[at..])?;
        if !reason.is_empty() {
            return Ok(reason);
        }
        at = at.saturating_add(words_of(words[at]));
    }
    Ok(String::new(alloc))
}

// How many words an option is: its number may be a word of its own.
fn words_of(word: &str) -> usize {
    if word == "--brief" || word.contains('=') {
        1
    } else {
        2
    }
}

fn name_of(word: &str) -> &str {
    match word.split_once('=') {
        Some((name, _)) => name,
        None => word,
    }
}

// The number of the option at the front of the words.
fn number_of_option<'a>(words: &[&'a str]) -> Option<&'a str> {
    let word = words.first()?;
    match word.split_once('=') {
        Some((_, number)) => Some(number),
        None => words.get(1).copied(),
    }
}

// Of the option at the front of the words, behind others.
fn reason_of_option(alloc: Global, before: &[&str], words: &[&str]) -> Result<String, AllocError> {
    let Some(word) = words.first() else {
        return Ok(String::new(alloc));
    };
    let name = name_of(word);
    if before.iter().any(|other| name_of(other) == name) {
        return no_second(alloc, name);
    }
    if *word == "--brief" {
        return Ok(String::new(alloc));
    }
    match option_named(name) {
        Some(wanted) => reason_of_value(alloc, number_of_option(words), wanted),
        None => no_option(alloc, word),
    }
}

fn no_second(alloc: Global, name: &str) -> Result<String, AllocError> {
    format!(in alloc; "`{name}` stands there twice")
}

// The option of that name which has a number.
fn option_named(name: &str) -> Option<Wanted> {
    OPTIONS.iter().find(|option| option.name == name).copied()
}

// Of an option's number, where it has one.
fn reason_of_value(
    alloc: Global,
    number: Option<&str>,
    wanted: Wanted,
) -> Result<String, AllocError> {
    match number {
        Some(number) if is_number(number, wanted) => Ok(String::new(alloc)),
        Some(number) => no_number(alloc, number, wanted),
        None => missing(alloc, wanted),
    }
}

fn no_option(alloc: Global, word: &str) -> Result<String, AllocError> {
    let word = shown(alloc, word.as_bytes())?;
    format!(in alloc; "`{word}` is no option of run")
}
