//! What is said where the words are no command: how they should be, and of a word that is refused
//! what it has to be.
use cli_words::limits::{
    GREATEST_PORT, MOST_BETWEEN, MOST_CONNECTIONS, MOST_ROUNDS, MOST_WORKLOAD,
};
use cli_words::operands_shown;
use command_lines::UsageKind;
use std::alloc::Global;
use u1_base::limits::{
    GREATEST_COUNT, GREATEST_IMAGE_LIMIT, LEAST_IMAGE_LIMIT, MOST_CLOCK_ENTRIES,
    MOST_DOCUMENT_ID_BYTES, MOST_KEY_TEXTS, MOST_NAME_BYTES,
};
use u1_base::{Memory, Text};

/// The commands that are built, in the order in which they are listed.
const COMMANDS: [&str; 18] = [
    "init",
    "create",
    "get",
    "put",
    "delete",
    "all",
    "changes",
    "info",
    "conflicts",
    "resolve",
    "resolve-deleted",
    "index-create",
    "index-list",
    "index-delete",
    "query",
    "range",
    "keys",
    "compact",
];

/// The usage of the command that the words name, one that is not built among them, or of all that
/// are built. For a word that is refused, that word comes first, and what it has to be.
pub fn usage(alloc: Global, words: &[Text], kind: UsageKind) -> Result<String, Memory> {
    let mut text = String::new(alloc);
    push_said(&mut text, words, kind)?;
    Ok(text)
}

fn push_said(text: &mut String, words: &[Text], kind: UsageKind) -> Result<(), Memory> {
    if let UsageKind::Value(place) = kind {
        push_refused(text, words, place)?;
    }
    match words.get(1) {
        Some(word) => push_usage(text, word.as_str()),
        None => push_all(text),
    }
}

fn push_usage(text: &mut String, command: &str) -> Result<(), Memory> {
    match operands_shown(command) {
        Some(shown) => {
            text.push_str("usage: u1db DIR ")?;
            push_line(text, command, shown)
        }
        None => push_all(text),
    }
}

fn push_all(text: &mut String) -> Result<(), Memory> {
    text.push_str("usage: u1db DIR COMMAND, with one of these commands:\n")?;
    for command in COMMANDS.iter() {
        push_listed(text, command)?;
    }
    Ok(())
}

fn push_listed(text: &mut String, command: &str) -> Result<(), Memory> {
    match operands_shown(command) {
        Some(shown) => {
            text.push_str("  ")?;
            push_line(text, command, shown)
        }
        None => Ok(()),
    }
}

fn push_line(text: &mut String, command: &str, shown: &str) -> Result<(), Memory> {
    text.push_str(command)?;
    if !shown.is_empty() {
        text.push_str(" ")?;
        text.push_str(shown)?;
    }
    if reads_content(command) {
        text.push_str("    with the content, a JSON object, on standard input")?;
    }
    text.push_str("\n")?;
    Ok(())
}

fn reads_content(command: &str) -> bool {
    matches!(command, "create" | "put" | "resolve")
}

// The word at the place, and what it has to be.
fn push_refused(text: &mut String, words: &[Text], place: u64) -> Result<(), Memory> {
    let Ok(place) = usize::try_from(place) else {
        return Ok(());
    };
    let Some(word) = words.get(place) else {
        return Ok(());
    };
    text.push_str("u1db: ")?;
    push_shown(text, word.as_str())?;
    text.push_str(": ")?;
    push_rule(text, rule_at(words, place))?;
    text.push_str("\n")?;
    Ok(())
}

// The word as people can read it: what could steer a terminal, or is not seen, is escaped.
fn push_shown(text: &mut String, word: &str) -> Result<(), Memory> {
    for character in word.chars() {
        push_character(text, character)?;
    }
    Ok(())
}

// Quotes stand as they are, since lists of texts have many.
fn push_character(text: &mut String, character: char) -> Result<(), Memory> {
    match character {
        '"' | '\'' => text.push(character)?,
        _ => text.extend(character.escape_debug())?,
    }
    Ok(())
}

// What a word has to be.
#[derive(Clone, Copy)]
enum Rule {
    Words(&'static str),
    // Up to so many of something, as the words before and after the number say.
    Most(&'static str, usize, &'static str),
    // A number of this kind, from the least to the greatest.
    Between(&'static str, u64, u64),
}

fn push_rule(text: &mut String, rule: Rule) -> Result<(), Memory> {
    match rule {
        Rule::Words(words) => text.push_str(words)?,
        Rule::Most(before, most, after) => {
            text.push_str(before)?;
            push_number(text, most as u64)?;
            text.push_str(after)?;
        }
        Rule::Between(what, least, greatest) => {
            text.push_str(what)?;
            text.push_str(" from ")?;
            push_number(text, least)?;
            text.push_str(" to ")?;
            push_number(text, greatest)?;
        }
    }
    Ok(())
}

fn push_number(text: &mut String, number: u64) -> Result<(), Memory> {
    let digits = format!(in *text.allocator(); "{number}")?;
    text.push_str(&digits)?;
    Ok(())
}

// What the word at the place has to be.
fn rule_at(words: &[Text], place: usize) -> Rule {
    let name = operand_at(words, place);
    match name {
        "COUNT" if makes_workload(words) => {
            Rule::Between("a count of documents is a number", 0, MOST_WORKLOAD)
        }
        _ => rule_of(name),
    }
}

// The name of the operand that stands at the place, as the usage shows it.
fn operand_at(words: &[Text], place: usize) -> &'static str {
    let Some(command) = words.get(1) else {
        return "";
    };
    match (operands_shown(command.as_str()), number_of(words, place)) {
        (Some(shown), Some(number)) => named(shown, number),
        (Some(_), None) => "N",
        (None, _) => "",
    }
}

// Which operand stands at the place, counted from 0; or none, where it is the value of an option.
fn number_of(words: &[Text], place: usize) -> Option<usize> {
    let mut number = 0_usize;
    let mut is_ended = false;
    let mut is_value = false;
    for word in words.iter().take(place).skip(2) {
        let word = word.as_str();
        if !is_ended && word == "--" {
            is_ended = true;
        } else if !is_ended && word.len() > 1 && word.starts_with('-') {
            is_value = word == "--limit";
        } else if is_value {
            is_value = false;
        } else {
            number = number.saturating_add(1);
        }
    }
    if is_value || !is_ended && has_value(words, place) {
        None
    } else {
        Some(number)
    }
}

// Whether the word at the place is the option together with its value.
fn has_value(words: &[Text], place: usize) -> bool {
    match words.get(place) {
        Some(word) => word.as_str().as_bytes().starts_with(b"--limit="),
        None => false,
    }
}

// The name at this number; the last one may stand for more operands.
fn named(shown: &'static str, number: usize) -> &'static str {
    let mut last = "";
    for (place, name) in shown.split(' ').enumerate() {
        if place <= number {
            last = name;
        }
    }
    last
}

fn makes_workload(words: &[Text]) -> bool {
    match words.get(1) {
        Some(word) => word.as_str() == "work",
        None => false,
    }
}

// What a word has to be that stands for the operand of this name, in a command that makes no
// workload.
fn rule_of(name: &str) -> Rule {
    match name {
        "GENERATION" => Rule::Between("a generation is a number", 0, GREATEST_COUNT),
        "PORT" => Rule::Between("a port is a number", 1, GREATEST_PORT),
        "COUNT" => Rule::Between("a count of connections is a number", 1, MOST_CONNECTIONS),
        "ROUNDS" => Rule::Between("a count of rounds is a number", 1, MOST_ROUNDS),
        "BETWEEN" => Rule::Between("a count of connections is a number", 0, MOST_BETWEEN),
        "SEED" => Rule::Between("a seed is a number", 0, u64::MAX),
        "N" => Rule::Between(
            "a limit is a number of bytes",
            LEAST_IMAGE_LIMIT,
            GREATEST_IMAGE_LIMIT,
        ),
        "NAME" | "INDEX" => {
            Rule::Most(
                "a name has 1 to ",
                MOST_NAME_BYTES,
                " letters, digits and . _ -",
            )
        }
        "[UID]" => Rule::Most(
            "a uid has 1 to ",
            MOST_NAME_BYTES,
            " letters, digits and _ -",
        ),
        "ID" | "[ID]" => Rule::Most(
            "an id has 1 to ",
            MOST_DOCUMENT_ID_BYTES,
            " letters, digits and . _ - %",
        ),
        "REV" | "[REV]" | "REV..." => Rule::Most(
            "a revision is 1 to ",
            MOST_CLOCK_ENTRIES,
            " times UID:COUNTER, sorted by UID and joined by |",
        ),
        "START" | "END" => {
            Rule::Most(
                "an end is open, or a JSON list of 1 to ",
                MOST_KEY_TEXTS,
                " strings",
            )
        }
        "ADDRESS" => Rule::Words("an address is a URL as http://host:8080/db"),
        _ => Rule::Words("it cannot stand there"),
    }
}
