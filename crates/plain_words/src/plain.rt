// The five rules of plain words.
ghost use Rattle.std.specs.Prelude.{◌≡◌, ◌==◌, ◌||◌, not, length, map, string_bytes, if◌then◌else◌};
ghost use Rattle.std.specs.List.{list_all, list_any};
ghost use Rattle.std.specs.Str.{bytes_eq};
ghost use Rattle.plain_words.specs.Rules.{are_plain, begins_with_value, has_arguments, has_options_once, has_values, is_dashed, named_words, option_word};
ghost use Rattle.plain_words.specs.View.{form_of};

use crate::command_row::{CommandRow, OptionRow};

/// Whether the words after a command are plain:
///
/// 1. No word is empty.
/// 2. Each word that begins with a dash is one of the command's options.
/// 3. Each option stands at most once.
/// 4. Each option is followed by its value, which doesn't begin with a dash.
/// 5. The other words are as many as the command's arguments, of which the last may be missing.
///
/// The rules stand in `docs/COMMANDS.md`.
#[tactic(auto, using(crate::proofs::Lists::all_of_mapped, crate::proofs::Lists::any_of_mapped))]
pub fn are_plain(row: &CommandRow, words: &[String]) -> bool
    ensures { result ≡ are_plain (form_of row.now) (map string_bytes words.now) }
{
    has_no_empty(words)
        && has_known_options(row.options, words)
        && has_options_once(words)
        && has_values(words)
        && has_arguments(row, words)
}

fn has_no_empty(words: &[String]) -> bool
    ensures { result ≡ list_all (λ word. not (length (string_bytes word) == 0)) words.now }
{
    words.iter().all(|word| !word.is_empty())
}

fn has_known_options(options: &[OptionRow], words: &[String]) -> bool
    ensures { result ≡ list_all (λ word. not (is_dashed (string_bytes word)) || list_any (λ option. bytes_eq (option_word option.name.now) (string_bytes word)) options.now) words.now }
{
    words
        .iter()
        .all(|word| !is_dashed(word) || is_option(options, word))
}

fn is_option(options: &[OptionRow], word: &String) -> bool
    ensures { result ≡ list_any (λ option. bytes_eq (option_word option.name.now) (string_bytes word.now)) options.now }
{
    options.iter().any(|option| is_named(option, word))
}

// Whether a word is the option's name behind two dashes.
fn is_named(option: &OptionRow, word: &String) -> bool
    ensures { result ≡ bytes_eq (option_word option.now.name.now) (string_bytes word.now) }
{
    match word.as_bytes() {
        [b'-', b'-', name @ ..] => option.name.as_bytes() == name,
        _ => false,
    }
}

fn has_options_once(words: &[String]) -> bool
    ensures { result ≡ has_options_once (map string_bytes words.now) }
{
    for (place, word) in words.iter().enumerate() {
        if is_dashed(word) && stands_in(word.as_str(), &words[place + 1..]) {
            return false;
        }
    }
    true
}

fn stands_in(word: &str, words: &[String]) -> bool
    ensures { result ≡ list_any (λ other. bytes_eq word.now (string_bytes other)) words.now }
{
    words.iter().any(|other| word == other.as_str())
}

fn has_values(words: &[String]) -> bool
    ensures { result ≡ has_values (map string_bytes words.now) }
{
    for (place, word) in words.iter().enumerate() {
        if is_dashed(word) && !begins_with_value(&words[place + 1..]) {
            return false;
        }
    }
    true
}

fn begins_with_value(words: &[String]) -> bool
    ensures { result ≡ begins_with_value (map string_bytes words.now) }
{
    match words.first() {
        None => false,
        Some(word) => !is_dashed(word),
    }
}

fn has_arguments(row: &CommandRow, words: &[String]) -> bool
    ensures { result ≡ has_arguments (form_of row.now) (map string_bytes words.now) }
{
    let named = named_count(words);
    named <= row.arguments.len() && row.arguments.len() - named <= row.missing
}

// How many words are neither options nor values.
fn named_count(words: &[String]) -> usize
    ensures { result ≡ length (named_words (map string_bytes words.now)) }
{
    let mut count = 0;
    let mut is_value = false;
    for word in words {
        count += one_if_named(is_value, word);
        is_value = is_dashed(word);
    }
    count
}

fn one_if_named(is_value: bool, word: &String) -> usize
    ensures { result ≡ (if is_value || is_dashed (string_bytes word.now) then 0 else 1) }
{
    if is_value || is_dashed(word) { 0 } else { 1 }
}

fn is_dashed(word: &String) -> bool
    ensures { result ≡ is_dashed (string_bytes word.now) }
{
    match word.as_bytes() {
        [] => false,
        [first, ..] => *first == b'-',
    }
}
