use super::*;
use std::alloc::{AllocError, Global};
use std::test::Fail;

const SOLVE: CommandRow = CommandRow {
    word: "solve",
    arguments: &["INSTANCE"],
    missing: 0,
    options: &[
        OptionRow {
            name: "splits",
            value: "N",
        },
        OptionRow {
            name: "plan",
            value: "FILE",
        },
    ],
};

const CHECK: CommandRow = CommandRow {
    word: "check",
    arguments: &["INSTANCE", "PROOF", "PLAN"],
    missing: 1,
    options: &[],
};

// The words of a text; `''` stands for an empty word.
fn words_of(alloc: Global, text: &str) -> Result<Vec<String>, AllocError> {
    let mut words = Vec::new(alloc);
    for word in text.split_whitespace() {
        let word = if word == "''" { "" } else { word };
        words.push(String::from_str(alloc, word)?)?;
    }
    Ok(words)
}

#[test]
fn plain_words_of_a_command(rt: HostRuntime) -> Result<(), Fail> {
    let cases = [
        (SOLVE, "s", true),
        (SOLVE, "--splits 7 s --plan p", true),
        (SOLVE, "s --plan p --splits 7", true),
        (SOLVE, "", false),
        (SOLVE, "''", false),
        (SOLVE, "s t", false),
        (SOLVE, "-- s", false),
        (SOLVE, "-h", false),
        (SOLVE, "s --splits", false),
        (SOLVE, "s --splits=5", false),
        (SOLVE, "s --proof q", false),
        (SOLVE, "s --plan -p", false),
        (SOLVE, "s --plan ''", false),
        (SOLVE, "s --plan p --plan q", false),
        (CHECK, "s", false),
        (CHECK, "s q", true),
        (CHECK, "s q p", true),
        (CHECK, "s q p r", false),
    ];
    for (row, text, plain) in cases {
        let words = words_of(rt.alloc(), text)?;
        assert_eq!(rt; are_plain(&row, &words), plain, "{text}");
    }
    Ok(())
}

#[test]
fn values_of_plain_words(rt: HostRuntime) -> Result<(), Fail> {
    let words = words_of(rt.alloc(), "solve --splits 7 s --plan p")?;
    assert!(rt; words.len() > 0 && are_plain(&SOLVE, &words[1..]));
    let matches = plain_matches(rt.alloc(), &SOLVE, &words)?;
    assert_eq!(rt; matches.get_str("INSTANCE").unwrap_or("-"), "s");
    assert_eq!(rt; matches.get_str("splits").unwrap_or("-"), "7");
    assert_eq!(rt; matches.get_str("plan").unwrap_or("-"), "p");
    Ok(())
}

#[test]
fn usage_lines(rt: HostRuntime) -> Result<(), Fail> {
    let mut text = String::new(rt.alloc());
    push_usage_line(&SOLVE, &mut text)?;
    push_usage_line(&CHECK, &mut text)?;
    assert_eq!(rt;
        text.as_str(),
        "solve INSTANCE [--splits N] [--plan FILE]\ncheck INSTANCE PROOF [PLAN]\n"
    );
    Ok(())
}
