use super::*;
use std::alloc::{AllocError, Global};
use std::test::Fail;

// The words of a text; `''` stands for an empty word.
fn words_of(alloc: Global, text: &str) -> Result<Vec<String>, AllocError> {
    let mut words = Vec::new(alloc);
    for word in text.split_whitespace() {
        let word = if word == "''" { "" } else { word };
        words.push(String::from_str(alloc, word)?)?;
    }
    Ok(words)
}

fn solve<'a>(splits: u64, plan: Option<&'a str>, proof: Option<&'a str>) -> Command<'a> {
    Command::Solve(Solve {
        instance: "s",
        splits,
        plan,
        proof,
    })
}

fn check<'a>(plan: Option<&'a str>) -> Command<'a> {
    Command::Check(Check {
        instance: "s",
        proof: "q",
        plan,
    })
}

fn chart<'a>(from: u32, to: u32) -> Chart<'a> {
    Chart {
        instance: "s",
        plan: "p",
        from,
        to,
    }
}

#[test]
fn words_that_are_a_command(rt: HostRuntime) -> Result<(), Fail> {
    let cases = [
        ("solve s", solve(10_000, None, None)),
        ("solve --plan ./s s", solve(10_000, Some("./s"), None)),
        (
            "solve s --proof q --splits 0 --plan p",
            solve(0, Some("p"), Some("q")),
        ),
        (
            "solve s --splits 1099511627776",
            solve(1_099_511_627_776, None, None),
        ),
        ("check s q", check(None)),
        ("check s q p", check(Some("p"))),
        (
            "cost s s",
            Command::Cost(Cost {
                instance: "s",
                plan: "s",
            }),
        ),
        ("bound s", Command::Bound(Bound { instance: "s" })),
        ("patterns s", Command::Patterns(Patterns { instance: "s" })),
        ("platforms s p 8 20", Command::Platforms(chart(8, 20))),
        ("platforms s p 0 9999", Command::Platforms(chart(0, 9_999))),
        ("paths s p 8 8", Command::Paths(chart(8, 8))),
        (
            "make 18446744073709551615 200",
            Command::Make(Generated {
                number: u64::MAX,
                trains: 200,
            }),
        ),
        (
            "trial 7 0",
            Command::Trial(Generated {
                number: 7,
                trains: 0,
            }),
        ),
    ];
    for (text, command) in cases {
        let words = words_of(rt.alloc(), text)?;
        assert!(rt; read_words(rt.alloc(), &words)? == Some(command), "{text}");
    }
    Ok(())
}

#[test]
fn words_that_are_none(rt: HostRuntime) -> Result<(), Fail> {
    let cases = [
        "",
        "''",
        "s",
        "--help",
        "make 7 201",
        "make 18446744073709551616 1",
        "trial 07 3",
        "solve",
        "solve ''",
        "solve s t",
        "solve -- s",
        "solve -h",
        "solve s --splits",
        "solve s --splits=5",
        "solve a --plan x --proof x",
        "solve a --plan x --plan y",
        "solve s --plan",
        "solve s --plan -p",
        "solve s --plan s",
        "solve s --proof s",
        "solve s --splits 1099511627777",
        "solve s --splits 07",
        "check s",
        "check s q p x",
        "cost s",
        "cost s p q",
        "cost s --plan p",
        "patterns s p",
        "platforms s p 8",
        "platforms s p 08 20",
        "platforms s p +8 20",
        "platforms s p 8 10000",
        "platforms s p 8 20x",
        "platforms s p 8 99999999999999999999",
        "paths s p 8 -20",
    ];
    for text in cases {
        let words = words_of(rt.alloc(), text)?;
        assert!(rt; read_words(rt.alloc(), &words)?.is_none(), "{text}");
    }
    Ok(())
}

#[test]
fn usage_of_all_commands(rt: HostRuntime) -> Result<(), Fail> {
    let expected = "Usage\n\
        solve INSTANCE [--splits N] [--plan FILE] [--proof FILE]\n\
        check INSTANCE PROOF [PLAN]\n\
        cost INSTANCE PLAN\n\
        bound INSTANCE\n\
        patterns INSTANCE\n\
        platforms INSTANCE PLAN FROM TO\n\
        paths INSTANCE PLAN FROM TO\n\
        make NUMBER TRAINS\n\
        trial NUMBER TRAINS\n";
    assert_eq!(rt; usage(rt.alloc())?.as_slice(), expected.as_bytes());
    Ok(())
}
