// The table of commands.
ghost use Rattle.std.specs.Prelude.{◌≡◌, map};
ghost use Rattle.std.specs.List.{find};
ghost use Rattle.std.specs.Str.{bytes_eq};
ghost use Rattle.command_words.specs.Table.{command_table};
ghost use Rattle.command_words.specs.View.{row_view};

use plain_words::{CommandRow, OptionRow};

/// Which command a row of the table is.
#[derive(Clone, Copy)]
pub(crate) enum CommandName {
    Solve,
    Check,
    Cost,
    Bound,
    Patterns,
    Platforms,
    Paths,
    Make,
    Trial,
}

/// A row of the table.
#[derive(Clone, Copy)]
pub(crate) struct TableRow {
    pub(crate) name: CommandName,
    pub(crate) row: CommandRow,
}

/// The commands that are built, in the order of the usage text. This table alone says which words and options
/// there are.
static COMMANDS: [TableRow; 9] = [
    TableRow {
        name: CommandName::Solve,
        row: CommandRow {
            word: "solve",
            arguments: &["INSTANCE"],
            missing: 0,
            options: &[
                OptionRow {
                    name: "splits",
                    value: "N",
                },
                OptionRow {
                    name: "plan",
                    value: "FILE",
                },
                OptionRow {
                    name: "proof",
                    value: "FILE",
                },
            ],
        },
    },
    TableRow {
        name: CommandName::Check,
        row: CommandRow {
            word: "check",
            arguments: &["INSTANCE", "PROOF", "PLAN"],
            missing: 1,
            options: &[],
        },
    },
    TableRow {
        name: CommandName::Cost,
        row: CommandRow {
            word: "cost",
            arguments: &["INSTANCE", "PLAN"],
            missing: 0,
            options: &[],
        },
    },
    TableRow {
        name: CommandName::Bound,
        row: CommandRow {
            word: "bound",
            arguments: &["INSTANCE"],
            missing: 0,
            options: &[],
        },
    },
    TableRow {
        name: CommandName::Patterns,
        row: CommandRow {
            word: "patterns",
            arguments: &["INSTANCE"],
            missing: 0,
            options: &[],
        },
    },
    TableRow {
        name: CommandName::Platforms,
        row: CommandRow {
            word: "platforms",
            arguments: &["INSTANCE", "PLAN", "FROM", "TO"],
            missing: 0,
            options: &[],
        },
    },
    TableRow {
        name: CommandName::Paths,
        row: CommandRow {
            word: "paths",
            arguments: &["INSTANCE", "PLAN", "FROM", "TO"],
            missing: 0,
            options: &[],
        },
    },
    TableRow {
        name: CommandName::Make,
        row: CommandRow {
            word: "make",
            arguments: &["NUMBER", "TRAINS"],
            missing: 0,
            options: &[],
        },
    },
    TableRow {
        name: CommandName::Trial,
        row: CommandRow {
            word: "trial",
            arguments: &["NUMBER", "TRAINS"],
            missing: 0,
            options: &[],
        },
    },
];

/// The rows of the table.
pub(crate) fn commands() -> &'static [TableRow]
    ensures { map row_view result.now ≡ command_table }
{
    &COMMANDS
}

/// The first row that has this word.
pub(crate) fn find_row(rows: &[TableRow], word: &str) -> Option<TableRow>
    ensures { result ≡ find (λ row. bytes_eq row.row.word.now word.now) rows.now }
{
    rows.iter().copied().find(|row| row.row.word == word)
}
