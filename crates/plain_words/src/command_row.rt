// A command as its words are written.

/// An option of a command. It is written `--NAME`, and the word behind it is its value.
#[derive(Clone, Copy)]
pub struct OptionRow {
    /// The name without its dashes.
    pub name: &'static str,
    /// What the usage text calls the value.
    pub value: &'static str,
}

/// A command of a program's table.
#[derive(Clone, Copy)]
pub struct CommandRow {
    /// The word that picks the command.
    pub word: &'static str,
    /// The named arguments in their order.
    pub arguments: &'static [&'static str],
    /// How many of the last arguments may be missing.
    pub missing: usize,
    /// The options, which may stand before, between and after the arguments.
    pub options: &'static [OptionRow],
}
