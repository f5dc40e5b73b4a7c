//! The commands of a program, as its usage text has them.

/// A command: its word, the names behind it in order, how many more there may be like the last, and
/// its options. A program without commands has one whose word is empty.
#[derive(Clone, Copy)]
pub struct Command {
    pub word: &'static str,
    pub names: &'static [&'static str],
    pub more: usize,
    pub options: &'static [CommandOption],
}

/// An option.
#[derive(Clone, Copy)]
pub struct CommandOption {
    pub word: &'static str,
    pub value: OptionValue,
    pub is_required: bool,
}

/// What stands behind an option.
#[derive(Clone, Copy)]
pub enum OptionValue {
    /// A whole number from `least` to `most`.
    Number { least: u64, most: u64 },
    /// The name of a file.
    Name,
    /// A word of another form, as it is written in a usage text.
    Word { form: &'static str },
    /// Nothing.
    Nothing,
}

impl Command {
    /// The option of the command with this word.
    pub(crate) fn option(&self, word: &str) -> Option<CommandOption> {
        self.options.iter().copied().find(|it| it.word == word)
    }
}

/// Whether a word is an option of one of these commands behind which nothing stands.
pub(crate) fn is_bare(commands: &[Command], word: &str) -> bool {
    commands.iter().any(|command| match command.option(word) {
        Some(
            CommandOption {
                value: OptionValue::Nothing,
                ..
            },
        ) => true,
        _ => false,
    })
}

/// The greatest number that a name stands for; `None` where it is no number.
pub(crate) fn greatest(name: &str) -> Option<u64> {
    match name {
        "SEED" => Some(u64::MAX),
        "CUSTOMERS" | "STATIONS" => Some(4_294_967_295),
        _ => None,
    }
}
