//! The commands of `evgap`, as its usage text has them.

use plain_words::{Command, CommandOption, OptionValue};

const LIMIT: CommandOption = CommandOption {
    word: "--limit",
    value: OptionValue::Number {
        least: 0,
        most: 1_000_000_000_000_000_000,
    },
    is_required: false,
};

const SECONDS: CommandOption = CommandOption {
    word: "--seconds",
    value: OptionValue::Number {
        least: 0,
        most: 1_000_000_000_000_000_000,
    },
    is_required: false,
};

const START: CommandOption = CommandOption {
    word: "--start",
    value: OptionValue::Name,
    is_required: false,
};

const SEED: CommandOption = CommandOption {
    word: "--seed",
    value: OptionValue::Number {
        least: 0,
        most: 1_000_000_000_000_000_000,
    },
    is_required: false,
};

const EFFORT: CommandOption = CommandOption {
    word: "--effort",
    value: OptionValue::Number { least: 0, most: 30 },
    is_required: false,
};

const NODES: CommandOption = CommandOption {
    word: "--nodes",
    value: OptionValue::Number {
        least: 1,
        most: 1_000_000_000_000_000_000,
    },
    is_required: false,
};

/// The commands.
pub(crate) const COMMANDS: &[Command] = &[
    Command {
        word: "plan",
        names: &["FILE", "PLAN", "PROOF"],
        more: 0,
        options: &[LIMIT, SECONDS, START, SEED, EFFORT, NODES],
    },
    Command {
        word: "check",
        names: &["FILE", "PLAN", "PROOF"],
        more: 0,
        options: &[LIMIT],
    },
];
