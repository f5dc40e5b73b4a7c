//! The commands of `evroute`, as its usage text has them.

use plain_words::{Command, CommandOption, OptionValue};

const LIMIT: CommandOption = CommandOption {
    word: "--limit",
    value: OptionValue::Number {
        least: 0,
        most: 1_000_000_000_000_000_000,
    },
    is_required: false,
};

const CHARGE: CommandOption = CommandOption {
    word: "--charge",
    value: OptionValue::Number {
        least: 0,
        most: 1_000_000_000_000_000_000,
    },
    is_required: false,
};

const NODES: CommandOption = CommandOption {
    word: "--nodes",
    value: OptionValue::Number {
        least: 1,
        most: 1_000_000_000_000_000_000,
    },
    is_required: false,
};

const TIME_DIGITS: CommandOption = CommandOption {
    word: "--time-digits",
    value: OptionValue::Number {
        least: 0,
        most: 1_000_000_000,
    },
    is_required: true,
};

const ENERGY_DIGITS: CommandOption = CommandOption {
    word: "--energy-digits",
    value: OptionValue::Number {
        least: 0,
        most: 1_000_000_000,
    },
    is_required: true,
};

const NEAR: CommandOption = CommandOption {
    word: "--near",
    value: OptionValue::Number {
        least: 0,
        most: 1_000_000_000,
    },
    is_required: true,
};

/// The commands.
pub(crate) const COMMANDS: &[Command] = &[
    Command {
        word: "fixed",
        names: &["FILE", "ROUTE"],
        more: 0,
        options: &[LIMIT, CHARGE],
    },
    Command {
        word: "fleet",
        names: &["FILE", "PLAN", "CERT"],
        more: 0,
        options: &[LIMIT, NODES],
    },
    Command {
        word: "check",
        names: &["FILE", "PLAN", "CERT"],
        more: 0,
        options: &[LIMIT],
    },
    Command {
        word: "convert",
        names: &["FILE", "OUTFILE"],
        more: 0,
        options: &[TIME_DIGITS, ENERGY_DIGITS],
    },
    Command {
        word: "make",
        names: &["SEED", "CUSTOMERS", "STATIONS", "OUTFILE"],
        more: 0,
        options: &[],
    },
    Command {
        word: "bound",
        names: &["FILE", "CERT"],
        more: 0,
        options: &[NEAR, LIMIT],
    },
    Command {
        word: "check-bound",
        names: &["FILE", "CERT"],
        more: 0,
        options: &[LIMIT],
    },
    Command {
        word: "prove",
        names: &["FILE", "ROUTE", "CERT"],
        more: 0,
        options: &[LIMIT, CHARGE],
    },
    Command {
        word: "check-route",
        names: &["FILE", "ROUTE", "CERT"],
        more: 0,
        options: &[LIMIT, CHARGE],
    },
    Command {
        word: "improve",
        names: &["FILE", "PLAN", "OUTFILE"],
        more: 0,
        options: &[LIMIT],
    },
    Command {
        word: "mixed",
        names: &["PLAN", "CERT", "FILE"],
        more: 7,
        options: &[LIMIT],
    },
    Command {
        word: "check-mixed",
        names: &["PLAN", "CERT", "FILE"],
        more: 7,
        options: &[LIMIT],
    },
];
