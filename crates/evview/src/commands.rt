//! What `evview` takes, as its usage text has it.

use plain_words::{Command, CommandOption, OptionValue};

const LIMIT: CommandOption = CommandOption {
    word: "--limit",
    value: OptionValue::Number {
        least: 0,
        most: 1_000_000_000_000_000_000,
    },
    is_required: false,
};

const ROUTE: CommandOption = CommandOption {
    word: "--route",
    value: OptionValue::Number {
        least: 0,
        most: 1_000_000_000_000_000_000,
    },
    is_required: false,
};

const PARTIAL: CommandOption = CommandOption {
    word: "--partial",
    value: OptionValue::Nothing,
    is_required: false,
};

const FIXED: CommandOption = CommandOption {
    word: "--fixed",
    value: OptionValue::Nothing,
    is_required: false,
};

const CHARGE: CommandOption = CommandOption {
    word: "--charge",
    value: OptionValue::Number {
        least: 0,
        most: 1_000_000_000_000_000_000,
    },
    is_required: false,
};

const EXACT: CommandOption = CommandOption {
    word: "--exact",
    value: OptionValue::Nothing,
    is_required: false,
};

const BEGIN: CommandOption = CommandOption {
    word: "--begin",
    value: OptionValue::Word { form: "HH:MM" },
    is_required: false,
};

const UNIT: CommandOption = CommandOption {
    word: "--unit",
    value: OptionValue::Word {
        form: "s, min or h",
    },
    is_required: false,
};

const PLACES: CommandOption = CommandOption {
    word: "--places",
    value: OptionValue::Name,
    is_required: false,
};

const SVG: CommandOption = CommandOption {
    word: "--svg",
    value: OptionValue::Name,
    is_required: false,
};

const JSON: CommandOption = CommandOption {
    word: "--json",
    value: OptionValue::Name,
    is_required: false,
};

const CSV: CommandOption = CommandOption {
    word: "--csv",
    value: OptionValue::Name,
    is_required: false,
};

const MAP: CommandOption = CommandOption {
    word: "--map",
    value: OptionValue::Name,
    is_required: false,
};

/// It has no commands but one without a word.
pub(crate) const COMMANDS: &[Command] = &[Command {
    word: "",
    names: &["FILE", "PLAN"],
    more: 0,
    options: &[
        LIMIT, ROUTE, PARTIAL, FIXED, CHARGE, EXACT, BEGIN, UNIT, PLACES, SVG, JSON, CSV, MAP,
    ],
}];
