//! The law of words. A law is a function whose meaning is its contract, which is proved for all
//! words.

ghost use Rattle.std.specs.List.{list_all};
ghost use Rattle.std.specs.Prelude.{◌≡◌, ◌<◌, ◌^◌, ◌∷◌, [], List, ℕ, codes, length, true};
ghost use Rattle.command_line.specs.Plain.{is_plain};
ghost use Rattle.command_line.specs.Words.{job_of, job_of_command};

/// Words without options are read as they stand.
///
/// `plain`: words of which none begins with `-`, but for a lone `-`, name the job of the first word
/// as the command, and of the others as the words behind it, with no option given. `dashes`: so
/// does each list of words behind a word `--`, whatever they begin with.
pub fn words_are_read_as_they_stand()
    ensures plain { (command : List ℕ) (rest : List (List ℕ)) → length rest < 2 ^ 64 →
        list_all is_plain (command ∷ rest) ≡ true →
        job_of (command ∷ rest) ≡ job_of_command command rest [] }
    ensures dashes { (command : List ℕ) (rest : List (List ℕ)) → length rest < 2 ^ 64 →
        job_of (codes "--" ∷ command ∷ rest) ≡ job_of_command command rest [] }
{}
