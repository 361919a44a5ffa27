//! The words that the program is called with: `run LOG`, `check LOG`, or `gen SEED N LOG`.
ghost use Rattle.std.specs.Prelude.{◌≡◌, ◌≢◌, ◌++◌, ◌∷◌, ◌≤◌, [], List, ℕ, map, string_bytes, IfOk, IfSome, IfNone, Some, None, Ok};
ghost use Rattle.hm_top.specs.Words.{HasCount, count_behind as count_behind_of, form_of as form_of_words, is_log_name as is_log_name_of, log_behind as log_behind_of, misfit_of, only_reads as only_reads_of, seed_behind as seed_behind_of};

use hm_names::parse_decimal;

// The most regions that a made script has.
const MOST_REGIONS: u64 = 16_384;

/// What the words ask for.
#[derive(Clone, Copy, Debug, PartialEq, Eq)]
pub enum Form {
    /// The commands of a script.
    Run,
    /// How many entries the journal has.
    Check,
    /// The commands of a script that is made of a number, for so many regions.
    Gen { seed: u64, count: u32 },
}

impl Form {
    /// Whether the log is only read.
    pub fn only_reads(self) -> bool
        ensures { result ≡ only_reads_of self }
    {
        match self {
            Form::Check => true,
            Form::Run | Form::Gen { .. } => false,
        }
    }
}

fn is_log_name(name: &[u8]) -> bool
    ensures { result ≡ is_log_name_of name.now }
{
    match name {
        [] => false,
        [first, ..] => *first != b'-',
    }
}

// The log's name after so many words.
fn log_behind(form: Form, at: u64, words: &[String]) -> Result<Form, u64>
    requires { at ≤ 3 }
    ensures form { result ≡ log_behind_of form at (map string_bytes words.now) }
    ensures same { IfOk result (λ found. found ≡ form) }
{
    match words {
        [] => Err(at),
        [log] if is_log_name(log.as_str().as_bytes()) => Ok(form),
        [log, _, ..] if is_log_name(log.as_str().as_bytes()) => Err(at + 1),
        _ => Err(at),
    }
}

// The number of regions and the log's name.
fn count_behind(seed: u64, words: &[String]) -> Result<Form, u64>
    ensures form { result ≡ count_behind_of seed (map string_bytes words.now) }
    ensures count { IfOk result HasCount }
{
    let [word, rest @ ..] = words else {
        return Err(2);
    };
    match parse_decimal(word.as_str().as_bytes()) {
        Some(count) if 1 <= count && count <= MOST_REGIONS => {
            let count = count as u32;
            log_behind(Form::Gen { seed, count }, 3, rest)
        }
        _ => Err(2),
    }
}

// The seed, the number of regions and the log's name.
fn seed_behind(words: &[String]) -> Result<Form, u64>
    ensures form { result ≡ seed_behind_of (map string_bytes words.now) }
    ensures count { IfOk result HasCount }
{
    let [word, rest @ ..] = words else {
        return Err(1);
    };
    match parse_decimal(word.as_str().as_bytes()) {
        Some(seed) => count_behind(seed, rest),
        None => Err(1),
    }
}

/// What the words ask for; else the index of the first word that fits no place, or the number of words where one is missing.
pub fn form_of(words: &[String]) -> Result<Form, u64>
    ensures form { result ≡ form_of_words (map string_bytes words.now) }
    ensures count { IfOk result HasCount }
{
    match words {
        [first, rest @ ..] if first.as_str() == "run" => log_behind(Form::Run, 1, rest),
        [first, rest @ ..] if first.as_str() == "check" => log_behind(Form::Check, 1, rest),
        [first, rest @ ..] if first.as_str() == "gen" => seed_behind(rest),
        _ => Err(0),
    }
}

/// The path of the log, which is the last word; none exactly where the words are no command.
pub fn log_path(words: &[String]) -> Option<&str>
    ensures some { IfSome result (λ log. (misfit_of (map string_bytes words.now) ≡ None)
        × ((before : List (List ℕ)) × (map string_bytes words.now ≡ before ++ log.now ∷ []))) }
    ensures none { IfNone result (misfit_of (map string_bytes words.now) ≢ None) }
{
    match (form_of(words), words) {
        (Ok(_), [.., log]) => Some(log.as_str()),
        _ => None,
    }
}
