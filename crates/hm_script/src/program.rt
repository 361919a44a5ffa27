//! The programs that read scripts, and which words are commands of each.
ghost use Rattle.std.specs.Prelude.{◌≡◌};
ghost use Rattle.hm_script.specs.Programs.{is_of_run_alone, is_of_pair_alone, is_word_of, may_be_old as may_say};

use crate::keyword::{Keyword, LoneWord, NumberWord, ServerWord};

/// A program that reads a script.
#[derive(Clone, Copy, Debug, PartialEq, Eq)]
pub enum Program {
    /// A master.
    Run,
    /// A master, and a second one that may take its place.
    Pair,
}

// Whether a word is one of `run`, and none of `pair`.
fn of_run_alone(keyword: Keyword) -> bool
    ensures { result ≡ is_of_run_alone keyword }
{
    match keyword {
        Keyword::Workers
        | Keyword::Cut
        | Keyword::Backoff
        | Keyword::Tick
        | Keyword::Group
        | Keyword::TableGroup
        | Keyword::OfServer(ServerWord::Drain | ServerWord::Undrain)
        | Keyword::Alone(LoneWord::Reopen | LoneWord::Roll | LoneWord::Timers | LoneWord::Hbck) =>
            true,
        _ => false,
    }
}

// Whether a word is one of `pair`, and none of `run`.
fn of_pair_alone(keyword: Keyword) -> bool
    ensures { result ≡ is_of_pair_alone keyword }
{
    matches!(
        keyword,
        Keyword::Old | Keyword::Alone(LoneWord::Follow | LoneWord::Takeover)
    )
}

impl Program {
    /// Whether lines of the program's scripts may begin with a word.
    pub fn knows(self, keyword: Keyword) -> bool
        ensures { result ≡ is_word_of self keyword }
    {
        match self {
            Program::Run => !of_pair_alone(keyword),
            Program::Pair => !of_run_alone(keyword),
        }
    }
}

/// Whether a line may follow `old` that begins with a word.
pub fn may_be_old(keyword: Keyword) -> bool
    ensures { result ≡ may_say keyword }
{
    match keyword {
        Keyword::OfNs(_)
        | Keyword::Create
        | Keyword::OfTable(_)
        | Keyword::Modify
        | Keyword::Split
        | Keyword::Merge
        | Keyword::Move
        | Keyword::OfNumber(NumberWord::Abort | NumberWord::Step)
        | Keyword::OfServer(ServerWord::Expire) => true,
        _ => false,
    }
}
