//! The first words of lines.
ghost use Rattle.std.specs.Prelude.{◌≡◌};
ghost use Rattle.hm_script.specs.Keywords.{keyword_text, keyword_in, keyword_of};

/// A word that begins a line, by the words that stand after it.
#[derive(Clone, Copy)]
pub enum Keyword {
    /// A number, and only in the first command.
    Workers,
    /// A nonce and a namespace.
    OfNs(NsWord),
    /// A nonce, a table and any number of keys.
    Create,
    /// A nonce and a table.
    OfTable(TableWord),
    /// A nonce, a table and a number.
    Modify,
    /// A nonce, a region and a key.
    Split,
    /// A nonce and two regions or more.
    Merge,
    /// A nonce, a region and perhaps a server.
    Move,
    /// A number.
    OfNumber(NumberWord),
    /// A server.
    OfServer(ServerWord),
    /// A server or the storage, and a number.
    Refuse,
    /// A number of at most 7.
    Backoff,
    /// A number from 1 to 1,000,000.
    Tick,
    /// A namespace as a name, and one server or more.
    Group,
    /// A table, and a namespace as a name.
    TableGroup,
    /// Perhaps the word `json`.
    Procs,
    /// Two numbers.
    Cut,
    /// The line of another command.
    Old,
    /// Nothing.
    Alone(LoneWord),
}

#[derive(Clone, Copy)]
pub enum NsWord {
    Namespace,
    DropNamespace,
}

#[derive(Clone, Copy)]
pub enum TableWord {
    Delete,
    Enable,
    Disable,
}

#[derive(Clone, Copy)]
pub enum NumberWord {
    Abort,
    Step,
}

#[derive(Clone, Copy)]
pub enum ServerWord {
    Server,
    Die,
    Expire,
    Drain,
    Undrain,
}

#[derive(Clone, Copy)]
pub enum LoneWord {
    Settle,
    Lose,
    Repeat,
    Balance,
    Regions,
    Locks,
    Servers,
    Reopen,
    Roll,
    Timers,
    Hbck,
    Follow,
    Takeover,
}

// Each word that begins a line.
const KEYWORDS: [Keyword; 39] = [
    Keyword::Workers,
    Keyword::OfNs(NsWord::Namespace),
    Keyword::OfNs(NsWord::DropNamespace),
    Keyword::Create,
    Keyword::OfTable(TableWord::Delete),
    Keyword::OfTable(TableWord::Enable),
    Keyword::OfTable(TableWord::Disable),
    Keyword::Modify,
    Keyword::Split,
    Keyword::Merge,
    Keyword::Move,
    Keyword::OfNumber(NumberWord::Abort),
    Keyword::OfNumber(NumberWord::Step),
    Keyword::OfServer(ServerWord::Server),
    Keyword::OfServer(ServerWord::Die),
    Keyword::OfServer(ServerWord::Expire),
    Keyword::OfServer(ServerWord::Drain),
    Keyword::OfServer(ServerWord::Undrain),
    Keyword::Refuse,
    Keyword::Backoff,
    Keyword::Tick,
    Keyword::Group,
    Keyword::TableGroup,
    Keyword::Procs,
    Keyword::Cut,
    Keyword::Old,
    Keyword::Alone(LoneWord::Settle),
    Keyword::Alone(LoneWord::Lose),
    Keyword::Alone(LoneWord::Repeat),
    Keyword::Alone(LoneWord::Balance),
    Keyword::Alone(LoneWord::Regions),
    Keyword::Alone(LoneWord::Locks),
    Keyword::Alone(LoneWord::Servers),
    Keyword::Alone(LoneWord::Reopen),
    Keyword::Alone(LoneWord::Roll),
    Keyword::Alone(LoneWord::Timers),
    Keyword::Alone(LoneWord::Hbck),
    Keyword::Alone(LoneWord::Follow),
    Keyword::Alone(LoneWord::Takeover),
];

impl Keyword {
    /// The word.
    pub fn text(self) -> &'static str
        ensures { result.now ≡ keyword_text self }
    {
        match self {
            Keyword::Workers => "workers",
            Keyword::OfNs(NsWord::Namespace) => "namespace",
            Keyword::OfNs(NsWord::DropNamespace) => "drop-namespace",
            Keyword::Create => "create",
            Keyword::OfTable(TableWord::Delete) => "delete",
            Keyword::OfTable(TableWord::Enable) => "enable",
            Keyword::OfTable(TableWord::Disable) => "disable",
            Keyword::Modify => "modify",
            Keyword::Split => "split",
            Keyword::Merge => "merge",
            Keyword::Move => "move",
            Keyword::OfNumber(NumberWord::Abort) => "abort",
            Keyword::OfNumber(NumberWord::Step) => "step",
            Keyword::OfServer(ServerWord::Server) => "server",
            Keyword::OfServer(ServerWord::Die) => "die",
            Keyword::OfServer(ServerWord::Expire) => "expire",
            Keyword::OfServer(ServerWord::Drain) => "drain",
            Keyword::OfServer(ServerWord::Undrain) => "undrain",
            Keyword::Refuse => "refuse",
            Keyword::Backoff => "backoff",
            Keyword::Tick => "tick",
            Keyword::Group => "group",
            Keyword::TableGroup => "table-group",
            Keyword::Procs => "procs",
            Keyword::Cut => "cut",
            Keyword::Old => "old",
            Keyword::Alone(LoneWord::Settle) => "settle",
            Keyword::Alone(LoneWord::Lose) => "lose",
            Keyword::Alone(LoneWord::Repeat) => "repeat",
            Keyword::Alone(LoneWord::Balance) => "balance",
            Keyword::Alone(LoneWord::Regions) => "regions",
            Keyword::Alone(LoneWord::Locks) => "locks",
            Keyword::Alone(LoneWord::Servers) => "servers",
            Keyword::Alone(LoneWord::Reopen) => "reopen",
            Keyword::Alone(LoneWord::Roll) => "roll",
            Keyword::Alone(LoneWord::Timers) => "timers",
            Keyword::Alone(LoneWord::Hbck) => "hbck",
            Keyword::Alone(LoneWord::Follow) => "follow",
            Keyword::Alone(LoneWord::Takeover) => "takeover",
        }
    }

    /// The keyword that a word is.
    #[tactic(auto, unfolding(crate::specs::Keywords::keyword_of))]
    pub fn of(word: &[u8]) -> Option<Keyword>
        ensures { result ≡ keyword_of word.now }
    {
        find_keyword(&KEYWORDS, word)
    }
}

// The first of these keywords that a word is.
fn find_keyword(keywords: &[Keyword], word: &[u8]) -> Option<Keyword>
    ensures { result ≡ keyword_in keywords.now word.now }
{
    for keyword in keywords {
        if word == keyword.text().as_bytes() {
            return Some(*keyword);
        }
    }
    None
}
