//! A line read as a command.
ghost use Rattle.std.specs.Prelude.{◌≡◌, ◌≢◌, true, MatchResult};
ghost use Rattle.hm_script.specs.Faults.{IsAnswer};
ghost use Rattle.hm_script.specs.Keywords.{keyword_of};
ghost use Rattle.hm_script.specs.Lines.{after_old as after_old_of};
ghost use Rattle.hm_script.specs.Programs.{known_to, may_be_old as may_say};
ghost use Rattle.hm_script.specs.Reading.{keyword_kept, line_kept, may_stand as stands, read_keyword as keyword_read, read_line as line_read};
ghost use Rattle.hm_script.specs.Spellings.{order_spelling, plain_kept, read_plain as plain_read, spelling};

use crate::bad::Why;
use crate::command::{Command, Order};
use crate::keyword::{Keyword, LoneWord, NsWord, NumberWord, ServerWord, TableWord};
use crate::line::{after_old, first_wrong, front, indent};
use crate::program::{Program, may_be_old};
use crate::words::Words;
use hm_names::{List, Pid};
use std::alloc::Global;

fn workers(words: &mut Words) -> Result<Command, Why>
    ensures { IsAnswer spelling result (plain_read 2 Keyword.Workers words.old) (plain_kept 2 Keyword.Workers words.old) }
{
    let count = words.number(0, 16)? as u8;
    words.end()?;
    Ok(Command::Workers { count })
}

fn of_ns(alloc: Global, word: NsWord, words: &mut Words) -> Result<Command, Why>
    ensures { IsAnswer spelling result (plain_read 2 (Keyword.OfNs word) words.old) (plain_kept 2 (Keyword.OfNs word) words.old) }
{
    let nonce = words.nonce(alloc)?;
    let ns = words.ns(alloc)?;
    words.end()?;
    match word {
        NsWord::Namespace => Ok(Command::Namespace { nonce, ns }),
        NsWord::DropNamespace => Ok(Command::DropNamespace { nonce, ns }),
    }
}

fn create(alloc: Global, words: &mut Words) -> Result<Command, Why>
    ensures { IsAnswer spelling result (plain_read 2 Keyword.Create words.old) (plain_kept 2 Keyword.Create words.old) }
{
    let nonce = words.nonce(alloc)?;
    let table = words.table(alloc)?;
    let keys = List::of(words.keys(alloc)?);
    Ok(Command::Create { nonce, table, keys })
}

fn of_table(alloc: Global, word: TableWord, words: &mut Words) -> Result<Command, Why>
    ensures { IsAnswer spelling result (plain_read 2 (Keyword.OfTable word) words.old) (plain_kept 2 (Keyword.OfTable word) words.old) }
{
    let nonce = words.nonce(alloc)?;
    let table = words.table(alloc)?;
    words.end()?;
    match word {
        TableWord::Delete => Ok(Command::Delete { nonce, table }),
        TableWord::Enable => Ok(Command::Enable { nonce, table }),
        TableWord::Disable => Ok(Command::Disable { nonce, table }),
    }
}

fn modify(alloc: Global, words: &mut Words) -> Result<Command, Why>
    ensures { IsAnswer spelling result (plain_read 2 Keyword.Modify words.old) (plain_kept 2 Keyword.Modify words.old) }
{
    let nonce = words.nonce(alloc)?;
    let table = words.table(alloc)?;
    let version = words.number(0, u64::MAX)?;
    words.end()?;
    Ok(Command::Modify {
        nonce,
        table,
        version,
    })
}

fn split(alloc: Global, words: &mut Words) -> Result<Command, Why>
    ensures { IsAnswer spelling result (plain_read 2 Keyword.Split words.old) (plain_kept 2 Keyword.Split words.old) }
{
    let nonce = words.nonce(alloc)?;
    let region = words.region(alloc)?;
    let key = words.key(alloc)?;
    words.end()?;
    Ok(Command::Split { nonce, region, key })
}

fn merge(alloc: Global, most: u64, words: &mut Words) -> Result<Command, Why>
    ensures { IsAnswer spelling result (plain_read most Keyword.Merge words.old) (plain_kept most Keyword.Merge words.old) }
{
    let nonce = words.nonce(alloc)?;
    let regions = List::of(words.regions(alloc, most)?);
    Ok(Command::Merge { nonce, regions })
}

fn move_region(alloc: Global, words: &mut Words) -> Result<Command, Why>
    ensures { IsAnswer spelling result (plain_read 2 Keyword.Move words.old) (plain_kept 2 Keyword.Move words.old) }
{
    let nonce = words.nonce(alloc)?;
    let region = words.region(alloc)?;
    let to = words.perhaps_server(alloc)?;
    Ok(Command::Move { nonce, region, to })
}

fn of_number(word: NumberWord, words: &mut Words) -> Result<Command, Why>
    ensures { IsAnswer spelling result (plain_read 2 (Keyword.OfNumber word) words.old) (plain_kept 2 (Keyword.OfNumber word) words.old) }
{
    let number = words.number(0, u64::MAX)?;
    words.end()?;
    match word {
        NumberWord::Abort => Ok(Command::Abort { pid: Pid(number) }),
        NumberWord::Step => Ok(Command::Step { count: number }),
    }
}

fn of_server(alloc: Global, word: ServerWord, words: &mut Words) -> Result<Command, Why>
    ensures { IsAnswer spelling result (plain_read 2 (Keyword.OfServer word) words.old) (plain_kept 2 (Keyword.OfServer word) words.old) }
{
    let server = words.server(alloc)?;
    words.end()?;
    match word {
        ServerWord::Server => Ok(Command::Server { server }),
        ServerWord::Die => Ok(Command::Die { server }),
        ServerWord::Expire => Ok(Command::Expire { server }),
        ServerWord::Drain => Ok(Command::Drain { server }),
        ServerWord::Undrain => Ok(Command::Undrain { server }),
    }
}

fn refuse(alloc: Global, words: &mut Words) -> Result<Command, Why>
    ensures { IsAnswer spelling result (plain_read 2 Keyword.Refuse words.old) (plain_kept 2 Keyword.Refuse words.old) }
{
    let target = words.target(alloc)?;
    let count = words.number(0, u64::from(u32::MAX))? as u32;
    words.end()?;
    match target {
        Some(server) => Ok(Command::Refuse { server, count }),
        None => Ok(Command::RefuseStorage { count }),
    }
}

fn backoff(words: &mut Words) -> Result<Command, Why>
    ensures { IsAnswer spelling result (plain_read 2 Keyword.Backoff words.old) (plain_kept 2 Keyword.Backoff words.old) }
{
    let ticks = words.number(0, 7)? as u8;
    words.end()?;
    Ok(Command::Backoff { ticks })
}

fn tick(words: &mut Words) -> Result<Command, Why>
    ensures { IsAnswer spelling result (plain_read 2 Keyword.Tick words.old) (plain_kept 2 Keyword.Tick words.old) }
{
    let ticks = words.number(1, 1_000_000)?;
    words.end()?;
    Ok(Command::Tick { ticks })
}

fn group(alloc: Global, words: &mut Words) -> Result<Command, Why>
    ensures { IsAnswer spelling result (plain_read 2 Keyword.Group words.old) (plain_kept 2 Keyword.Group words.old) }
{
    let name = words.ns(alloc)?;
    let servers = List::of(words.servers(alloc)?);
    Ok(Command::Group { name, servers })
}

fn table_group(alloc: Global, words: &mut Words) -> Result<Command, Why>
    ensures { IsAnswer spelling result (plain_read 2 Keyword.TableGroup words.old) (plain_kept 2 Keyword.TableGroup words.old) }
{
    let table = words.table(alloc)?;
    let name = words.ns(alloc)?;
    words.end()?;
    Ok(Command::TableGroup { table, name })
}

fn procs(words: &mut Words) -> Result<Command, Why>
    ensures { IsAnswer spelling result (plain_read 2 Keyword.Procs words.old) (plain_kept 2 Keyword.Procs words.old) }
{
    if words.perhaps_json()? {
        Ok(Command::ProcsJson)
    } else {
        Ok(Command::Procs)
    }
}

fn cut(words: &mut Words) -> Result<Command, Why>
    ensures { IsAnswer spelling result (plain_read 2 Keyword.Cut words.old) (plain_kept 2 Keyword.Cut words.old) }
{
    let changes = words.number(0, u64::MAX)?;
    let bytes = words.number(0, u64::MAX)?;
    words.end()?;
    Ok(Command::Cut { changes, bytes })
}

fn alone(word: LoneWord, words: &mut Words) -> Result<Command, Why>
    ensures { IsAnswer spelling result (plain_read 2 (Keyword.Alone word) words.old) (plain_kept 2 (Keyword.Alone word) words.old) }
{
    words.end()?;
    match word {
        LoneWord::Settle => Ok(Command::Settle),
        LoneWord::Lose => Ok(Command::Lose),
        LoneWord::Repeat => Ok(Command::Repeat),
        LoneWord::Balance => Ok(Command::Balance),
        LoneWord::Regions => Ok(Command::Regions),
        LoneWord::Locks => Ok(Command::Locks),
        LoneWord::Servers => Ok(Command::Servers),
        LoneWord::Reopen => Ok(Command::Reopen),
        LoneWord::Roll => Ok(Command::Roll),
        LoneWord::Timers => Ok(Command::Timers),
        LoneWord::Hbck => Ok(Command::Hbck),
        LoneWord::Follow => Ok(Command::Follow),
        LoneWord::Takeover => Ok(Command::Takeover),
    }
}

// The command of a keyword other than `old`, and of the words after it. A merge may have at most `most` regions.
fn read_plain(alloc: Global, most: u64, keyword: Keyword, words: &mut Words) -> Result<Command, Why>
    requires { keyword ≢ Keyword.Old }
    ensures { IsAnswer spelling result (plain_read most keyword words.old) (plain_kept most keyword words.old) }
{
    match keyword {
        Keyword::Workers => workers(words),
        Keyword::OfNs(word) => of_ns(alloc, word, words),
        Keyword::Create => create(alloc, words),
        Keyword::OfTable(word) => of_table(alloc, word, words),
        Keyword::Modify => modify(alloc, words),
        Keyword::Split => split(alloc, words),
        Keyword::Merge => merge(alloc, most, words),
        Keyword::Move => move_region(alloc, words),
        Keyword::OfNumber(word) => of_number(word, words),
        Keyword::OfServer(word) => of_server(alloc, word, words),
        Keyword::Refuse => refuse(alloc, words),
        Keyword::Backoff => backoff(words),
        Keyword::Tick => tick(words),
        Keyword::Group => group(alloc, words),
        Keyword::TableGroup => table_group(alloc, words),
        Keyword::Procs => procs(words),
        Keyword::Cut => cut(words),
        Keyword::Old => unreachable!(),
        Keyword::Alone(word) => alone(word, words),
    }
}

// A command as an order, where it may be one. Another is given back.
fn into_order(command: Command) -> Result<Order, Command>
    ensures { MatchResult result
        (λ order. order_spelling order ≡ spelling command)
        (λ other. may_say (spelling command).keyword ≢ true) }
{
    match command {
        Command::Namespace { nonce, ns } => Ok(Order::Namespace { nonce, ns }),
        Command::DropNamespace { nonce, ns } => Ok(Order::DropNamespace { nonce, ns }),
        Command::Create { nonce, table, keys } => Ok(Order::Create { nonce, table, keys }),
        Command::Delete { nonce, table } => Ok(Order::Delete { nonce, table }),
        Command::Enable { nonce, table } => Ok(Order::Enable { nonce, table }),
        Command::Disable { nonce, table } => Ok(Order::Disable { nonce, table }),
        Command::Modify {
            nonce,
            table,
            version,
        } => Ok(Order::Modify {
            nonce,
            table,
            version,
        }),
        Command::Split { nonce, region, key } => Ok(Order::Split { nonce, region, key }),
        Command::Merge { nonce, regions } => Ok(Order::Merge { nonce, regions }),
        Command::Move { nonce, region, to } => Ok(Order::Move { nonce, region, to }),
        Command::Abort { pid } => Ok(Order::Abort { pid }),
        Command::Expire { server } => Ok(Order::Expire { server }),
        Command::Step { count } => Ok(Order::Step { count }),
        other => Err(other),
    }
}

// The order after `old`, whose words stand at a place of the line.
fn read_old(alloc: Global, most: u64, place: usize, words: &mut Words) -> Result<Command, Why>
    ensures { IsAnswer spelling result (keyword_read most place Keyword.Old words.old) (keyword_kept most Keyword.Old words.old) }
{
    let Some(word) = words.next() else {
        return Err(Why::Missing);
    };
    let keyword = match Keyword::of(word) {
        Some(keyword) if may_be_old(keyword) => keyword,
        _ => return Err(Why::Word(place as u64)),
    };
    let command = read_plain(alloc, most, keyword, words)?;
    match into_order(command) {
        Ok(order) => Ok(Command::Old { order }),
        Err(_) => unreachable!(),
    }
}

// Whether a keyword may begin a command that is the first or isn't.
fn may_stand(first: bool, keyword: Keyword) -> bool
    ensures { result ≡ stands first keyword }
{
    match keyword {
        Keyword::Workers => first,
        _ => true,
    }
}

// The command of a keyword and the words after it in a line without a wrong byte.
fn read_keyword(
    alloc: Global,
    most: u64,
    line: &[u8],
    keyword: Keyword,
    words: &mut Words,
) -> Result<Command, Why>
    ensures { IsAnswer spelling result (keyword_read most (after_old_of line.now) keyword words.old) (keyword_kept most keyword words.old) }
{
    match keyword {
        Keyword::Old => read_old(alloc, most, after_old(line), words),
        _ => read_plain(alloc, most, keyword, words),
    }
}

// The keyword that a word is, where it is a word of the program.
fn known(program: Program, word: &[u8]) -> Option<Keyword>
    ensures { result ≡ known_to program (keyword_of word.now) }
{
    match Keyword::of(word) {
        Some(keyword) if program.knows(keyword) => Some(keyword),
        _ => None,
    }
}

/// The command that a line says to a program, where a merge may have at most `most` regions; `first` tells whether none stands
/// before it.
#[tactic(auto, unfolding(crate::specs::Reading::read_line, crate::specs::Reading::line_kept))]
pub fn read_line(
    alloc: Global,
    program: Program,
    most: u64,
    line: &[u8],
    first: bool,
) -> Result<Command, Why>
    ensures { IsAnswer spelling result (line_read program most first line.now) (line_kept program most first line.now) }
{
    let wrong = first_wrong(line);
    let mut words = Words::of(front(line, wrong));
    let Some(word) = words.next() else {
        return match wrong {
            Some(at) => Err(Why::Word(at as u64)),
            None => Err(Why::Missing),
        };
    };
    let Some(keyword) = known(program, word) else {
        return Err(Why::Word(indent(line) as u64));
    };
    if let Some(at) = wrong {
        return Err(Why::Word(at as u64));
    }
    if !may_stand(first, keyword) {
        return Err(Why::Order);
    }
    read_keyword(alloc, most, line, keyword, &mut words)
}
