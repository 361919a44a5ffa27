//! The commands of the script.
ghost use Rattle.std.specs.Prelude.{◌≡◌, ◌≤◌, ◌<◌, ◌*◌, ◌++◌, ◌∷◌, [], ℕ, IfOk, OnOk, All};
ghost use Rattle.hm_gen.specs.Generated.{IsGenerated, generated, servers, create as create_of, creates, next_draw as next_draw_of, move as move_of, moves, ending};

use crate::names::{region, server, split_keys, table};
use hm_names::Nonce;
use hm_script::Command;
use std::alloc::{AllocError, Global};

// The requests have no nonce.
const NO_NONCE: Nonce = Nonce {
    group: 0,
    number: 0,
};

// The servers come up.
fn put_servers(alloc: Global, commands: &mut Vec<Command>) -> Result<(), AllocError>
    ensures { OnOk result (commands.new.items ≡ commands.old.items ++ servers) }
{
    for number in 1..5 {
        commands.push(Command::Server {
            server: server(alloc, number)?,
        })?;
    }
    Ok(())
}

// The request for the table with a number.
fn create(alloc: Global, count: u32, number: u32) -> Result<Command, AllocError>
    requires { number * 64 < count }
    ensures { IfOk result (λ command. command ≡ create_of count number) }
{
    let regions = (count - number * 64).min(64);
    Ok(Command::Create {
        nonce: NO_NONCE,
        table: table(alloc, u64::from(number))?,
        keys: split_keys(alloc, regions as u8)?,
    })
}

// The requests for all tables.
fn put_creates(alloc: Global, commands: &mut Vec<Command>, count: u32) -> Result<(), AllocError>
    requires { count ≤ 16384 }
    ensures { OnOk result (commands.new.items ≡ commands.old.items ++ creates count) }
{
    for number in 0..count.div_ceil(64) {
        commands.push(create(alloc, count, number)?)?;
    }
    Ok(())
}

// The generator's next number.
fn next_draw(x: u64) -> u64
    ensures { result ≡ next_draw_of x }
{
    x.wrapping_mul(6364136223846793005)
        .wrapping_add(1442695040888963407)
}

// The request that moves the region that a number draws.
fn move_drawn(alloc: Global, count: u32, drawn: u64) -> Result<Command, AllocError>
    requires { 1 ≤ count }
    ensures { IfOk result (λ command. command ≡ move_of count drawn) }
{
    Ok(Command::Move {
        nonce: NO_NONCE,
        region: region(alloc, (drawn >> 33) % u64::from(count))?,
        to: None,
    })
}

// A request to move a region for every eight of them.
fn put_moves(
    alloc: Global,
    commands: &mut Vec<Command>,
    seed: u64,
    count: u32,
) -> Result<(), AllocError>
    requires { 1 ≤ count }
    ensures { OnOk result (commands.new.items ≡ commands.old.items ++ moves seed count) }
{
    let mut drawn = seed;
    for _ in 0..count / 8 {
        drawn = next_draw(drawn);
        commands.push(move_drawn(alloc, count, drawn)?)?;
    }
    Ok(())
}

// A server dies, and loads are balanced.
fn put_ending(alloc: Global, commands: &mut Vec<Command>) -> Result<(), AllocError>
    ensures { OnOk result (commands.new.items ≡ commands.old.items ++ ending) }
{
    commands.push(Command::Die {
        server: server(alloc, 1)?,
    })?;
    commands.push(Command::Expire {
        server: server(alloc, 1)?,
    })?;
    commands.push(Command::Settle)?;
    commands.push(Command::Balance)?;
    commands.push(Command::Settle)?;
    Ok(())
}

/// The script for a cluster of `count` regions on four servers, to see how a master does at that size: servers come up, tables
/// are created, an eighth of the regions move, a server dies, and loads are balanced. Which regions move is drawn by a
/// linear congruential generator modulo 2^64 that begins with `seed`, so one seed gives one script.
pub fn generate(alloc: Global, seed: u64, count: u32) -> Result<Vec<Command>, AllocError>
    requires some { 1 ≤ count }
    requires most { count ≤ 16384 }
    ensures script { IfOk result (λ commands. commands.items ≡ generated seed count) }
    ensures own { IfOk result (λ commands. All IsGenerated commands.items) }
{
    generated_are_own();
    let mut commands = Vec::new(alloc);
    put_servers(alloc, &mut commands)?;
    put_creates(alloc, &mut commands, count)?;
    commands.push(Command::Settle)?;
    put_moves(alloc, &mut commands, seed, count)?;
    commands.push(Command::Settle)?;
    put_ending(alloc, &mut commands)?;
    Ok(commands)
}

/// Every script has only commands of seven sorts: a law, as a function that does nothing.
pub fn generated_are_own()
    ensures { (seed count : ℕ) → All IsGenerated (generated seed count) }
{}
