//! Text in pieces, whose writing takes no memory.
ghost use Rattle.std.specs.Prelude.{◌≡◌, ◌++◌, IfOk, OnOk, OnErr, codes};
ghost use Rattle.std.specs.Fmt.{decimal};
ghost use Rattle.std.specs.List.{flat_map};
ghost use Rattle.hm_ports.specs.Faults.{HasCause};
ghost use Rattle.hm_top.specs.Got.{IsPartOf};
ghost use Rattle.hm_names.specs.Servers.{server_text};
ghost use Rattle.hm_commands.specs.Answer.{answer_text};
ghost use Rattle.hm_commands.specs.Pieces.{piece_text};

use Piece::{Bytes, Number, Server, Text};
use hm_commands::{Answer, Piece, append_all};
use hm_names::ServerName;
use hm_ports::{Failed, Sink, write_all};
use itoa::Buffer;
use std::alloc::{AllocError, Global};

/// A piece that isn't there.
pub(crate) const NONE: Piece<'static> = Text("");

// Writes bytes.
fn write<K: Sink>(out: &mut K, bytes: &[u8]) -> Result<(), Failed>
    ensures all { K.tells → OnOk result (K.got out.new ≡ K.got out.old ++ bytes.now) }
    ensures part { K.tells → OnErr result (IsPartOf (K.got out.old) (K.got out.new) bytes.now) }
    ensures cause { HasCause (K.faults out.old) (K.faults out.new) result }
{
    write_all(out, bytes)
}

// Writes a number after a comma.
fn put_behind_comma<K: Sink>(out: &mut K, number: u64) -> Result<(), Failed>
    ensures all { K.tells → OnOk result (K.got out.new ≡ K.got out.old ++ (codes "," ++ decimal number)) }
    ensures part { K.tells → OnErr result (IsPartOf (K.got out.old) (K.got out.new) (codes "," ++ decimal number)) }
    ensures cause { HasCause (K.faults out.old) (K.faults out.new) result }
{
    write(out, b",")?;
    write(out, Buffer::new().format(number).as_bytes())
}

// Writes a host and what is after it.
fn put_server<K: Sink>(out: &mut K, server: &ServerName) -> Result<(), Failed>
    ensures all { K.tells → OnOk result (K.got out.new ≡ K.got out.old ++ server_text server.now) }
    ensures part { K.tells → OnErr result (IsPartOf (K.got out.old) (K.got out.new) (server_text server.now)) }
    ensures cause { HasCause (K.faults out.old) (K.faults out.new) result }
{
    write(out, server.host.as_bytes())?;
    put_behind_comma(out, u64::from(server.port))?;
    put_behind_comma(out, server.start)
}

// Writes a piece.
fn put<K: Sink>(out: &mut K, piece: &Piece<'_>) -> Result<(), Failed>
    ensures all { K.tells → OnOk result (K.got out.new ≡ K.got out.old ++ piece_text piece.now) }
    ensures part { K.tells → OnErr result (IsPartOf (K.got out.old) (K.got out.new) (piece_text piece.now)) }
    ensures cause { HasCause (K.faults out.old) (K.faults out.new) result }
{
    match piece {
        Text(text) => write(out, text.as_bytes()),
        Bytes(bytes) => write(out, bytes),
        Number(number) => write(out, Buffer::new().format(*number).as_bytes()),
        Server(server) => put_server(out, server),
    }
}

/// Writes pieces, up to the first that fails.
pub(crate) fn put_all<K: Sink>(out: &mut K, pieces: &[Piece<'_>]) -> Result<(), Failed>
    ensures all { K.tells → OnOk result (K.got out.new ≡ K.got out.old ++ flat_map piece_text pieces.now) }
    ensures part { K.tells → OnErr result (IsPartOf (K.got out.old) (K.got out.new) (flat_map piece_text pieces.now)) }
    ensures cause { HasCause (K.faults out.old) (K.faults out.new) result }
{
    for piece in pieces {
        put(out, piece)?;
    }
    Ok(())
}

/// The pieces as one text.
pub(crate) fn joined(alloc: Global, pieces: &[Piece<'_>]) -> Result<Vec<u8>, AllocError>
    ensures { IfOk result (λ text. text.items ≡ flat_map piece_text pieces.now) }
{
    let mut text = Vec::new(alloc);
    append_all(&mut text, pieces)?;
    Ok(text)
}

// Writes an answer's lines: at once, or piece by piece where there is no memory for their text.
fn put_answer<K: Sink>(alloc: Global, out: &mut K, answer: &Answer) -> Result<(), Failed>
    ensures all { K.tells → OnOk result (K.got out.new ≡ K.got out.old ++ answer_text answer.now) }
    ensures part { K.tells → OnErr result (IsPartOf (K.got out.old) (K.got out.new) (answer_text answer.now)) }
    ensures cause { HasCause (K.faults out.old) (K.faults out.new) result }
{
    let pieces = answer.pieces();
    match joined(alloc, &pieces) {
        Ok(text) => write_all(out, text.as_slice()),
        Err(_) => put_all(out, &pieces),
    }
}

/// Writes an answer's lines, and lets go of it.
pub(crate) fn say<K: Sink>(alloc: Global, out: &mut K, answer: Answer) -> Result<(), Failed>
    ensures all { K.tells → OnOk result (K.got out.new ≡ K.got out.old ++ answer_text answer) }
    ensures part { K.tells → OnErr result (IsPartOf (K.got out.old) (K.got out.new) (answer_text answer)) }
    ensures cause { HasCause (K.faults out.old) (K.faults out.new) result }
{
    let said = put_answer(alloc, out, &answer);
    drop(answer);
    said
}
