//! Pieces as one text.
ghost use Rattle.std.specs.Prelude.{◌≡◌, ◌++◌, OnOk};
ghost use Rattle.std.specs.List.{flat_map};
ghost use Rattle.hm_names.specs.Servers.{server_text};
ghost use Rattle.hm_commands.specs.Pieces.{piece_text};

use crate::piece::Piece;
use Piece::{Bytes, Number, Server, Text};
use hm_names::ServerName;
use itoa::Buffer;
use std::alloc::AllocError;

// Appends the name of a server to a text.
fn append_server(text: &mut Vec<u8>, server: &ServerName) -> Result<(), AllocError>
    ensures { OnOk result (text.new.items ≡ text.old.items ++ server_text server.now) }
{
    text.extend_from_slice(server.host.as_bytes())?;
    text.extend_from_slice(b",")?;
    text.extend_from_slice(Buffer::new().format(server.port).as_bytes())?;
    text.extend_from_slice(b",")?;
    text.extend_from_slice(Buffer::new().format(server.start).as_bytes())
}

// Appends a piece to a text.
fn append(text: &mut Vec<u8>, piece: &Piece<'_>) -> Result<(), AllocError>
    ensures { OnOk result (text.new.items ≡ text.old.items ++ piece_text piece.now) }
{
    match piece {
        Text(part) => text.extend_from_slice(part.as_bytes()),
        Bytes(bytes) => text.extend_from_slice(bytes),
        Number(number) => text.extend_from_slice(Buffer::new().format(*number).as_bytes()),
        Server(server) => append_server(text, server),
    }
}

/// Appends pieces to a text.
pub fn append_all(text: &mut Vec<u8>, pieces: &[Piece<'_>]) -> Result<(), AllocError>
    ensures { OnOk result (text.new.items ≡ text.old.items ++ flat_map piece_text pieces.now) }
{
    for piece in pieces {
        append(text, piece)?;
    }
    Ok(())
}
