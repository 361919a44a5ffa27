//! The pieces of a text.
use hm_names::ServerName;

/// A piece of a text.
#[derive(Clone, Copy)]
pub enum Piece<'a> {
    Text(&'a str),
    Bytes(&'a [u8]),
    Number(u64),
    /// The name of a server.
    Server(&'a ServerName),
}

/// A piece that isn't there.
pub(crate) const NONE: Piece<'static> = Piece::Text("");
