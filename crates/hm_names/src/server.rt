ghost use Rattle.std.specs.Prelude.{◌≡◌, ◌≤◌, ◌++◌, IfOk, OnOk, OnErr, MatchResult, Ok, Err};
ghost use Rattle.hm_names.specs.Names.{IsHost};
ghost use Rattle.hm_names.specs.Reading.{Answers};
ghost use Rattle.std.proofs.Common.{rules};

use crate::copied::Copied;
use crate::cut::cut_first;
use crate::decimal::parse_within;
use crate::fault::NameFault;
use crate::host::{Host, fault_of_host};
use crate::same::Same;
use hm_hints::Hinted;
use std::alloc::{AllocError, Global};
use std::fmt;
use std::marker::Model;

/// The name of a server's incarnation: a host, a port from 1, and a start code from 1, which is greater
/// for each later incarnation. Its text is `HOST,PORT,START`.
#[derive(Debug, Drop, PartialEq, Eq, PartialOrd, Ord)]
pub struct ServerName {
    pub host: Host,
    pub port: u16,
    pub start: u64,
}

impl Model for ServerName {
    ghost use Rattle.std.specs.Prelude.{◌≤◌};
    ghost use Rattle.hm_names.specs.Server.{Server};

    ghost Value = { Server };

    ghost view = { λ s. record { host = s.host; port = s.port; start = s.start } };

    ghost invariant = { λ s. (1 ≤ s.port) × (1 ≤ s.start) };

    ghost inverse = { λ v. record { host = v.host; port = v.port; start = v.start } };
}

impl ServerName {
    ghost use Rattle.hm_names.specs.Servers.{server_text, read_server};

    /// The server that a text with exactly two `,` names.
    pub fn parse(alloc: Global, text: &[u8]) -> Result<ServerName, NameFault>
        ensures { Answers result (read_server text.now) }
    {
        let (host, port, start) = ServerName::judged(text)?;
        let host = Host::made(alloc, host)?;
        Ok(ServerName { host, port, start })
    }

    // The parts of a text that names a server.
    fn judged(text: &[u8]) -> Result<(&[u8], u16, u64), NameFault>
        ensures reading { MatchResult result
            (λ p. read_server text.now ≡ Ok (record { host = p.0.now; port = p.1; start = p.2 }))
            (λ e. read_server text.now ≡ Err e) }
        ensures named { IfOk result (λ p. IsHost p.0.now × (1 ≤ p.1) × (1 ≤ p.2)) }
    {
        let len = text.len() as u64;
        let Some((host, rest)) = cut_first(text, b',') else {
            return Err(if len == 0 {
                NameFault::Empty
            } else {
                NameFault::BadNumber(len)
            });
        };
        if host.is_empty() {
            return Err(NameFault::Empty);
        }
        let Some((port, start)) = cut_first(rest, b',') else {
            return Err(NameFault::BadNumber(len));
        };
        if cut_first(start, b',').is_some() {
            return Err(NameFault::BadNumber(len));
        }
        if let Some(fault) = fault_of_host(0, host) {
            return Err(fault);
        }
        let port_place = host.len() as u64 + 1;
        let start_place = host.len() as u64 + port.len() as u64 + 2;
        let Some(port) = parse_within(1, 65535, port) else {
            return Err(NameFault::BadNumber(port_place));
        };
        let Some(start) = parse_within(1, u64::MAX, start) else {
            return Err(NameFault::BadNumber(start_place));
        };
        Ok((host, port as u16, start))
    }

    // The parts are names, so the text is read as the server: a law that does nothing.
    fn named(&self)
        ensures { read_server (server_text self.now) ≡ Ok self.now }
    {
        let _host = self.host.as_bytes();
        let _port = self.port;
        let _start = self.start;
    }

    /// Appends the text, all of it or nothing.
    pub fn write(&self, alloc: Global, out: &mut Vec<u8>) -> Result<(), AllocError>
        ensures written { OnOk result (out.new.items ≡ out.old.items ++ server_text self.now) }
        ensures kept { OnErr result (out.new.items ≡ out.old.items) }
        ensures reads_back { read_server (server_text self.now) ≡ Ok self.now }
    {
        self.named();
        let text = self.to_string(alloc)?;
        out.extend_from_slice(text.as_bytes())
    }
}

impl fmt::Display for ServerName {
    ghost use Rattle.std.specs.Prelude.{Some};
    ghost use Rattle.hm_names.specs.Servers.{server_text};

    ghost output = { λ s. Some (server_text s) };

    fn fmt<W: fmt::Write>(&self, f: &mut fmt::Formatter<W>) -> fmt::Result {
        let host = &self.host;
        let port = self.port;
        let start = self.start;
        write!(f, "{host},{port},{start}")
    }
}

impl Copied for ServerName {
    fn copy(&self, alloc: Global) -> Result<ServerName, AllocError> {
        Ok(ServerName {
            host: self.host.copy(alloc)?,
            port: self.port,
            start: self.start,
        })
    }
}

impl Same for ServerName {
    fn same(&self, other: &ServerName) -> bool {
        self == other
    }
}

impl Hinted for ServerName {
    ghost hint_of = { λ name. 0 };

    ghost rises = { Prim.search rules };

    fn own_hint(&self) -> u64 {
        0
    }
}
