//! The words of a line, read one after another.
ghost use Rattle.std.specs.Prelude.{◌≡◌, ◌≤◌, ◌-◌, ◌∷◌, [], MatchOption, IfOk, IfErr, OnOk, drop, map, List, ℕ};
ghost use Rattle.hm_script.specs.Lines.{words_of};
ghost use Rattle.hm_script.specs.Values.{nonce as need_nonce, ns as need_ns, table as need_table, region as need_region, key as need_key, server as need_server, number as need_number, target as need_target, json as need_json, of_nonce, of_ns, of_table, of_region, of_key, of_server, of_number, of_storage, of_json, target_value, server_values, json_values};
ghost use Rattle.hm_script.specs.Shapes.{nothing, maybe, upto, many, first_read, onto_all, read_needs, read_rest};
ghost use Rattle.hm_script.specs.Memory.{first_kept, needs_kept, rest_kept};
ghost use Rattle.hm_script.specs.Faults.{IsAnswer};

use crate::bad::Why;
use crate::line::find_byte;
use hm_names::{Nonce, Ns, RegionName, RowKey, ServerName, TableName, parse_decimal};
use std::alloc::Global;
use std::marker::Model;

// A line from its first byte on that is no space.
fn skip_spaces(line: &[u8]) -> &[u8]
    ensures words { words_of result.now ≡ words_of line.now }
    ensures begins { (rest : List ℕ) → result.now ≡ 32 ∷ rest → ⊥ }
{
    let mut rest = line;
    while let Some(after) = rest.strip_prefix(b" ".as_slice()) {
        rest = after;
    }
    rest
}

// The first word, and what stands after it.
fn next_word(line: &[u8]) -> Option<(&[u8], &[u8])>
    ensures { MatchOption result (words_of line.now ≡ []) (λ r. words_of line.now ≡ r.0.now ∷ words_of r.1.now) }
{
    let rest = skip_spaces(line);
    if rest.is_empty() {
        return None;
    }
    match find_byte(rest, b' ') {
        Some(end) => Some((&rest[..end], &rest[end..])),
        None => Some((rest, &[])),
    }
}

/// The words that are left of a line. Contracts see their list.
#[derive(Drop)]
pub struct Words<'a> {
    rest: &'a [u8],
}

impl<'a> Model for Words<'a> {
    ghost use Rattle.std.specs.Prelude.{List, ℕ};
    ghost use Rattle.hm_script.specs.Lines.{words_of};

    ghost Value = { List (List ℕ) };

    ghost view = { λ s. words_of s.rest.now };
}

impl<'a> Words<'a> {
    /// The words of a line, which spaces separate.
    pub fn of(line: &'a [u8]) -> Words<'a>
        ensures { result ≡ words_of line.now }
    {
        Words { rest: line }
    }

    /// The next word.
    pub fn next(&mut self) -> Option<&'a [u8]>
        ensures { MatchOption result (self.old ≡ []) (λ word. self.old ≡ word.now ∷ self.new) }
    {
        let (word, rest) = next_word(self.rest)?;
        self.rest = rest;
        Some(word)
    }

    // The next word, which is needed.
    fn needed(&mut self) -> Result<&'a [u8], Why>
        ensures ok { IfOk result (λ word. self.old ≡ word.now ∷ self.new) }
        ensures missing { IfErr result (λ why. (why ≡ Why.Missing) × (self.old ≡ [])) }
    {
        match self.next() {
            Some(word) => Ok(word),
            None => Err(Why::Missing),
        }
    }

    // There are no words left.
    pub fn end(&mut self) -> Result<(), Why>
        ensures { IsAnswer (λ _. []) result (read_rest nothing self.old) (rest_kept nothing self.old) }
    {
        match self.next() {
            Some(_) => Err(Why::Extra),
            None => Ok(()),
        }
    }

    pub fn nonce(&mut self, alloc: Global) -> Result<Nonce, Why>
        ensures read { IsAnswer of_nonce result (first_read need_nonce self.old) (first_kept need_nonce self.old) }
        ensures left { OnOk result (self.new ≡ drop 1 self.old) }
    {
        let word = self.needed()?;
        Ok(Nonce::parse(alloc, word)?)
    }

    pub fn ns(&mut self, alloc: Global) -> Result<Ns, Why>
        ensures read { IsAnswer of_ns result (first_read need_ns self.old) (first_kept need_ns self.old) }
        ensures left { OnOk result (self.new ≡ drop 1 self.old) }
    {
        let word = self.needed()?;
        Ok(Ns::parse(alloc, word)?)
    }

    pub fn table(&mut self, alloc: Global) -> Result<TableName, Why>
        ensures read { IsAnswer of_table result (first_read need_table self.old) (first_kept need_table self.old) }
        ensures left { OnOk result (self.new ≡ drop 1 self.old) }
    {
        let word = self.needed()?;
        Ok(TableName::parse(alloc, word)?)
    }

    pub fn region(&mut self, alloc: Global) -> Result<RegionName, Why>
        ensures read { IsAnswer of_region result (first_read need_region self.old) (first_kept need_region self.old) }
        ensures left { OnOk result (self.new ≡ drop 1 self.old) }
    {
        let word = self.needed()?;
        Ok(RegionName::parse(alloc, word)?)
    }

    pub fn key(&mut self, alloc: Global) -> Result<RowKey, Why>
        ensures read { IsAnswer of_key result (first_read need_key self.old) (first_kept need_key self.old) }
        ensures left { OnOk result (self.new ≡ drop 1 self.old) }
    {
        let word = self.needed()?;
        Ok(RowKey::parse(alloc, word)?)
    }

    pub fn server(&mut self, alloc: Global) -> Result<ServerName, Why>
        ensures read { IsAnswer of_server result (first_read need_server self.old) (first_kept need_server self.old) }
        ensures left { OnOk result (self.new ≡ drop 1 self.old) }
    {
        let word = self.needed()?;
        Ok(ServerName::parse(alloc, word)?)
    }

    /// A server, or the storage where there is none.
    pub fn target(&mut self, alloc: Global) -> Result<Option<ServerName>, Why>
        ensures read { IsAnswer target_value result (first_read need_target self.old) (first_kept need_target self.old) }
        ensures left { OnOk result (self.new ≡ drop 1 self.old) }
    {
        let word = self.needed()?;
        if word == b"storage".as_slice() {
            return Ok(None);
        }
        Ok(Some(ServerName::parse(alloc, word)?))
    }

    /// A number from `least` to `most`.
    pub fn number(&mut self, least: u64, most: u64) -> Result<u64, Why>
        ensures read { IsAnswer of_number result (first_read (need_number least most) self.old) (first_kept (need_number least most) self.old) }
        ensures left { OnOk result (self.new ≡ drop 1 self.old) }
        ensures small { IfOk result (λ n. n ≤ most) }
    {
        let word = self.needed()?;
        match parse_decimal(word) {
            Some(number) if least <= number && number <= most => Ok(number),
            _ => Err(Why::Number),
        }
    }

    /// Keys, up to the end of the line.
    pub fn keys(&mut self, alloc: Global) -> Result<Vec<RowKey>, Why>
        ensures { IsAnswer (λ keys. map of_key keys.items) result (read_rest (many need_key) self.old) (rest_kept (many need_key) self.old) }
    {
        let Some(word) = self.next() else {
            return Ok(Vec::new(alloc));
        };
        let first = RowKey::parse(alloc, word)?;
        let mut keys = vec![in alloc; first]?;
        while let Some(word) = self.next() {
            let key = RowKey::parse(alloc, word)?;
            keys.push(key)?;
        }
        Ok(keys)
    }

    /// Two regions or more, but at most `most`, up to the end of the line. Two there may be in any case.
    pub fn regions(&mut self, alloc: Global, most: u64) -> Result<Vec<RegionName>, Why>
        ensures { IsAnswer (λ regions. map of_region regions.items) result
            (read_needs (need_region ∷ need_region ∷ []) (upto (most - 2) need_region) self.old)
            (needs_kept (need_region ∷ need_region ∷ []) (upto (most - 2) need_region) self.old) }
    {
        let first = self.region(alloc)?;
        let second = self.region(alloc)?;
        let mut regions = vec![in alloc; first, second]?;
        while let Some(word) = self.next() {
            if regions.len() as u64 >= most {
                return Err(Why::Extra);
            }
            let region = RegionName::parse(alloc, word)?;
            regions.push(region)?;
        }
        Ok(regions)
    }

    /// One server or more, up to the end of the line.
    pub fn servers(&mut self, alloc: Global) -> Result<Vec<ServerName>, Why>
        ensures { IsAnswer (λ servers. map of_server servers.items) result
            (read_needs (need_server ∷ []) (many need_server) self.old)
            (needs_kept (need_server ∷ []) (many need_server) self.old) }
    {
        let first = self.server(alloc)?;
        let mut servers = vec![in alloc; first]?;
        while let Some(word) = self.next() {
            let server = ServerName::parse(alloc, word)?;
            servers.push(server)?;
        }
        Ok(servers)
    }

    /// Perhaps a server, and nothing more.
    pub fn perhaps_server(&mut self, alloc: Global) -> Result<Option<ServerName>, Why>
        ensures { IsAnswer server_values result (read_rest (maybe need_server) self.old) (rest_kept (maybe need_server) self.old) }
    {
        let Some(word) = self.next() else {
            return Ok(None);
        };
        let server = ServerName::parse(alloc, word)?;
        self.end()?;
        Ok(Some(server))
    }

    /// Whether the word `json` is all that is left; there may also be nothing.
    pub fn perhaps_json(&mut self) -> Result<bool, Why>
        ensures { IsAnswer json_values result (read_rest (maybe need_json) self.old) (rest_kept (maybe need_json) self.old) }
    {
        let Some(word) = self.next() else {
            return Ok(false);
        };
        if word != b"json".as_slice() {
            return Err(Why::Extra);
        }
        self.end()?;
        Ok(true)
    }
}
