//! The records of a base.
ghost use Rattle.std.specs.Prelude.{◌≡◌, Err, IfErr, IfOk, IsOk, OnOk, length};
ghost use Rattle.hm_model.specs.Base.{IsBegun};
ghost use Rattle.hm_model.specs.Rebase.{based};
ghost use Rattle.hm_model.specs.Rules.{IsLegal};
ghost use Rattle.hm_base.specs.Read.{AreRead, IsNoBase, past_of};

use crate::reader::Reader;
use crate::why::BaseWhy;
use hm_data::Part;
use hm_records::Records;
use std::alloc::Global;

// Reads the first part.
fn read_first(alloc: Global, parts: &[Part]) -> Result<Reader, BaseWhy>
    ensures read { IfOk result (AreRead parts.now 1) }
    ensures why { IfErr result (IsNoBase parts.now) }
{
    let Some(first) = parts.first() else {
        return Err(BaseWhy::Part(0));
    };
    match Reader::begin(alloc, first)? {
        Some(reader) => Ok(reader),
        None => Err(BaseWhy::Part(0)),
    }
}

// Reads the parts behind the first, one after another.
fn read_rest(alloc: Global, parts: &[Part], reader: &mut Reader) -> Result<(), BaseWhy>
    requires { AreRead parts.now 1 reader.old }
    ensures read { OnOk result (AreRead parts.now (length parts.now) reader.new) }
    ensures why { IfErr result (IsNoBase parts.now) }
{
    for number in 1..parts.len() {
        let taken = reader.take(alloc, &parts[number - 1], &parts[number])?;
        if !taken {
            return Err(BaseWhy::Part(number as u64));
        }
    }
    Ok(())
}

// Reads the parts behind the first, which have to make a whole base with it.
fn read_all(alloc: Global, parts: &[Part], reader: &mut Reader) -> Result<(), BaseWhy>
    requires { AreRead parts.now 1 reader.old }
    ensures past { OnOk result (past_of reader.new ≡ based parts.now) }
    ensures legal { OnOk result (IsLegal (based parts.now)) }
    ensures begun { OnOk result (IsBegun (based parts.now)) }
    ensures why { IfErr result (IsNoBase parts.now) }
{
    read_rest(alloc, parts, reader)?;
    let whole = reader.is_whole(alloc, parts.len())?;
    if !whole {
        return Err(BaseWhy::Part(parts.len() as u64));
    }
    Ok(())
}

// A value, unless what was done with it failed.
fn unless_failed<T: Drop>(done: Result<(), BaseWhy>, value: T) -> Result<T, BaseWhy>
    ensures ok { IfOk result (λ kept. (kept ≡ value) × IsOk done) }
    ensures err { IfErr result (λ why. done ≡ Err why) }
{
    match done {
        Ok(()) => Ok(value),
        Err(why) => {
            drop(value);
            Err(why)
        }
    }
}

/// What the journal says that has these parts of a base and nothing else. The parts are judged in order, each by those before it:
/// the first that doesn't fit is told, and where each fits and the whole is no base, the number of all. It takes time in the parts
/// times a logarithm.
pub fn read_base(alloc: Global, parts: &[Part]) -> Result<Records, BaseWhy>
    ensures past { IfOk result (λ records. records.past ≡ based parts.now) }
    ensures legal { IfOk result (λ _. IsLegal (based parts.now)) }
    ensures begun { IfOk result (λ _. IsBegun (based parts.now)) }
    ensures why { IfErr result (IsNoBase parts.now) }
{
    let mut reader = read_first(alloc, parts)?;
    let done = read_all(alloc, parts, &mut reader);
    let Reader { records, .. } = reader;
    unless_failed(done, records)
}
