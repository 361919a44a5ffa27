//! Places of regions, how many are at a server, and which.
use crate::calls::{first_word, number, region, server};
use hm_data::{Place, RegionState};
use hm_names::{NameFault, ServerName};
use hm_places::Places;
use std::alloc::{AllocError, Global};

fn is_printed(alloc: Global, state: RegionState, word: &str) -> Result<bool, AllocError> {
    let text = format!(in alloc; "{state:?}")?;
    let same = text.as_str() == word;
    drop(text);
    Ok(same)
}

// The state that is printed as a word.
fn state(alloc: Global, word: &str) -> Result<RegionState, NameFault> {
    for number in 0..=255 {
        if let Some(state) = RegionState::of(number) {
            if is_printed(alloc, state, word)? {
                return Ok(state);
            }
        }
    }
    Err(NameFault::Empty)
}

fn place(alloc: Global, word: &str, at: &str) -> Result<Place, NameFault> {
    let state = state(alloc, word)?;
    let server = Some(server(alloc, at)?);
    Ok(Place { state, server })
}

// Gives a region a place.
fn put_place(
    alloc: Global,
    places: &mut Places,
    (name, rest): (&str, &str),
) -> Result<(), NameFault> {
    let (word, at) = first_word(rest);
    let place = place(alloc, word, at)?;
    match region(alloc, name) {
        Ok(region) if places.reserve(alloc, 1).is_ok() => {
            places.set(region, place);
            Ok(())
        }
        Ok(region) => {
            drop(region);
            drop(place);
            Err(NameFault::Memory)
        }
        Err(fault) => {
            drop(place);
            Err(fault)
        }
    }
}

fn put_state(place: &Place, out: &mut String) -> Result<(), AllocError> {
    let state = place.state;
    match &place.server {
        Some(server) => write!(out, "{state:?} {server}"),
        None => write!(out, "{state:?}"),
    }
}

// Puts where a region is.
fn put_of(alloc: Global, places: &Places, name: &str, out: &mut String) -> Result<(), NameFault> {
    let region = region(alloc, name)?;
    let put = put_state(places.of(&region), out);
    drop(region);
    put?;
    Ok(())
}

// Puts the first regions at a server.
fn put_there(
    places: &Places,
    server: &ServerName,
    most: u64,
    out: &mut String,
) -> Result<(), AllocError> {
    for region in places.on_server(server, most as usize) {
        write!(out, "{region};")?;
    }
    Ok(())
}

// Puts how many regions are at a server, or which are the first ones.
fn put_at(
    alloc: Global,
    places: &Places,
    (at, most): (&str, Option<u64>),
    out: &mut String,
) -> Result<(), NameFault> {
    let at = server(alloc, at)?;
    let put = match most {
        Some(most) => put_there(places, &at, most, out),
        None => write!(out, "{}", places.load(&at)),
    };
    drop(at);
    put?;
    Ok(())
}

// Puts all regions with their places.
fn put_all(places: &Places, out: &mut String) -> Result<(), AllocError> {
    for (region, place) in places.all().iter() {
        write!(out, "{region} ")?;
        put_state(place, out)?;
        out.push_str(";")?;
    }
    Ok(())
}

/// Puts what is told of places: of all, of a region, how many are at a server or which are the first ones, or that a region has one.
pub fn put_placed(
    alloc: Global,
    places: &mut Places,
    words: &str,
    out: &mut String,
) -> Result<(), NameFault> {
    let (verb, rest) = first_word(words);
    match verb {
        "all" => put_all(places, out)?,
        "of" => put_of(alloc, places, rest, out)?,
        "load" => put_at(alloc, places, (rest, None), out)?,
        "first" => {
            let (most, at) = first_word(rest);
            put_at(alloc, places, (at, Some(number(most)?)), out)?;
        }
        name => put_place(alloc, places, (name, rest))?,
    }
    Ok(())
}
