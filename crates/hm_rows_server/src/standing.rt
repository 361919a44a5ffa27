//! Servers that come up, go down and are fenced, what is refused, and who is picked.
use crate::calls::{first_word, server};
use hm_names::{NameFault, ServerName};
use hm_places::{Places, Servers};
use std::alloc::{AllocError, Global};

// Puts what is answered where a server comes up: the older one that goes down, or why it is refused.
fn put_up(
    alloc: Global,
    servers: &mut Servers,
    name: ServerName,
    out: &mut String,
) -> Result<(), AllocError> {
    match servers.up(alloc, name) {
        Ok(None) => out.push_str("up"),
        Ok(Some(older)) => {
            let put = write!(out, "up, {older} down");
            drop(older);
            put
        }
        Err(refused) => write!(out, "{refused:?}"),
    }
}

fn put_down(servers: &mut Servers, name: &ServerName, out: &mut String) -> Result<(), AllocError> {
    match servers.down(name) {
        Ok(()) => out.push_str("down"),
        Err(refused) => write!(out, "{refused:?}"),
    }
}

// Adds a server that may come up, where no older one is live.
fn add(alloc: Global, servers: &mut Servers, name: ServerName) -> Result<bool, AllocError> {
    if let Err(error) = servers.reserve(alloc, 1) {
        drop(name);
        return Err(error);
    }
    if servers.may_come_up(&name).is_err() || servers.has_older_live(&name) {
        drop(name);
        return Ok(false);
    }
    servers.add(name);
    Ok(true)
}

fn put_added(
    alloc: Global,
    servers: &mut Servers,
    name: ServerName,
    out: &mut String,
) -> Result<(), AllocError> {
    let added = add(alloc, servers, name)?;
    write!(out, "{added}")
}

// Fences a server that is live.
fn fence(servers: &mut Servers, name: &ServerName) -> bool {
    let live = servers.live(name);
    if live {
        servers.fence(name);
    }
    live
}

// Puts what is told beside a server: whether one of its host and port came up that is as new, whether an older one there
// is live, and whether any other is.
fn put_others(servers: &Servers, name: &ServerName, out: &mut String) -> Result<(), AllocError> {
    let newer = servers.has_newer(name);
    let older = servers.has_older_live(name);
    let other = servers.has_other_live(name);
    write!(out, "as new {newer}, older {older}, other {other}")
}

fn put_may(servers: &Servers, name: &ServerName, out: &mut String) -> Result<(), AllocError> {
    let up = servers.may_come_up(name);
    let down = servers.may_go_down(name);
    write!(out, "up {up:?}, down {down:?}")
}

fn put_name(name: Option<&ServerName>, out: &mut String) -> Result<(), AllocError> {
    match name {
        Some(name) => write!(out, "{name}"),
        None => out.push_str("none"),
    }
}

// Puts the older server that is live.
fn put_older(
    alloc: Global,
    servers: &Servers,
    name: &ServerName,
    out: &mut String,
) -> Result<(), AllocError> {
    let older = servers.older_of(alloc, name)?;
    let put = put_name(older.as_ref(), out);
    drop(older);
    put
}

// Puts what is told of a server.
fn put_told(
    alloc: Global,
    servers: &Servers,
    verb: &str,
    name: &ServerName,
    out: &mut String,
) -> Result<(), AllocError> {
    match verb {
        "live" => write!(out, "{}", servers.live(name)),
        "fenced" => write!(out, "{}", servers.fenced(name)),
        "others" => put_others(servers, name, out),
        "may" => put_may(servers, name, out),
        _ => put_older(alloc, servers, name, out),
    }
}

// Puts all servers, and whether each is live.
fn put_all(servers: &Servers, out: &mut String) -> Result<(), AllocError> {
    for (name, standing) in servers.all().iter() {
        let word = if standing.live { "live" } else { "down" };
        write!(out, "{name} {word};")?;
    }
    Ok(())
}

// Puts what becomes of a server that stands already, or what is told of it.
fn put_known(
    alloc: Global,
    servers: &mut Servers,
    (verb, name): (&str, ServerName),
    out: &mut String,
) -> Result<(), AllocError> {
    let put = match verb {
        "down" => put_down(servers, &name, out),
        "fence" => write!(out, "{}", fence(servers, &name)),
        _ => put_told(alloc, servers, verb, &name, out),
    };
    drop(name);
    put
}

// Puts what becomes of a server, or what is told of it.
fn put_of(
    alloc: Global,
    servers: &mut Servers,
    (verb, name): (&str, &str),
    out: &mut String,
) -> Result<(), NameFault> {
    let name = server(alloc, name)?;
    match verb {
        "up" => put_up(alloc, servers, name, out)?,
        "add" => put_added(alloc, servers, name, out)?,
        _ => put_known(alloc, servers, (verb, name), out)?,
    }
    Ok(())
}

// Puts who is picked, where one may be avoided.
fn put_pick(
    alloc: Global,
    servers: &Servers,
    (places, avoid): (&Places, &str),
    out: &mut String,
) -> Result<(), NameFault> {
    if avoid.is_empty() {
        put_name(servers.pick(places, None), out)?;
        return Ok(());
    }
    let avoid = server(alloc, avoid)?;
    let put = put_name(servers.pick(places, Some(&avoid)), out);
    drop(avoid);
    put?;
    Ok(())
}

/// Puts what becomes of servers, what is told of them, or who is picked among them.
pub fn put_standing(
    alloc: Global,
    servers: &mut Servers,
    places: &Places,
    words: &str,
    out: &mut String,
) -> Result<(), NameFault> {
    let (verb, name) = first_word(words);
    match verb {
        "all" => put_all(servers, out)?,
        "any-live" => write!(out, "{}", servers.any_live())?,
        "pick" => put_pick(alloc, servers, (places, name), out)?,
        _ => put_of(alloc, servers, (verb, name), out)?,
    }
    Ok(())
}
