//! Which texts are networks and endpoints, which callers networks hold, who may call, who gets a seat, and for whom a
//! proxy connects.

use std::alloc::Global;
use std::net::{IpAddr, SocketAddr};
use test_support_data::{Answer, Area, Arguments, RowError};
use text_networks::{
    Guest, Guests, Network, NoSeat, Proxied, admit, admit_proxied, read_endpoint, read_proxy_line,
};

/// The port from which callers come.
const PORT: u16 = 50_000;

#[derive(Drop)]
pub struct Callers;

impl Area for Callers {
    /// `network TEXT`: whether the text is a network. `endpoint TEXT`: the endpoint that it is as `Display` writes it.
    /// `holds NETWORK CALLER`: whether the network holds the caller. `may_call CALLER NETWORK ..`: whether the caller is
    /// let in where these networks are. `guests MOST SEATS ..`: what callers at free seats are answered, one after another,
    /// where MOST is the most of an address, or `any`; a number has the caller of that seat leave, `unnamed` is one by a proxy,
    /// and a number with an address gives the one of that seat its own. `proxy LINE`: for whom a proxy connects.
    /// `admit_proxied PROXY LINE NETWORK ..`: the caller that is let in where a proxy of this address sends this line.
    fn answer(
        &mut self,
        alloc: Global,
        call: &str,
        arguments: &mut Arguments<'_>,
        answer: &mut Answer,
    ) -> Result<(), RowError> {
        let text = arguments.text()?;
        match call {
            "network" => Ok(answer.is(Network::read(text.as_str()).is_some())?),
            "endpoint" => answer_endpoint(alloc, text.as_str(), answer),
            "holds" => {
                let caller = address_of(arguments.text()?.as_str())?;
                let network = network_of(text.as_str())?;
                Ok(answer.is(network.contains(caller))?)
            }
            "may_call" => {
                let networks = read_networks(alloc, arguments)?;
                let caller = caller_of(text.as_str())?;
                Ok(answer.is(admit(networks.as_slice(), caller).is_some())?)
            }
            "admit_proxied" => answer_proxied(alloc, text.as_str(), arguments, answer),
            "guests" => answer_guests(alloc, text.as_str(), arguments, answer),
            "proxy" => answer_proxy(alloc, text.as_str(), answer),
            _ => Err(RowError::Unreadable),
        }
    }
}

fn answer_guests(
    alloc: Global,
    most: &str,
    arguments: &mut Arguments<'_>,
    answer: &mut Answer,
) -> Result<(), RowError> {
    let most_from = match most {
        "any" => None,
        number => Some(number.parse::<usize>().ok().ok_or(RowError::Unreadable)?),
    };
    let seats = arguments.small()? as usize;
    let mut guests = Guests::new(alloc, seats, most_from)?;
    for _ in 0..arguments.len() {
        answer_guest(&mut guests, arguments.text()?.as_str(), answer)?;
    }
    Ok(())
}

/// A caller of an address comes, or that of a seat leaves.
fn answer_guest(guests: &mut Guests, text: &str, answer: &mut Answer) -> Result<(), RowError> {
    if let Ok(seat) = text.parse::<usize>() {
        guests.leave(seat);
        return Ok(answer.word("free")?);
    }
    let entered = match text.split_once(' ') {
        Some((seat, address)) => {
            let seat = seat.parse::<usize>().ok().ok_or(RowError::Unreadable)?;
            guests.name(seat, address_of(address)?)
        }
        None if text == "unnamed" => guests.enter(Guest::Unnamed),
        None => guests.enter(Guest::At(address_of(text)?)),
    };
    match entered {
        Ok(seat) => answer.number(seat as u64)?,
        Err(NoSeat::Full) => answer.word("full")?,
        Err(NoSeat::Address) => answer.word("address")?,
    }
    Ok(())
}

fn address_of(text: &str) -> Result<IpAddr, RowError> {
    text.parse::<IpAddr>().ok().ok_or(RowError::Unreadable)
}

/// A caller of an address, from a port.
fn caller_of(text: &str) -> Result<SocketAddr, RowError> {
    Ok(SocketAddr::new(address_of(text)?, PORT))
}

fn network_of(text: &str) -> Result<Network, RowError> {
    Network::read(text).ok_or(RowError::Unreadable)
}

/// The networks that the further arguments name.
fn read_networks(alloc: Global, arguments: &mut Arguments<'_>) -> Result<Vec<Network>, RowError> {
    let mut networks = Vec::new(alloc);
    for _ in 0..arguments.len() {
        networks.push(network_of(arguments.text()?.as_str())?)?;
    }
    Ok(networks)
}

/// The caller that is let in for a proxy, or the one that isn't.
fn answer_proxied(
    alloc: Global,
    proxy: &str,
    arguments: &mut Arguments<'_>,
    answer: &mut Answer,
) -> Result<(), RowError> {
    let proxy = admit(&[], caller_of(proxy)?).ok_or(RowError::Unreadable)?;
    let line = arguments.text()?;
    let named = read_proxy_line(line.as_str().as_bytes()).ok_or(RowError::Unreadable)?;
    let networks = read_networks(alloc, arguments)?;
    match admit_proxied(networks.as_slice(), proxy, named) {
        Ok(caller) => answer_peer(alloc, caller.peer(), answer),
        Err(peer) => {
            answer.word("refused")?;
            answer_peer(alloc, peer, answer)
        }
    }
}

fn answer_peer(alloc: Global, peer: SocketAddr, answer: &mut Answer) -> Result<(), RowError> {
    let shown = format!(in alloc; "{peer}")?;
    Ok(answer.word(shown.as_str())?)
}

fn answer_proxy(alloc: Global, line: &str, answer: &mut Answer) -> Result<(), RowError> {
    match read_proxy_line(line.as_bytes()) {
        Some(Proxied::From(address, port)) => {
            let shown = format!(in alloc; "{address} {port}")?;
            answer.word(shown.as_str())?;
        }
        Some(Proxied::Unknown) => answer.word("unknown")?,
        None => answer.word("none")?,
    }
    Ok(())
}

fn answer_endpoint(alloc: Global, text: &str, answer: &mut Answer) -> Result<(), RowError> {
    match read_endpoint(text) {
        Some(endpoint) => {
            let shown = format!(in alloc; "{endpoint}")?;
            answer.word(shown.as_str())?;
        }
        None => answer.word("none")?,
    }
    Ok(())
}
