//! Where a database is served.
ghost use Rattle.std.specs.Prelude.{◌≡◌, IfOk, Err, None, Some, Ok, codes, is_some};
ghost use Rattle.std.specs.Str.{bytes_eq};
ghost use Rattle.url.specs.Parts.{has_credentials};
ghost use Rattle.u1_base.specs.Ids.{id_in};
ghost use Rattle.u1_base.specs.declared.ids.Form.TheVariants.{Name};
ghost use Rattle.sync_http.specs.Addresses.{address_in, address_of, database_in, is_plain};
ghost use Rattle.sync_http.specs.declared.address.AddressFault.TheVariants.{Bad};

use crate::names::name_of;
use crate::slashes::cut;
use std::alloc::Global;
use thiserror::Error;
use u1_base::{DbName, IdFault, Memory, Text};
use url::{ParseError, Url};

/// The address of a database: an `http` URL (URL Standard) with a host and one path segment, the
/// database's name.
#[derive(Drop)]
pub struct Address {
    /// As the URL Standard writes it: a domain in lower case, or an IP address; of version 6 in
    /// brackets.
    pub host: Text,
    /// 80 where the text names none.
    pub port: u16,
    pub db: DbName,
}

/// Why a text is no address.
#[derive(Clone, Copy, Debug, PartialEq, Eq, Error)]
pub enum AddressFault {
    #[error("not an http address of a database")]
    Bad,
    #[error("out of memory")]
    Memory,
}

impl From<Memory> for AddressFault {
    ghost use Rattle.std.specs.Prelude.{◌≡◌};
    ghost use Rattle.sync_http.specs.declared.address.AddressFault.TheVariants as fault;

    ghost from_gives = { λ _ e. e ≡ fault.Memory };

    fn from(_memory: Memory) -> AddressFault {
        AddressFault::Memory
    }
}

/// Reads an address with the `url` crate: what the URL Standard's parser makes of the text is
/// taken, odd spellings included. A user name, a password, a query and a fragment are refused, an
/// empty query or fragment too.
pub fn read_address(alloc: Global, text: &str) -> Result<Address, AddressFault>
    ensures ok { IfOk result (λ address. address_in text.now ≡ Some address) }
    ensures bad { result ≡ Err Bad → address_in text.now ≡ None }
{
    match Url::parse(alloc, text) {
        Ok(url) => address_of(alloc, &url),
        // a text whose URL would be longer than 4 GiB is no mistake of the caller's
        Err(ParseError::OutOfMemory | ParseError::Overflow) => Err(AddressFault::Memory),
        Err(_) => Err(AddressFault::Bad),
    }
}

fn address_of(alloc: Global, url: &Url) -> Result<Address, AddressFault>
    ensures ok { IfOk result (λ address. address_of url.now ≡ Some address) }
    ensures bad { result ≡ Err Bad → address_of url.now ≡ None }
{
    if !is_plain(url) {
        return Err(AddressFault::Bad);
    }
    let Some(host) = url.host_str() else {
        return Err(AddressFault::Bad);
    };
    let Some(db) = database_in(alloc, url.path())? else {
        return Err(AddressFault::Bad);
    };
    Ok(Address {
        host: Text::copy(alloc, host)?,
        port: url.port().unwrap_or(80),
        db,
    })
}

fn is_plain(url: &Url) -> bool
    ensures { result ≡ is_plain url.now }
{
    is_http(url) && !has_user(url) && !has_query(url) && !has_fragment(url)
}

fn is_http(url: &Url) -> bool
    ensures { result ≡ bytes_eq url.now.scheme (codes "http") }
{
    url.scheme() == "http"
}

fn has_user(url: &Url) -> bool
    ensures { result ≡ has_credentials url.now }
{
    !url.username().is_empty() || url.password().is_some()
}

fn has_query(url: &Url) -> bool
    ensures { result ≡ is_some url.now.query }
{
    url.query().is_some()
}

fn has_fragment(url: &Url) -> bool
    ensures { result ≡ is_some url.now.fragment }
{
    url.fragment().is_some()
}

// The database that a path of one segment names.
fn database_in(alloc: Global, path: &str) -> Result<Option<DbName>, Memory>
    ensures { IfOk result (λ db. db ≡ database_in path.now) }
{
    let Some((front, segment)) = cut(path) else {
        return Ok(None);
    };
    if !front.is_empty() {
        return Ok(None);
    }
    name_of(alloc, segment)
}
