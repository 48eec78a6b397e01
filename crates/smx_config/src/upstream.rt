//! The binds to the message centre.
ghost use Rattle.std.specs.Prelude.{◌≡◌, ◌≢◌, ◌⊎◌, [], IfOk, IfErr, MatchResult, length};
ghost use Rattle.toml.specs.View.{view, items_view};
ghost use Rattle.smx_config.specs.Settings.{number_in, upstream_in, upstreams_of};

use crate::bind_kind::BindKind;
use crate::fault::ConfigFault;
use crate::number::Number;
use crate::text::Text;
use std::alloc::{AllocError, Global};
use std::fmt;
use std::marker::Model;
use toml::Value;

/// Where the message centre is, and how the proxy binds to it. Printed for debugging it has its
/// address and system_id alone, so that no password is seen.
#[derive(Drop)]
pub struct Upstream {
    /// An address of 1 to 255 octets, as `127.0.0.1:2776`.
    pub address: String,
    /// 1 to 15 octets, none of them 0.
    pub system_id: String,
    /// At most 8 octets, none of them 0.
    pub password: String,
    /// What the bind is for.
    pub bind: BindKind,
    /// At most 12 octets, none of them 0 (SMPP 3.4, section 4.1).
    pub system_type: String,
    /// At most 40 octets, none of them 0.
    pub address_range: String,
    /// 0x34 is SMPP 3.4.
    pub interface_version: u8,
}

impl Model for Upstream {
    ghost use Rattle.std.specs.Prelude.{string_bytes};
    ghost use Rattle.smx_config.specs.Settings.{UpstreamSettings, IsUpstream};

    ghost Value = { UpstreamSettings };

    ghost view = { λ u. record {
      address = string_bytes u.address;
      system_id = string_bytes u.system_id;
      password = string_bytes u.password;
      bind = u.bind;
      system_type = string_bytes u.system_type;
      address_range = string_bytes u.address_range;
      interface_version = u.interface_version;
    } };

    ghost invariant = { λ u. IsUpstream
        (record {
          address = string_bytes u.address;
          system_id = string_bytes u.system_id;
          password = string_bytes u.password;
          bind = u.bind;
          system_type = string_bytes u.system_type;
          address_range = string_bytes u.address_range;
          interface_version = u.interface_version;
        }) };
}

impl fmt::Debug for Upstream {
    fn fmt<W: fmt::Write>(&self, f: &mut fmt::Formatter<W>) -> fmt::Result {
        write!(f, "Upstream({} at {})", self.system_id, self.address)
    }
}

// The version that a value states.
fn version_within(value: &Value) -> Option<u8>
    ensures { result ≡ number_in Number.InterfaceVersion (view value.now) }
{
    match Number::InterfaceVersion.within(value) {
        Some(version) => u8::try_from(version).ok(),
        None => None,
    }
}

// The upstream that a value states.
fn read_upstream(alloc: Global, value: &Value) -> Result<Option<Upstream>, AllocError>
    ensures { IfOk result (λ u. u ≡ upstream_in [] (view value.now)) }
{
    let Some(address) = Text::Address.within(value) else {
        return Ok(None);
    };
    let Some(system_id) = Text::SystemId.within(value) else {
        return Ok(None);
    };
    let Some(password) = Text::Password.within(value) else {
        return Ok(None);
    };
    let Some(bind) = BindKind::within(value) else {
        return Ok(None);
    };
    let Some(system_type) = Text::SystemType.within_or_empty(value) else {
        return Ok(None);
    };
    let Some(address_range) = Text::AddressRange.within_or_empty(value) else {
        return Ok(None);
    };
    let Some(interface_version) = version_within(value) else {
        return Ok(None);
    };
    let address = String::from_str(alloc, address)?;
    let system_id = String::from_str(alloc, system_id)?;
    let password = String::from_str(alloc, password)?;
    let system_type = String::from_str(alloc, system_type)?;
    let address_range = String::from_str(alloc, address_range)?;
    Ok(Some(Upstream {
        address,
        system_id,
        password,
        bind,
        system_type,
        address_range,
        interface_version,
    }))
}

/// The upstreams that values state, or the first that states none.
pub(crate) fn read_upstreams(alloc: Global, values: &[Value]) -> Result<Vec<Upstream>, ConfigFault>
    ensures value { MatchResult result (λ list. upstreams_of (items_view values.now)
        ≡ Ok list.items) (λ e. (e ≡ ConfigFault.NoMemory)
        ⊎ (upstreams_of (items_view values.now) ≡ Err e)) }
    ensures fault { IfErr result (λ e. e ≢ ConfigFault.NotToml) }
    ensures count { IfOk result (λ list. length list.items ≡ length values.now) }
{
    let mut list = Vec::new(alloc);
    for value in values {
        let Ok(read) = read_upstream(alloc, value) else {
            return Err(ConfigFault::NoMemory);
        };
        let Some(upstream) = read else {
            return Err(ConfigFault::Upstream(list.len()));
        };
        let Ok(()) = list.push(upstream) else {
            return Err(ConfigFault::NoMemory);
        };
    }
    Ok(list)
}
