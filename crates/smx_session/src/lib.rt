//! The sessions of an SMPP 3.4 proxy: what it does with each PDU of a client, and with each PDU of
//! the message centre that it is bound to.
//!
//! A session reads no socket and no clock: PDUs and moments are handed in, and acts come out.
#![tactic(auto)]

mod account;
mod act;
mod ask;
mod bind_check;
mod client;
mod client_row;
mod client_state;
mod enquiry;
mod kind;
mod rules;
mod up_act;
mod upstream;
mod upstream_bind;
mod upstream_row;
mod upstream_state;

pub use account::Account;
pub use act::Act;
pub use ask::Ask;
pub use client::ClientSession;
pub use client_state::ClientState;
pub use enquiry::Enquiry;
pub use kind::Kind;
pub use rules::{Bodies, Commands, Rules};
pub use up_act::UpAct;
pub use upstream::UpstreamSession;
pub use upstream_bind::UpstreamBind;
pub use upstream_state::UpstreamState;
