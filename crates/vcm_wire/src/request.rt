//! Requests, as they are told in JSON.

ghost use Rattle.std.specs.Prelude.{◌≡◌, IfOk, IfErr};
ghost use Rattle.json.specs.Value.{value_view};
ghost use Rattle.vcm_wire.specs.Requests.{Asks, IsUnread};

use json::Value;

/// Why a message is no request.
#[derive(Clone, Copy)]
pub enum Unread {
    /// It answers something, or tells something: there is nothing to answer.
    NoRequest,
    /// It has no `seq` from 0 on, or no `command`.
    Broken,
}

/// A request: its number, what it asks, and the message that it stands in.
#[derive(Drop)]
pub struct Request<'v, 'a> {
    pub seq: u64,
    pub command: &'v str,
    pub message: &'v Value<'a>,
}

/// The request that a message is.
///
/// Errors: `NoRequest` where a `type` is there that isn't the text `request`; `Broken` where it is no such message, and `seq` is no whole number
/// below 2^64, or `command` is no text.
pub fn request_of<'v, 'a>(message: &'v Value<'a>) -> Result<Request<'v, 'a>, Unread>
    ensures asks { IfOk result (λ r. Asks (value_view message.now) r.seq r.command.now) }
    ensures message { IfOk result (λ r. value_view r.message.now ≡ value_view message.now) }
    ensures unread { IfErr result (λ u. IsUnread (value_view message.now) u) }
{
    if let Some(kind) = message.get("type") {
        if kind.as_str() != Some("request") {
            return Err(Unread::NoRequest);
        }
    }
    let Some(seq) = message.get("seq").and_then(Value::as_u64) else {
        return Err(Unread::Broken);
    };
    let Some(command) = message.get("command").and_then(Value::as_str) else {
        return Err(Unread::Broken);
    };
    Ok(Request {
        seq,
        command,
        message,
    })
}

impl<'v, 'a> Request<'v, 'a> {
    ghost use Rattle.std.specs.Prelude.{◌≡◌, option_map};
    ghost use Rattle.json.specs.Value.{value_view};
    ghost use Rattle.vcm_wire.specs.Requests.{argument};

    /// An argument of the request, if it is there. One that is null is not.
    pub fn argument(&self, name: &str) -> Option<&'v Value<'a>>
        ensures { option_map (λ v. value_view v.now) result ≡ argument (value_view self.now.message.now) name.now }
    {
        let value = self.message.get("arguments")?.get(name)?;
        if value.is_null() { None } else { Some(value) }
    }
}
