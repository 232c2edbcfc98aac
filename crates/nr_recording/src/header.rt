//! The version and the limits in the header line.

ghost use Rattle.std.specs.Prelude.{◌≡◌};
ghost use Rattle.serde_json.specs.View.{view};
ghost use Rattle.nr_recording.specs.Header.{unsigned_at, member_count as count_of, version_of, limit_of, limits_of, header_of};

use crate::fault::Fault;
use crate::version::Version;
use nr_rev::{Limits, MOST_DESCRIPTORS, MOST_GOROUTINES, MOST_SOCKETS, is_limit};
use serde_json::Value;

#[tactic(auto, using(crate::proofs::MembersLemmas::members_len_of_view))]
fn member_count(value: &Value) -> Option<usize>
    ensures { result ≡ count_of (view value.now) }
{
    value.as_object().map(|members| members.len())
}

fn unsigned(value: &Value, key: &str) -> Result<u64, Fault>
    ensures { result ≡ unsigned_at key.now (view value.now) }
{
    value.get(key).and_then(Value::as_u64).ok_or(Fault::Header)
}

/// Returns the version that the header names.
pub(crate) fn version(value: &Value) -> Result<Version, Fault>
    ensures { result ≡ version_of (view value.now) }
{
    let number = unsigned(value, "netrev")?;
    Version::numbered(number).ok_or(Fault::Header)
}

fn limit(most: u32, number: u64) -> Result<u32, Fault>
    ensures { result ≡ limit_of most number }
{
    match u32::try_from(number) {
        Ok(number) if is_limit(most, number) => Ok(number),
        _ => Err(Fault::Limit),
    }
}

#[tactic(auto, unfolding(crate::specs::Header::limits_of))]
fn limits(version: Version, gor: u64, sock: u64, desc: u64, buf: u64) -> Result<Limits, Fault>
    ensures { result ≡ limits_of version gor sock desc buf }
{
    Ok(Limits {
        goroutines: limit(MOST_GOROUTINES, gor)?,
        sockets: limit(MOST_SOCKETS, sock)?,
        descriptors: limit(MOST_DESCRIPTORS, desc)?,
        buffer: limit(version.most_buffer(), buf)?,
    })
}

/// Returns the limits in a header of this version.
#[tactic(auto, unfolding(crate::specs::Header::header_of))]
pub(crate) fn header(version: Version, value: &Value) -> Result<Limits, Fault>
    ensures { result ≡ header_of version (view value.now) }
{
    let count = member_count(value).ok_or(Fault::Header)?;
    let gor = unsigned(value, "gor")?;
    let sock = unsigned(value, "sock")?;
    let desc = unsigned(value, "desc")?;
    let buf = unsigned(value, "buf")?;
    if count != 5 {
        return Err(Fault::Header);
    }
    limits(version, gor, sock, desc, buf)
}
