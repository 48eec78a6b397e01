//! Optional parameters (SMPP 3.4, section 5.3.2).
ghost use Rattle.std.specs.Prelude.{◌≡◌, ◌<◌, length, false, IfSome, IfNone};
ghost use Rattle.smx_bodies.specs.Reading.{parameters_after};

// The octets after an optional parameter: a tag of two octets, a length of two, and so many octets.
fn after_parameter(octets: &[u8]) -> Option<&[u8]>
    ensures rest { IfSome result (λ rest.
        parameters_after 0 octets.now ≡ parameters_after 0 rest.now) }
    ensures fewer { IfSome result (λ rest. length rest.now < length octets.now) }
    ensures none { IfNone result (0 < length octets.now → parameters_after 0 octets.now ≡ false) }
{
    let [_, _, high, low, value @ ..] = octets else {
        return None;
    };
    let length = usize::from(*high) * 256 + usize::from(*low);
    if value.len() < length {
        return None;
    }
    Some(&value[length..])
}

// Whether octets are optional parameters up to their end.
pub(crate) fn are_parameters(octets: &[u8]) -> bool
    ensures { result ≡ parameters_after 0 octets.now }
{
    let mut rest = octets;
    while !rest.is_empty() {
        let Some(after) = after_parameter(rest) else {
            return false;
        };
        rest = after;
    }
    true
}
