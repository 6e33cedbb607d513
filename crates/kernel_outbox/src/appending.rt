//! Octets that are appended where there is room.

ghost use Rattle.std.specs.Prelude.{◌≡◌, ◌+◌, ◌≤◌, ◌++◌, length, vec_len, vec_capacity};

/// Appends octets for which there is room.
pub fn append(octets: &mut Vec<u8>, more: &[u8])
    requires { vec_len octets.old + length more.now ≤ vec_capacity octets.old }
    ensures items { octets.new.items ≡ octets.old.items ++ more.now }
    ensures len { vec_len octets.new ≡ vec_len octets.old + length more.now }
    ensures capacity { vec_capacity octets.old ≤ vec_capacity octets.new }
{
    match octets.extend_from_slice(more) {
        Ok(()) => {}
        Err(_) => unreachable!(),
    }
}
