//! The record of an article's number in a group.

ghost use Rattle.std.specs.Prelude.{◌≡◌, ◌^◌, ◌<◌, length};
ghost use Rattle.model.specs.SpoolFiles as model_files;

/// The 16 octets of an article in the numbers of a group: its serial, and the place of its overview line, given by the
/// number of octets before the line.
pub fn number_record(serial: u64, offset: u32, line: &[u8]) -> [u8; 16]
    requires { length line.now < 2 ^ 32 }
    ensures { result ≡ model_files.number_record serial offset line.now }
{
    let mut octets = [0; 16];
    octets[..8].copy_from_slice(&serial.to_le_bytes());
    octets[8..12].copy_from_slice(&offset.to_le_bytes());
    octets[12..].copy_from_slice(&(line.len() as u32).to_le_bytes());
    octets
}
