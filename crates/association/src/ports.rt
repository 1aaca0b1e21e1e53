// The two ports of a UDP segment (RFC 768), its first four bytes. What a short segment lacks reads as 0.
ghost use Rattle.association.specs.Ports.{destination_of, port_at, source_of};
ghost use Rattle.std.specs.Prelude.{◌≡◌, ◌≤◌, slice_index};

fn byte_at(bytes: &[u8], at: usize) -> u8
    ensures { result ≡ slice_index bytes.now at }
{
    bytes.get(at).copied().unwrap_or(0)
}

fn port_at(segment: &[u8], at: usize) -> u16
    requires { at ≤ 2 }
    ensures { result ≡ port_at segment.now at }
{
    u16::from_be_bytes([byte_at(segment, at), byte_at(segment, at + 1)])
}

pub fn source_port(segment: &[u8]) -> u16
    ensures { result ≡ source_of segment.now }
{
    port_at(segment, 0)
}

pub fn destination_port(segment: &[u8]) -> u16
    ensures { result ≡ destination_of segment.now }
{
    port_at(segment, 2)
}
