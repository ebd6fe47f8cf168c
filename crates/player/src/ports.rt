// The ports of eight handles, 255 beyond a part's own.
ghost use Rattle.std.specs.Prelude.{◌≡◌, get_or, map, slice_index};

// The port of a handle; 0 past the eighth, which no passed script has.
pub(crate) fn port_of(ports: &[u8; 8], handle: u8) -> u8
    ensures { result ≡ slice_index ports.now handle }
{
    ports.get(handle as usize).copied().unwrap_or_default()
}

// The port to which a part's handle is bound that a RUN binds to this one; 255 past the eighth.
fn bound(ports: &[u8; 8], handle: u8) -> u8
    ensures { result ≡ get_or ports.now handle 255 }
{
    ports.get(handle as usize).copied().unwrap_or(255)
}

// The ports of a part's handles, by the handles to which a RUN binds them.
pub(crate) fn handed(ports: &[u8; 8], bindings: &[u8; 8]) -> [u8; 8]
    ensures { result ≡ map (λ b. get_or ports.now b 255) bindings.now }
{
    bindings.map(|handle| bound(ports, handle))
}
