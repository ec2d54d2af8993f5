ghost use Rattle.tg_page.specs.Buffers.{IsPut};

/// Puts bytes at the front of a buffer, as many as fit, and answers how many.
pub(crate) fn put(bytes: &[u8], into: &mut [u8]) -> usize
    ensures { IsPut bytes.now into.old into.new result }
{
    let count = bytes.len().min(into.len());
    into[..count].copy_from_slice(&bytes[..count]);
    count
}
