//! Values put into a buffer.
ghost use Rattle.std.specs.Prelude.{◌≡◌, length, nat_le};
ghost use Rattle.buffers.specs.Filled.{put_into};

/// Puts values into the front of a buffer where it has room for all of them, and says whether it has. The count tells
/// how many they are, also where there is less room; the buffer is then as it was.
pub fn put<T: Copy>(values: &[T], buffer: &mut [T], count: &mut usize) -> bool
    ensures fits { result ≡ nat_le (length values.now) (length buffer.old) }
    ensures count { count.new ≡ length values.now }
    ensures filled { buffer.new ≡ put_into buffer.old values.now }
{
    let wanted = values.len();
    *count = wanted;
    if wanted > buffer.len() {
        return false;
    }
    buffer[..wanted].copy_from_slice(values);
    true
}
