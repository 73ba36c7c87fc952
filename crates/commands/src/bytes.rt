// Bytes of a file from a place on.
ghost use Rattle.std.specs.Prelude.{◌≡◌, drop};

// The bytes from a place on; none behind the end.
pub fn bytes_from(file: &[u8], at: usize) -> &[u8]
    ensures { result.now ≡ drop at file.now }
{
    file.get(at..).unwrap_or(&[])
}
