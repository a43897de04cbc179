ghost use Rattle.std.specs.Prelude.{◌≡◌, ◌∷◌, ◌<◌, [], None, IfSome, length};
ghost use Rattle.st_schedule_words.specs.Lines.{lines_of};

/// The first line of some bytes, and what follows its newline. There is at least one byte.
fn split_line(bytes: &[u8]) -> (&[u8], &[u8])
    requires { 0 < length bytes.now }
    ensures lines { lines_of bytes.now ≡ result.0.now ∷ lines_of result.1.now }
    ensures fewer { length result.1.now < length bytes.now }
{
    let mut at = 0;
    while at < bytes.len() {
        if bytes[at] == b'\n' {
            return (&bytes[..at], &bytes[at + 1..]);
        }
        at += 1;
    }
    (bytes, &bytes[bytes.len()..])
}

/// The first line of some bytes, without its newline, which the last line may lack, and the bytes
/// that follow it; `None` if there is no byte.
pub fn take_line(bytes: &[u8]) -> Option<(&[u8], &[u8])>
    ensures none { result ≡ None → bytes.now ≡ [] }
    ensures lines { IfSome result (λ x. lines_of bytes.now ≡ x.0.now ∷ lines_of x.1.now) }
    ensures fewer { IfSome result (λ x. length x.1.now < length bytes.now) }
{
    match bytes {
        [] => None,
        _ => Some(split_line(bytes)),
    }
}
