ghost use Rattle.std.specs.Prelude.{◌≡◌};
ghost use Rattle.std.specs.List.{list_all};
ghost use Rattle.st_rules.specs.Names as names;

fn is_name_byte(byte: u8) -> bool
    ensures { result ≡ names.is_name_byte byte }
{
    byte >= b'a' && byte <= b'z'
        || byte >= b'A' && byte <= b'Z'
        || byte >= b'0' && byte <= b'9'
        || byte == b'.'
        || byte == b'_'
        || byte == b'-'
}

fn are_name_bytes(name: &[u8]) -> bool
    ensures { result ≡ list_all names.is_name_byte name.now }
{
    name.iter().all(|&byte| is_name_byte(byte))
}

/// Whether an entry may have this name: 1 to 64 bytes of letters, digits, `.`, `_` and `-`, and
/// neither `.` nor `..`.
#[tactic(auto, unfolding(st_rules::specs::Names::is_good))]
pub fn is_good(name: &[u8]) -> bool
    ensures { result ≡ names.is_good name.now }
{
    name.len() >= 1
        && name.len() <= 64
        && are_name_bytes(name)
        && !(name == b".".as_slice() || name == b"..".as_slice())
}

/// Whether the first name is below the second one, compared byte by byte.
pub fn is_below(a: &[u8], b: &[u8]) -> bool
    ensures { result ≡ names.name_below a.now b.now }
{
    for place in 0..b.len() {
        if place == a.len() {
            return true;
        }
        if a[place] != b[place] {
            return a[place] < b[place];
        }
    }
    false
}
