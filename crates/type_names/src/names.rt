ghost use Rattle.std.specs.Prelude.{◌≡◌, true};
ghost use Rattle.type_names.specs.Names.{part_step, is_internal};

/// The internal name of the class above all others (JLS 4.3.2).
pub const OBJECT: &str = "java/lang/Object";

/// Whether a part of a name begins after `c`, and `None` where `c` can't stand there. `start` says that
/// a part begins at `c`.
fn part_step(start: bool, c: u8) -> Option<bool>
    ensures { result ≡ part_step start c }
{
    match c {
        b'/' => {
            if start {
                return None;
            }
            Some(true)
        }
        b'.' | b';' | b'[' => None,
        _ => Some(false),
    }
}

fn is_internal(name: &[u8]) -> bool
    ensures { result ≡ is_internal true name.now }
{
    let mut start = true;
    for i in 0..name.len() {
        match part_step(start, name[i]) {
            None => return false,
            Some(next) => start = next,
        }
    }
    !start
}

/// Whether a text is an internal name (JVMS 4.2.1): one or more parts joined by `/`, none of them empty,
/// none with a `.`, `;` or `[`.
pub fn is_internal_name(name: &str) -> bool
    ensures exact { result ≡ is_internal true name.now }
{
    is_internal(name.as_bytes())
}
