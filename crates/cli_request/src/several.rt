// Accounts one behind another, as they are told of several files.
ghost use Rattle.std.specs.Prelude.{◌≡◌};
ghost use Rattle.cli_request.specs.Several.{opens_at, ends_at, first_end};

// Whether a line that begins an account stands at a place.
#[tactic(auto, unfolding(crate::specs::Several::opens_at))]
fn opens(s: &[u8], at: usize) -> bool
    ensures { result ≡ opens_at s.now at }
{
    text_scan::lit(s, at, b"file ").is_some() || text_scan::lit(s, at, b"accepted ").is_some()
}

// Whether an account ends with the line feed at a place.
#[tactic(auto, unfolding(crate::specs::Several::ends_at))]
fn ends(s: &[u8], at: usize) -> bool
    ensures { result ≡ ends_at s.now at }
{
    at < s.len() && s[at] == b'\n' && opens(s, at + 1)
}

// Where the first account ends.
pub fn first_end(s: &[u8]) -> usize
    ensures { result ≡ first_end s.now }
{
    let first = crate::first_line(s);
    for at in first..s.len() {
        if ends(s, at) {
            return at + 1;
        }
    }
    first.max(s.len())
}
