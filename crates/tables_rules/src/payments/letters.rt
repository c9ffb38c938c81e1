// The letters of a debit that the text's rules allow.
ghost use Rattle.std.specs.Prelude.{◌≡◌, ◌&&◌, nat_lt};
ghost use Rattle.codes.specs.Codes.{short_text};
ghost use Rattle.text_values.specs.Letters.{is_status, is_fourth};
ghost use Rattle.model.specs.Rules.{are_letters};

// The number after the last of four characters.
const SHORT_END: u64 = 4_294_967_296;

// A, D, P or a space.
fn is_status(b: u8) -> bool
    ensures { result ≡ is_status b }
{
    match b {
        b'A' | b'D' | b'P' | b' ' => true,
        _ => false,
    }
}

// A space or A-Z.
fn is_fourth(b: u8) -> bool
    ensures { result ≡ is_fourth b }
{
    match b {
        b' ' => true,
        _ => chars::is_letter(b),
    }
}

// The letters of a debit.
#[tactic(auto, unfolding(codes::specs::Codes::short_text, codes::specs::Codes::unpacked))]
pub fn letters_right(v: u64) -> bool
    ensures { result ≡ (nat_lt v 4294967296 && are_letters (short_text v)) }
{
    v < SHORT_END
        && is_status(codes::short_byte(v, 0))
        && is_status(codes::short_byte(v, 1))
        && is_status(codes::short_byte(v, 2))
        && is_fourth(codes::short_byte(v, 3))
}
