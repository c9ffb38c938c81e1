// The numbers of a line.
ghost use Rattle.std.specs.Prelude.{◌≡◌};
ghost use Rattle.cli_files.specs.Numbers.{last_numbers, with_byte};

// The last five numbers of a line, each ended by a byte that is no digit; `e` is the one that the line ends in. 0 stands for one that is not there.
#[derive(Clone, Copy)]
pub struct Numbers {
    pub a: u64,
    pub b: u64,
    pub c: u64,
    pub d: u64,
    pub e: u64,
}

// One more byte: a digit goes on with the number, another byte ends it. A digit with which the number might not fit is left out.
#[tactic(auto, unfolding(crate::specs::Numbers::with_byte))]
fn with_byte(n: Numbers, byte: u8) -> Numbers
    ensures { result ≡ with_byte n byte }
{
    if !chars::is_digit(byte) {
        return Numbers {
            a: n.b,
            b: n.c,
            c: n.d,
            d: n.e,
            e: 0,
        };
    }
    if n.e < 1_844_674_407_370_955_161 {
        return Numbers {
            e: n.e * 10 + chars::digit_value(byte),
            ..n
        };
    }
    n
}

pub fn last(line: &[u8]) -> Numbers
    ensures { result ≡ last_numbers line.now }
{
    let none = Numbers {
        a: 0,
        b: 0,
        c: 0,
        d: 0,
        e: 0,
    };
    line.iter().fold(none, |n, &byte| with_byte(n, byte))
}
