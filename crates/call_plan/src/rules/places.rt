// Where a bank and a stream stand, and what a bank's flags say.
ghost use Rattle.std.specs.Prelude.{◌≡◌, [], ◌*◌, ◌^◌, ◌≤◌, ◌<◌, length};
ghost use Rattle.model.specs.Messages.{bank_place, stream_place, is_suspended, is_member};
ghost use Rattle.tables.specs.Seeking.{found_by};
ghost use Rattle.call_plan.specs.rules.Steps.{banks_house, streams_house};

// The place of a bank's code.
pub fn bank_place(codes: &[u64], banks: usize, code: u64) -> Option<usize>
    requires { banks ≤ length codes.now }
    ensures { found_by result ≡ bank_place (banks_house banks codes.now []) code }
{
    for i in 0..banks {
        if codes[i] == code {
            return Some(i);
        }
    }
    None
}

// The place of a stream's code: the streams are n pairs of words, code and administrator.
pub fn stream_place(streams: [u64; 16], n: usize, code: u64) -> Option<usize>
    requires { n ≤ 8 }
    ensures { found_by result ≡ stream_place (streams_house streams n) code }
{
    for i in 0..n {
        if streams[2 * i] == code {
            return Some(i);
        }
    }
    None
}

pub fn is_suspended(flags: &[u64], place: usize) -> bool
    requires { place < length flags.now }
    ensures { result ≡ is_suspended (banks_house 0 [] flags.now) place }
{
    flags[place] % 2 == 1
}

// The number of a stream's bit.
fn bit(stream: usize) -> u64
    requires { stream ≤ 8 }
    ensures value { result ≡ 2 ^ stream }
    ensures some { 0 < result }
{
    1 << stream
}

pub fn is_member(flags: &[u64], stream: usize, place: usize) -> bool
    requires { (place < length flags.now) × (stream ≤ 8) }
    ensures { result ≡ is_member (banks_house 0 [] flags.now) stream place }
{
    let b = bit(stream);
    flags[place] / 2 / b % 2 == 1
}
