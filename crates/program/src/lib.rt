// Decoding: four bytes to an instruction, and the test of a whole program.
#![tactic(auto)]

ghost use Rattle.std.specs.Prelude.{◌≡◌, ◌+◌, ◌*◌, ◌/◌, length, get_or};
ghost use Rattle.rules.specs.Decode.{none as none_of, one as one_of, two as two_of, three as three_of, allow, decode as decode_of, fetch as fetch_of};
ghost use Rattle.rules.specs.Program.{good_up_to, good_program};

use rules::Instr;

fn none(x: u8, y: u8, z: u8) -> bool
    ensures { result ≡ none_of x y z }
{
    (x == 0) & (y == 0) & (z == 0)
}

fn one(x: u8, y: u8, z: u8) -> bool
    ensures { result ≡ one_of x y z }
{
    (x < 8) & (y == 0) & (z == 0)
}

fn two(x: u8, y: u8, z: u8) -> bool
    ensures { result ≡ two_of x y z }
{
    (x < 8) & (y < 8) & (z == 0)
}

fn three(x: u8, y: u8, z: u8) -> bool
    ensures { result ≡ three_of x y z }
{
    (x < 8) & (y < 8) & (z < 8)
}

// The number that y and z make.
fn pair_of(y: u8, z: u8) -> u16
    ensures { result ≡ 256 * y + z }
{
    256 * (y as u16) + (z as u16)
}

// The instruction where the test holds.
#[tactic(auto, unfolding(rules::specs::Decode::allow))]
fn allowed(ok: bool, i: Instr) -> Option<Instr>
    ensures { result ≡ allow ok i }
{
    ok.then_some(i)
}

// "Well formed: a listed code, registers below 8, device below 4, jump target below N, unused bytes 0"
#[tactic(auto, unfolding(rules::specs::Decode::decode))]
fn decode(code: u8, x: u8, y: u8, z: u8, n: u16) -> Option<Instr>
    ensures { result ≡ decode_of code x y z n }
{
    let k = pair_of(y, z);
    match code {
        0 => allowed(none(x, y, z), Instr::Nop),
        1 => allowed(x < 8, Instr::SetTo(x, k)),
        2 => allowed(three(x, y, z), Instr::Add(x, y, z)),
        3 => allowed(three(x, y, z), Instr::Sub(x, y, z)),
        4 => allowed(three(x, y, z), Instr::Div(x, y, z)),
        5 => allowed(two(x, y, z), Instr::Load(x, y)),
        6 => allowed(two(x, y, z), Instr::Store(x, y)),
        7 => allowed((x < 8) & (k < n), Instr::Jz(x, k)),
        8 => allowed(three(x, y, z), Instr::Take(x, y, z)),
        16 => allowed(one(x, y, z), Instr::Time(x)),
        17 => allowed((x < 8) & (y < 4) & (z < 8), Instr::Start(x, y, z)),
        18 => allowed(one(x, y, z), Instr::Timer(x)),
        _ => None,
    }
}

// A byte of the program; past its end, 0.
fn byte(program: &[u8], i: usize) -> u8
    ensures { result ≡ get_or program.now i 0 }
{
    program.get(i).copied().unwrap_or(0)
}

// The instruction at pc, of a program of n instructions.
#[tactic(auto, unfolding(rules::specs::Decode::fetch))]
pub fn fetch(program: &[u8], n: u16, pc: u16) -> Option<Instr>
    ensures { result ≡ fetch_of program.now n pc }
{
    if n <= pc {
        return None;
    }
    let at = 4 * (pc as usize);
    let code = byte(program, at);
    let x = byte(program, at + 1);
    let y = byte(program, at + 2);
    let z = byte(program, at + 3);
    decode(code, x, y, z, n)
}

// Whether the first n instructions are well formed.
fn good_up_to(program: &[u8], n: u16) -> bool
    ensures { result ≡ good_up_to program.now n n }
{
    for k in 0..n {
        if fetch(program, n, k).is_none() {
            return false;
        }
    }
    true
}

// Whether a program is 1 to 1,024 well formed instructions of 4 bytes.
#[tactic(auto, unfolding(rules::specs::Program::good_program))]
pub fn good_program(program: &[u8]) -> bool
    ensures { result ≡ good_program program.now (length program.now / 4) }
{
    let n = program.len() / 4;
    if (n < 1) | (1024 < n) | (program.len() != 4 * n) {
        return false;
    }
    good_up_to(program, n as u16)
}
